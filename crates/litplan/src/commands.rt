//! The commands of litplan, for clap.
use crate::help::{CHECK_HELP, EXPLAIN_HELP, MIGRATE_HELP, PACK_HELP, PLAN_HELP, SCAN_HELP};
use clap::{Arg, ArgAction, Command, value_parser};
use program_words::{VERSION, with_arg, with_subcommand};
use std::alloc::{AllocError, Global};

/// The commands of litplan.
pub(crate) fn litplan<'a>(alloc: Global) -> Result<Command<'a>, AllocError> {
    let command = Command::new(alloc, "litplan")
        .version(VERSION)
        .about(
            "Plans how the literals of a list are grouped, checks such plans, and finds where literals end",
        )
        .override_usage(
            "litplan plan [-i] [--hex] [--buckets B] FILE\n       \
             litplan check [-i] [--hex] FILE CERT | --plan FILE [I]\n       \
             litplan pack [-i] [--hex] [--buckets B] FILE.. OUT\n       \
             litplan explain [-i] [--hex] [--buckets B] [--svg] FILE | --plan FILE [I] | --certificate CERT\n       \
             litplan migrate IN OUT\n       \
             litplan scan [-i] [--hex] [--count | --names] --workers W FILE INPUT",
        )
        .no_binary_name(true)
        .subcommand_required(true);
    let command = with_subcommand(command, plan(alloc))?;
    let command = with_subcommand(command, check(alloc))?;
    let command = with_subcommand(command, pack(alloc))?;
    let command = with_subcommand(command, explain(alloc))?;
    let command = with_subcommand(command, migrate(alloc))?;
    with_subcommand(command, scan(alloc))
}

/// The command `plan`.
fn plan<'a>(alloc: Global) -> Result<Command<'a>, AllocError> {
    let command = Command::new(alloc, "plan")
        .about("Prints the certificate of the cheapest grouping of a file's patterns")
        .override_usage("litplan plan [-i] [--hex] [--buckets B] FILE")
        .after_help(PLAN_HELP);
    let command = with_arg(command, fold(alloc))?;
    let command = with_arg(command, hex(alloc))?;
    command.arg(buckets(alloc))?.arg(file(alloc))
}

/// The command `check`.
fn check<'a>(alloc: Global) -> Result<Command<'a>, AllocError> {
    let command = Command::new(alloc, "check")
        .about("Says whether a certificate shows that no grouping of a file's patterns is cheaper")
        .override_usage("litplan check [-i] [--hex] FILE CERT | --plan FILE [I]")
        .after_help(CHECK_HELP);
    let command = with_arg(command, fold(alloc))?;
    let command = with_arg(command, hex(alloc))?;
    let command = with_arg(command, plan_checked(alloc))?;
    let command = with_arg(
        command,
        file_or_place(alloc).required_unless_present("plan"),
    )?;
    with_arg(command, certificate(alloc))
}

/// The plan file whose plan is checked.
fn plan_checked<'a>(alloc: Global) -> Result<Arg<'a>, AllocError> {
    plan_in_file(alloc)
        .conflicts_with("fold")?
        .conflicts_with("hex")?
        .conflicts_with("certificate")
}

/// The certificate that is checked.
fn certificate<'a>(alloc: Global) -> Result<Arg<'a>, AllocError> {
    let certificate = Arg::new(alloc, "certificate")
        .value_name("CERT")
        .required_unless_present("plan")?
        .action(ArgAction::Set);
    Ok(certificate.help("A file with a certificate, as `plan` prints it; - is a file of that name"))
}

/// The command `pack`.
fn pack<'a>(alloc: Global) -> Result<Command<'a>, AllocError> {
    let command = Command::new(alloc, "pack")
        .about("Writes the plans of files of patterns to a plan file")
        .override_usage("litplan pack [-i] [--hex] [--buckets B] FILE.. OUT")
        .after_help(PACK_HELP);
    let command = with_arg(command, fold(alloc))?;
    let command = with_arg(command, hex(alloc))?;
    command
        .arg(buckets(alloc))?
        .arg(file(alloc).num_args(1..).action(ArgAction::Append))?
        .arg(output(alloc))
}

/// The command `explain`.
fn explain<'a>(alloc: Global) -> Result<Command<'a>, AllocError> {
    let command = Command::new(alloc, "explain")
        .about(
            "Shows how a file's patterns are grouped, or where a list, plan file or certificate is wrong",
        )
        .override_usage(
            "litplan explain [-i] [--hex] [--buckets B] [--svg] FILE | --plan FILE [I] | --certificate CERT",
        )
        .after_help(EXPLAIN_HELP);
    let command = with_arg(command, fold(alloc))?;
    let command = with_arg(command, hex(alloc))?;
    let command = command.arg(buckets(alloc))?;
    let command = with_arg(command, svg(alloc))?;
    let command = with_arg(command, planned_alone(alloc))?;
    let command = with_arg(command, certificate_alone(alloc))?;
    with_arg(command, file_alone(alloc))
}

/// The file of patterns that is explained, or the number of a plan.
fn file_alone<'a>(alloc: Global) -> Result<Arg<'a>, AllocError> {
    file_or_place(alloc)
        .required_unless_present("plan")?
        .required_unless_present("certificate")
}

/// A plan file, one of whose plans is taken.
fn plan_in_file<'a>(alloc: Global) -> Arg<'a> {
    Arg::new(alloc, "plan")
        .long("plan")
        .value_name("FILE")
        .action(ArgAction::Set)
        .help("A plan file; - is standard input. Its plan I is taken, from 0, or its first")
}

/// The plan file whose plan is explained.
fn planned_alone<'a>(alloc: Global) -> Result<Arg<'a>, AllocError> {
    plan_in_file(alloc)
        .conflicts_with("fold")?
        .conflicts_with("hex")?
        .conflicts_with("buckets")?
        .conflicts_with("certificate")
}

/// The certificate that is explained.
fn certificate_alone<'a>(alloc: Global) -> Result<Arg<'a>, AllocError> {
    Arg::new(alloc, "certificate")
        .long("certificate")
        .value_name("CERT")
        .action(ArgAction::Set)
        .help("A file with a certificate; - is a file of that name")
        .conflicts_with("fold")?
        .conflicts_with("hex")?
        .conflicts_with("buckets")?
        .conflicts_with("svg")?
        .conflicts_with("file")
}

/// A file of patterns; after a plan file the number of a plan.
fn file_or_place<'a>(alloc: Global) -> Arg<'a> {
    Arg::new(alloc, "file")
        .value_name("FILE")
        .action(ArgAction::Set)
        .help(
            "A file of patterns, one a line; - is standard input. With --plan the number I of a plan",
        )
}

/// The command `migrate`.
fn migrate<'a>(alloc: Global) -> Result<Command<'a>, AllocError> {
    let input = Arg::new(alloc, "input")
        .value_name("IN")
        .required(true)
        .action(ArgAction::Set)
        .help("The plan file that is read, of version 1 or 2; - is standard input");
    Command::new(alloc, "migrate")
        .about("Plans the lists of a plan file anew, with sixteen buckets")
        .override_usage("litplan migrate IN OUT")
        .after_help(MIGRATE_HELP)
        .arg(input)?
        .arg(output(alloc))
}

/// The command `scan`.
fn scan<'a>(alloc: Global) -> Result<Command<'a>, AllocError> {
    let command = Command::new(alloc, "scan")
        .about("Finds a file's patterns in an input, by several workers at once")
        .override_usage("litplan scan [-i] [--hex] [--count | --names] --workers W FILE INPUT")
        .after_help(SCAN_HELP);
    let command = with_arg(command, fold(alloc))?;
    let command = with_arg(command, hex(alloc))?;
    let command = with_arg(command, count(alloc))?;
    let command = with_arg(command, names(alloc))?;
    command
        .arg(workers(alloc))?
        .arg(file(alloc))?
        .arg(input(alloc))
}

/// The text that is searched.
fn input<'a>(alloc: Global) -> Arg<'a> {
    Arg::new(alloc, "input")
        .value_name("INPUT")
        .required(true)
        .action(ArgAction::Set)
        .help("What is searched, read whole; - is standard input")
}

/// The number of buckets.
fn buckets<'a>(alloc: Global) -> Arg<'a> {
    Arg::new(alloc, "buckets")
        .long("buckets")
        .value_name("B")
        .action(ArgAction::Set)
        .value_parser(["8", "16"].as_slice())
        .help("How many buckets the plan may have; 8 if not given")
}

/// The flag for the number of hits alone.
fn count<'a>(alloc: Global) -> Result<Arg<'a>, AllocError> {
    let count = flag(alloc, "count")?.long("count");
    Ok(count.help("Print only the number of hits"))
}

/// The flag for hits with their literals.
fn names<'a>(alloc: Global) -> Result<Arg<'a>, AllocError> {
    let names = flag(alloc, "names")?.long("names").conflicts_with("count")?;
    Ok(names.help("Print the start of each hit and its literal, in place of its end"))
}

/// The flag for a drawing.
fn svg<'a>(alloc: Global) -> Result<Arg<'a>, AllocError> {
    let svg = flag(alloc, "svg")?.long("svg");
    Ok(svg.help("Draw the plan, as an SVG file"))
}

/// The number of workers.
fn workers<'a>(alloc: Global) -> Arg<'a> {
    Arg::new(alloc, "workers")
        .long("workers")
        .value_name("W")
        .required(true)
        .action(ArgAction::Set)
        .value_parser(value_parser!(usize).range(1..=16))
        .help("How many workers share the input, 1 to 16")
}

/// The flag that ignores case.
fn fold<'a>(alloc: Global) -> Result<Arg<'a>, AllocError> {
    let fold = flag(alloc, "fold")?.short('i').long("ignore-case");
    Ok(fold.help("Take A to Z for a to z, so that patterns that differ in case are one"))
}

/// The flag for patterns in hexadecimal.
fn hex<'a>(alloc: Global) -> Result<Arg<'a>, AllocError> {
    let hex = flag(alloc, "hex")?.long("hex");
    Ok(hex.help("Read a line of FILE as a pattern in hexadecimal, two digits a byte"))
}

/// A flag, which may be given again.
fn flag<'a>(alloc: Global, id: &'a str) -> Result<Arg<'a>, AllocError> {
    let flag = Arg::new(alloc, id).action(ArgAction::SetTrue);
    flag.overrides_with(id)
}

/// The plan file that is made.
fn output<'a>(alloc: Global) -> Arg<'a> {
    Arg::new(alloc, "output")
        .value_name("OUT")
        .required(true)
        .action(ArgAction::Set)
        .help("The plan file, which is made or emptied; - is a file of that name")
}

/// The files of patterns.
fn file<'a>(alloc: Global) -> Arg<'a> {
    Arg::new(alloc, "file")
        .value_name("FILE")
        .required(true)
        .action(ArgAction::Set)
        .help("A file of patterns, one a line; - is standard input")
}
