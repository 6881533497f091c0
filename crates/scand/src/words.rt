//! The words of the command line, read with clap.
ghost use Rattle.std.specs.Prelude.{◌≡◌, IfOk, IfSome, Some, codes, true};
ghost use Rattle.program_words.specs.Matches.{IsNumber, is_used, texts_of};
ghost use Rattle.scan_run.specs.LoadingFiles.{names_of};
ghost use Rattle.scand.specs.Requests.{IsRequestOf, IsServiceOf};

use crate::help::{HELP, USAGE};
use clap::{Arg, ArgAction, ArgMatches, Command, value_parser};
use program_words::{Fault, VERSION, matches_of, strings, values};
use scan_run::{Connections, MAX_CONNECTIONS};
use std::alloc::{AllocError, Global};

/// What the words ask for.
#[derive(Debug, Drop)]
pub struct Request {
    /// The names of files whose plans are published, in order, before anything is served.
    pub plans: Vec<String>,
    /// Who is served.
    pub service: Service,
}

/// Who is served.
#[derive(Clone, Copy, Debug)]
pub enum Service {
    /// One client over standard input and output.
    Alone,
    /// Connections to a port of this machine. If the port is 0, the system chooses it.
    Listen { port: u16, connections: Connections },
}

/// What the words after the program's name ask for.
///
/// # Errors
/// - `Usage` where they are no command, help and version included, with clap's text, and where an
///   option is missing.
/// - `OutOfMemory` where a growth was refused.
pub fn requested(alloc: Global, words: &[String]) -> Result<Request, Fault> {
    let matches = matches_of(alloc, scand(alloc)?, words)?;
    request_of(alloc, &matches)
}

/// The request in clap's matches, each argument under its name as id.
///
/// # Errors
/// - `Usage` where --stdio was not used, and a port or connections are missing.
/// - `OutOfMemory` where a growth was refused.
pub fn request_of(alloc: Global, matches: &ArgMatches<'_>) -> Result<Request, Fault>
    ensures { IfOk result (IsRequestOf matches.now) }
{
    let Some(service) = service_of(matches) else {
        return Err(Fault::usage(String::from_str(
            alloc,
            "scand: --stdio or --port and --connections are needed\n",
        )));
    };
    let plans = plans_of(alloc, matches)?;
    Ok(Request { plans, service })
}

/// The clients to serve by clap's matches, if no option is missing. Clap lets no other number of connections through.
fn service_of(matches: &ArgMatches<'_>) -> Option<Service>
    ensures reported { IfSome result (IsServiceOf matches.now) }
    ensures alone { is_used matches.now (codes "stdio") ≡ true → result ≡ Some Service.Alone }
{
    if matches.get_count("stdio") > 0 {
        return Some(Service::Alone);
    }
    let port = port_of(matches)?;
    let connections = connections_of(matches)?;
    Some(Service::Listen { port, connections })
}

/// The port in clap's matches, if one is given.
fn port_of(matches: &ArgMatches<'_>) -> Option<u16>
    ensures { IfSome result (IsNumber matches.now (codes "port")) }
{
    matches.get_one::<u16>("port")
}

/// The number of connections in clap's matches, if one is given and there may be as many.
fn connections_of(matches: &ArgMatches<'_>) -> Option<Connections>
    ensures { IfSome result (λ connections. IsNumber matches.now (codes "connections") connections.count) }
{
    Connections::new(matches.get_one::<usize>("connections")?)
}

/// The plan files in clap's matches, of all uses of the option.
fn plans_of(alloc: Global, matches: &ArgMatches<'_>) -> Result<Vec<String>, AllocError>
    ensures { IfOk result (λ plans. names_of plans.items ≡ texts_of matches.now (codes "plans")) }
{
    strings(alloc, values(matches, "plans"))
}

/// The arguments of scand.
fn scand<'a>(alloc: Global) -> Result<Command<'a>, AllocError> {
    Command::new(alloc, "scand")
        .version(VERSION)
        .no_binary_name(true)
        .override_usage(USAGE)
        .override_help(HELP)
        .arg(stdio(alloc))?
        .arg(port(alloc))?
        .arg(connections(alloc))?
        .arg(plans(alloc))
}

/// The flag for one client over standard input and output.
fn stdio<'a>(alloc: Global) -> Arg<'a> {
    Arg::new(alloc, "stdio")
        .long("stdio")
        .action(ArgAction::Count)
}

/// The port.
fn port<'a>(alloc: Global) -> Arg<'a> {
    Arg::new(alloc, "port")
        .long("port")
        .value_name("P")
        .action(ArgAction::Set)
        .value_parser(value_parser!(u16))
}

/// The number of connections.
fn connections<'a>(alloc: Global) -> Arg<'a> {
    Arg::new(alloc, "connections")
        .long("connections")
        .value_name("N")
        .action(ArgAction::Set)
        .value_parser(value_parser!(usize).range(1..=MAX_CONNECTIONS as i64))
}

/// The plan files.
fn plans<'a>(alloc: Global) -> Arg<'a> {
    Arg::new(alloc, "plans")
        .long("plans")
        .value_name("FILE")
        .action(ArgAction::Append)
}
