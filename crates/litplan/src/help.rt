//! What `--help` prints after the options of each command.

/// The text of `litplan plan --help` after the options.
pub const PLAN_HELP: &str = "\
Empty lines and repeated lines are dropped. The certificate is a text that
`litplan check` reads. Status 0, or 2 with a message. With --hex a pattern may
hold any byte, also a newline. A digit is 0 to 9, or a to f of either case. A
line that is not pairs of digits is refused by its number.

Example: the plan of three literals, and of two that hold a newline and a NUL
  printf 'horse\\ncat\\ndog\\n' | litplan plan -
  printf '610a62\\n00FF\\n' | litplan plan --hex -";

/// The text of `litplan check --help` after the options.
pub const CHECK_HELP: &str = "\
Prints `optimal COST` (status 0), or `not certified: REASON` with the first
condition that fails (status 1). The check does not trust the writer of the
certificate. With --plan it checks plan I of a plan file. If a file cannot be
read or has no such plan, the status is 2, with a message. `litplan explain`
says where a file is wrong.

Example: plan a file, and check the plan
  litplan plan words > words.cert
  litplan check words words.cert";

/// The text of `litplan pack --help` after the options.
pub const PACK_HELP: &str = "\
All patterns are read and planned before OUT is made or emptied. OUT then holds
the plan of FILE with its certificate. With several FILEs, at most 64, it holds
a plan of each, in their order. OUT must not be one of them: `litplan: OUT:
cannot be used`. Status 0, or 2 with a message. If a write fails, OUT holds the
first part of the plan file.

Example: the plan file of a list, and of three
  litplan pack words words.plan
  litplan pack words names hosts all.plan";

/// The text of `litplan explain --help` after the options.
pub const EXPLAIN_HELP: &str = "\
Prints a row for each bucket: its number, how many literals it has, the length
of the shortest, how many last bytes of each the filter uses (bytes), its
weight and cost, its share of the cost in percent, how many of the 16,777,216
endings of three bytes pass its filter, and its first and last literal. Then
come the costs of the plan, of one bucket for all literals, and of eight (or
sixteen) parts as even as possible. The lines that repeat an earlier line
follow, and how many are empty.

With --plan it explains plan I of a plan file. With --certificate it prints how
many runs (buckets) a certificate has, and their cost.

If a list, a plan file or a certificate is wrong, it prints where: the line,
from 1, or the byte, from 0 (status 1). Otherwise the status is 0, or 2 with a
message.

Example: the plan of a list, a drawing of it, and where a plan file is wrong
  litplan explain words
  litplan explain --svg words > plan.svg
  litplan explain --plan words.plan";

/// The text of `litplan migrate --help` after the options.
pub const MIGRATE_HELP: &str = "\
Writes a plan of at most sixteen buckets for each plan of IN, in the same
order. Prints a line `plan I OLD NEW` for each: its number, from 0, its cost in
IN, and its cost in OUT, which is no greater. IN is read and checked whole
before OUT is made or emptied. Status 0, or 2 with a message. If a write fails,
OUT holds the first part of the plan file.

Example: bring an old plan file up to date
  litplan migrate old.plan new.plan";

/// The text of `litplan scan --help` after the options.
pub const SCAN_HELP: &str = "\
Prints a line `LIT END` for each position at which a pattern ends. LIT is the
number of the literal, from 0, by length and then by bytes. END is how many
bytes of INPUT there are up to its end. The lines are ordered by END, then by
LIT, and are the same for each W. INPUT is held in memory, in a buffer that
doubles: up to twice its size. Each hit takes 16 bytes more, or up to 32 with
several workers. Each worker that has 256 KiB of INPUT takes up to 9.4 MiB
more. Status 0, or 2 with a message.

With --names the lines are `LIT START \"LITERAL\"`. START is how many bytes of
INPUT there are before the literal. A byte of it that is not printable ASCII is
\\x and two hexadecimal digits. A quote or a backslash follows a backslash.

Example: where the words of a list end in a log
  litplan scan --workers 4 words access.log";
