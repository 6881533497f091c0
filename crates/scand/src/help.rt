//! The texts of `--help` and of refusals.

/// How `scand` is called, as its help has it too.
pub const USAGE: &str =
    "scand --port P --connections N [--plans FILE]...\n       scand --stdio [--plans FILE]...";

/// A description of `scand`: its options, its plan files, its reports, its statuses and its limits.
pub const HELP: &str = "\
Scans byte streams for many literals at once, for clients that speak frames.
Clients publish lists of literals, open streams by them, and feed bytes in
pieces cut anywhere. scand reports each position at which a literal ends, once
and in order.

Usage: scand --port P --connections N [--plans FILE]...
       scand --stdio [--plans FILE]...

      --port P         listen on this port of 127.0.0.1, up to 65535; with 0
                       the system chooses a port, and standard error gets the
                       line `scand: port P`
      --connections N  accept this many connections in all, from 1 to 64, serve
                       each in a thread of its own, and end when all have ended
      --stdio          serve one client over standard input and output; the
                       port and the number of connections then count for nothing
      --plans FILE     publish the plans of this file before anything is
                       served; - is a file of that name; may be repeated
  -h, --help           print this, to standard error, with status 2
  -V, --version        print the version, to standard error, with status 2

All clients share the plans that they publish, each under its number. scand
answers each frame before it waits for the next frame. It keeps the last bytes
of each stream that a hit may need and, once a stream is long, up to 16 KiB to
tune its search. Besides its plans and streams, a client takes up to 1.2 MiB,
or up to 9.7 MiB where matches are dense. A client may wait for as long as it
likes. If you want a limit, enforce it in front of the server.

A plan file, as `litplan pack` writes it, holds up to 64 plans, each with its
certificate. scand checks each certificate again, and publishes the plans in
order. Standard error gets a line `scand: plan NUMBER` for each, and clients
open streams by that number. Several files are published one after the other,
and the numbers go on. If a file cannot be read (`scand: FILE: cannot be read`)
or is not a plan file (`scand: FILE: refused (10)`), nothing is served.

When all connections to the port have ended, standard output gets a line for
each, in order of acceptance: `connection I WORD`. WORD is clean, truncated
(the bytes ended inside a frame), bad (there were bytes that are not a frame),
read-fault, write-fault, out-of-memory, or not-served (no thread could be
started).

Status: 0 if each client ended between two frames, 1 if one ended otherwise, 2
at an error, with a message where one can be written. With --stdio only the
status says how the client ended.

Limits of a client: 64 plans, 64 open streams, 4096 patterns of at most 4095
bytes in a list. A list has to fit into one frame, which holds 65536 bytes of
payload.

Examples: one client, whose frames are in a file; eight connections, which may
use the plans of a file
  scand --stdio < frames > replies
  scand --port 7007 --connections 8 --plans words.plan
";
