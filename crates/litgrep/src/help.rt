//! The texts of `--help` and of refusals.

/// How `litgrep` is called, as its help has it too.
pub const USAGE: &str = "\
litgrep [-F] [-c | -l | -q] [-insvx] LIST [FILE]...
       litgrep [-F] [-c | -l | -q] [-insvx] (-e LIST | -f FILE)... [FILE]...";

/// A description of `litgrep`: its options in the order of POSIX, its limits and its statuses.
pub const HELP: &str = "\
litgrep writes the lines that contain one of many literals: grep -F of
POSIX.1-2017, in the POSIX locale.

Usage: litgrep [-F] [-c | -l | -q] [-insvx] LIST [FILE]...
       litgrep [-F] [-c | -l | -q] [-insvx] (-e LIST | -f FILE)... [FILE]...

Without -e and -f the first operand is the pattern list. Each other operand is
a file to search, and - is standard input. Without a file to search, standard
input is searched. Options may follow operands. After -- all words are operands.

Options:
  -F, --fixed-strings       patterns are literals, as they always are here
  -c, --count               write only the number of selected lines of each file
  -e, --regexp LIST         use the patterns of LIST, separated by newlines
  -f, --file FILE           use the lines of FILE as patterns
  -i, --ignore-case         ignore the difference between A to Z and a to z
  -l, --files-with-matches  write only the names of files with a selected line
  -n, --line-number         write before each line its number in its file
  -q, --quiet               write nothing, and end at the first selected line
  -s, --no-messages         no message on a file to search that cannot be read
  -v, --invert-match        select the lines that match no pattern
  -x, --line-regexp         let a pattern match whole lines only
  --help                    write this text, to standard error, with status 2
  --version                 write the version, to standard error, with status 2

A line matches if it contains a pattern, byte by byte. An empty pattern matches
every line, with -x every empty line. -e and -f may be repeated and mixed, and
all their patterns count. A LIST may begin with a hyphen. Of -c, -l and -q, -q
overrides -l, and -l overrides -c.

Limits: 4096 patterns of at most 4095 bytes each and 1048576 in all; 1052672
bytes in one LIST or pattern file. Beyond a limit the message is
`litgrep: patterns refused (N)`. N is 2 for too many patterns, 3 for a pattern
that is too long, and 7 for too many bytes.

Status: 0 if a line is selected, 1 if no line is, 2 at an error. With -q it is
0 if a line is selected, even if there was an error before.

POSIX does not have the other options of GNU grep. Use in their place:
  for -a, -U, --line-buffered   nothing, since litgrep always does that
  for -y                        -i
  for -H                        a second file: litgrep cat f /dev/null
  for -h, --no-filename         a run for each file
  for -L                        -q on each file, and its status
  for -m 5                      litgrep cat f | head -n 5
  for -r, --include             find . -type f -exec litgrep cat /dev/null {} +
  for -z                        tr, before and after litgrep
  for -o, -b                    litplan scan
  for -w, --color               GNU grep on the lines that litgrep selects
  for -A, -B, -C, -E, -G, -P    GNU grep

Examples:
  litgrep -n -e cat -e dog notes.txt
      the lines of notes.txt with cat or dog, and their numbers
  tail -n 0 -F log | litgrep -i -f words
      the new lines of log with a word of the file words, as they come
";
