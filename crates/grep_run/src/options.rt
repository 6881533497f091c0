//! What the command line asks for. POSIX.1-2017 `grep`, OPTIONS and OPERANDS.
use lit_base::Fold;

/// What the command line asks for.
#[derive(Debug, Drop)]
pub struct GrepOptions {
    /// -i: which case differences are ignored.
    pub fold: Fold,
    /// -v: the lines that match no pattern are selected.
    pub invert: bool,
    /// -x: a line matches only as a whole.
    pub whole: bool,
    /// -c: only the number of selected lines is written.
    pub count: bool,
    /// -l: only the names of files with a selected line are written.
    pub list: bool,
    /// -n: each line is written after its number.
    pub number: bool,
    /// -q: nothing is written to standard output.
    pub quiet: bool,
    /// -s: no message is written for an input file that cannot be read.
    pub silent: bool,
    /// The pattern lists: the arguments of -e, or the first operand where neither -e nor -f is given.
    pub lists: Vec<String>,
    /// The pattern files, of -f.
    pub files: Vec<String>,
    /// The files to search; `-` is standard input. Without operands standard input is searched.
    pub operands: Vec<String>,
}
