//! The lines of a text: where newlines stand, how many there are, how a text is cut into lines, and the lines in which
//! literals end.
//!
//! Theorems: `count_newlines` returns the number of newlines. `HitLines` returns each line that holds a literal of a
//! plan, in order, with the lines before it that hold none.
#![tactic(auto)]

mod column;
mod counting;
mod cutting;
mod hit_line;
mod tuning;

pub use counting::count_newlines;
pub use cutting::{
    CutLine, has_short_lines, split_ended, split_line, split_next_line, suits_masks,
};
pub use hit_line::{HitLine, HitLines};
