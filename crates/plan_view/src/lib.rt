//! A plan for people, as a text or a drawing: what each bucket holds and costs, and what other groupings would cost. The
//! text also says which patterns were dropped.
#![tactic(auto)]

mod bucket;
mod columns;
mod drawing;
mod endings;
mod quotes;
mod repeats;
mod rows;
mod sums;
mod text;
mod view;

pub use drawing::plan_svg;
pub use quotes::push_literal;
pub use text::plan_text;
