//! Images written as words, and the first mount rule that fails on them.
#![tactic(auto)]

mod answers;
mod rows;
mod volume;

pub use answers::{answer, answer_on};
pub use rows::{EMPTY, ROWS, TWO_FILES};
pub use volume::image;
