// The steps of an edit script, read from the words of a line: with values as bytes, or with ranges.
#![tactic(auto)]

mod reading_steps;
mod source;
mod values;

pub use reading_steps::{Step, read_step};
pub use source::Source;
pub use values::Values;
