// The words of a line, read one after another.
#![tactic(auto)]

mod given;
mod lists;
mod parts;
mod reading;

pub use given::Given;
pub use lists::separator;
pub use parts::part;
pub use reading::Line;
