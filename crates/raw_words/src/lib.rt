// Raw packets as words, both ways: two stores, and ranges that need not be inside them.
#![tactic(auto)]

mod read;
mod shown;

pub use read::{Raw, read_range, read_raw};
pub use shown::{write_raw, write_records};
