// Packets as words, both ways.
#![tactic(auto)]

mod homes;
mod read;
mod shown;

pub use homes::{EDITS, read_home};
pub use read::{range, read_packet, record};
pub use shown::{Held, write_packet};
