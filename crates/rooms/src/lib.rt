// A room that is lent to a writer, with bytes in it that are known before, and the answer that says whether the others are kept.
#![tactic(auto)]

use output::Page;
use refusal::Refusal;
use telling::{write_kept, write_written};

// What every byte of the room is before.
const BEFORE: u8 = 0xAA;

pub fn fill(room: &mut [u8]) {
    room.fill(BEFORE);
}

// Puts what a writer answered, and at its end whether every byte that was not written is as it was.
pub fn write_told(page: &mut Page, written: Result<usize, Refusal>, room: &[u8]) {
    write_written(page, written, room);
    write_kept(page, are_before(room, written.unwrap_or(0)));
}

// Whether the bytes from a place on are as they were before.
pub fn are_before(room: &[u8], from: usize) -> bool {
    are_all(room, from, BEFORE)
}

// Whether the items from a place on are all the same as one.
pub fn are_all<T: PartialEq + Copy>(items: &[T], from: usize, same: T) -> bool {
    items.iter().skip(from).all(|item| *item == same)
}
