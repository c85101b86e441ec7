// A picture of an image, in one line: of each unit whether it is held, or the exponent of the block that asks for it.
ghost use Rattle.std.specs.Prelude.{◌+◌, ◌<◌, ◌≤◌};

use crate::blocks::{first_of, size_of};
use reports::Page;

// Puts the picture of an accepted plan.
pub fn put_picture(page: &mut Page, held: &[u8], values: &[u32]) {
    let mut marks = [b'#'; 65536];
    for value in values {
        mark_block(*value, &mut marks);
    }
    put_marks(page, marks.get(..held.len()).unwrap_or(b""));
}

// Marks the units of a block by its exponent.
fn mark_block(value: u32, marks: &mut [u8]) {
    let first = (first_of(value) / 16) as usize;
    let count = (size_of(value) / 16) as usize;
    let end = first.saturating_add(count).min(marks.len());
    if let Some(units) = marks.get_mut(first..end) {
        units.fill(digit(value));
    }
}

fn digit(value: u32) -> u8 {
    b'0' + (value % 8) as u8
}

// Puts a character for each unit, or for so many units that the picture is short.
fn put_marks(page: &mut Page, marks: &[u8]) {
    let step = step_of(marks.len());
    match step {
        1 => write!(page, "picture: "),
        _ => write!(page, "picture, {step} units to a character: "),
    }
    for units in marks.chunks(step) {
        page.put_bytes(&[mark_of(units)]);
    }
    page.put_bytes(b"\n");
}

// How many units a character stands for, so that there are at most 64.
fn step_of(units: usize) -> usize
    ensures { (0 < result) × (result ≤ units + 1) }
{
    units.div_ceil(64).max(1)
}

// The mark that some units have in common, or a plus where they differ.
fn mark_of(units: &[u8]) -> u8 {
    match units {
        [first, others @ ..] if others.iter().all(|mark| mark == first) => *first,
        _ => b'+',
    }
}
