// The values of a step that sets an option.
use packet::Range;

// The most values that are kept: one more than a packet has options, so that a list that is too long is refused as such.
const MOST: usize = 129;

// How many numbers those are.
const SIZE: usize = 387;

// The ranges of some values, as three numbers each: 0 or 1 for their store, their start and their length. Its memory is fixed,
// since nothing here allocates.
#[derive(Clone, Copy)]
pub struct Values {
    numbers: [u32; SIZE],
    count: usize,
}

impl Values {
    // No values.
    pub fn new() -> Values {
        Values {
            numbers: [0; SIZE],
            count: 0,
        }
    }

    // Adds a value, if it is one of those that are kept.
    pub fn push(&mut self, value: Range) {
        if MOST <= self.count {
            return;
        }
        let at = 3 * self.count;
        self.numbers[at] = value.home as u32;
        self.numbers[at + 1] = value.start;
        self.numbers[at + 2] = value.len;
        self.count = self.count + 1;
    }

    // The numbers of the values.
    pub fn numbers(&self) -> &[u32] {
        let end = self.count.saturating_mul(3);
        self.numbers.get(..end).unwrap_or(&[])
    }
}
