// A list of options, read one by one: NUMBER:HEX, with a comma between two, or a dash for none.
use words::{Line, separator};

// An option whose value stands in the store from the place on that was named: its number and the end of its value.
#[derive(Clone, Copy)]
pub struct Taken {
    pub number: u16,
    pub end: usize,
}

// Goes past a list that has no options.
pub fn pass_none(line: &mut Line) -> Option<()> {
    line.past(b" -")
}

// Reads the option at an index of the list, and puts its value into the store.
pub fn read_option(line: &mut Line, index: usize, store: &mut [u8], place: usize) -> Option<Taken> {
    Some(Taken {
        number: line.number(separator(index))?,
        end: line.bytes(b':')?.put(store, place).ok()?,
    })
}

// Goes past a list of options, with each value read to the same place of the store.
pub fn pass(line: &mut Line, store: &mut [u8], place: usize) -> Option<()> {
    if pass_none(line).is_some() {
        return Some(());
    }
    for i in 0..line.len() {
        read_option(line, i, store, place)?;
        if !line.is_at(b',') {
            return Some(());
        }
    }
    None
}
