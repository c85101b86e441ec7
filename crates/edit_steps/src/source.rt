// Where the values of a script's steps come from.
use packet::{Home, Range};
use packet_words::range;
use raw_words::read_range;
use words::Line;

// The edit store that the steps change. The values of a raw script are ranges; those of any other are bytes, which go to the store
// from its first free place on.
#[derive(Drop)]
pub struct Source<'e> {
    pub raw: bool,
    pub edits: &'e mut [u8],
    // The first free place; None from a value on that found no place.
    pub free: Option<usize>,
}

impl<'e> Source<'e> {
    pub fn new(raw: bool, edits: &'e mut [u8]) -> Source<'e> {
        Source {
            raw,
            edits,
            free: Some(0),
        }
    }

    // Reads a value that follows a byte. One that finds no place has no bytes.
    pub fn read_value(&mut self, line: &mut Line, before: u8) -> Option<Range> {
        if self.raw {
            return read_range(line, before);
        }
        let value = line.bytes(before)?;
        let Some(start) = self.free else {
            return Some(Range::NOWHERE);
        };
        self.free = value.put(self.edits, start).ok();
        match self.free {
            Some(end) => range(Home::Edits, start, end),
            None => Some(Range::NOWHERE),
        }
    }

    // Reads where a number of so many bytes is to be written, if the line says so; else the number takes the first free place.
    pub fn read_start(&mut self, line: &mut Line, size: usize) -> Option<u32> {
        if self.raw {
            return line.number(b' ');
        }
        let start = self.free?;
        self.free = start.checked_add(size);
        u32::try_from(start).ok()
    }
}
