// A line that is read word by word, each from the byte that stands before it: a space, or a comma or a colon inside a list.
// A reading that does not find what it asks for answers None, and a row of readings ends there by `?`. A line has one newline,
// which is its last byte.
use crate::given::Given;
use decimal::decimal_in;
use hexadecimal::{hex_digit_of, is_hex};

// The longest room that a line can name.
const MAX_ROOM: u64 = 71000;

// The largest number of zeros that a line can name.
const MAX_ZEROS: u64 = 100000;

// What is left of a line.
#[derive(Clone, Copy)]
pub struct Line<'a> {
    rest: &'a [u8],
}

impl<'a> Line<'a> {
    // A line before its first word.
    pub fn new(text: &'a [u8]) -> Line<'a> {
        Line { rest: text }
    }

    // How many bytes are left, which are more than words.
    pub fn len(&self) -> usize {
        self.rest.len()
    }

    // Whether this byte stands here.
    pub fn is_at(&self, byte: u8) -> bool {
        matches!(self.rest, [first, ..] if *first == byte)
    }

    // None unless the line ends here.
    pub fn finished(&self) -> Option<()> {
        self.is_at(b'\n').then_some(())
    }

    // None unless a word ends here.
    pub fn ended(&self) -> Option<()> {
        (self.is_at(b' ') || self.is_at(b'\n')).then_some(())
    }

    // Goes past a byte that has to stand here.
    pub fn after(&mut self, byte: u8) -> Option<()> {
        match self.rest {
            [first, rest @ ..] if *first == byte => {
                self.rest = rest;
                Some(())
            }
            _ => None,
        }
    }

    // Goes past a text that has to stand here; where it doesn't, nothing is gone past.
    pub fn past(&mut self, text: &[u8]) -> Option<()> {
        if !self.rest.starts_with(text) {
            return None;
        }
        self.taken(text.len());
        Some(())
    }

    // Goes past a number of bytes, and answers them.
    fn taken(&mut self, count: usize) -> &'a [u8] {
        match self.rest.split_at_checked(count) {
            Some((taken, rest)) => {
                self.rest = rest;
                taken
            }
            None => b"",
        }
    }

    // The bytes up to the end of the word that begins here.
    pub fn name(&mut self) -> &'a [u8] {
        let ends = |byte: &u8| *byte == b' ' || *byte == b'\n';
        self.taken(self.rest.iter().position(ends).unwrap_or(self.rest.len()))
    }

    // The digits that stand here, each at most the given one.
    fn digits(&mut self, most: u8) -> &'a [u8] {
        let is_none = |byte: &u8| !hex_digit_of(*byte).is_some_and(|digit| digit <= most);
        self.taken(
            self.rest
                .iter()
                .position(is_none)
                .unwrap_or(self.rest.len()),
        )
    }

    // A decimal number of 1 to 20 digits that its type holds.
    pub fn number<N: TryFrom<u64>>(&mut self, before: u8) -> Option<N>
    where
        N::Error: Drop,
    {
        self.number_to(before, u64::MAX)
    }

    // Such a number that is at most `most`.
    pub fn number_to<N: TryFrom<u64>>(&mut self, before: u8, most: u64) -> Option<N>
    where
        N::Error: Drop,
    {
        self.after(before)?;
        self.number_here(most)
    }

    // Such a number that stands right here.
    pub fn number_here<N: TryFrom<u64>>(&mut self, most: u64) -> Option<N>
    where
        N::Error: Drop,
    {
        let text = self.digits(9);
        if 20 < text.len() {
            return None;
        }
        N::try_from(decimal_in(text, most)?).ok()
    }

    // Bytes: hexadecimal digits, a dash for none, or how many zeros.
    pub fn bytes(&mut self, before: u8) -> Option<Given<'a>> {
        self.after(before)?;
        self.bytes_here()
    }

    // Such bytes that stand right here.
    pub fn bytes_here(&mut self) -> Option<Given<'a>> {
        if self.after(b'-').is_some() {
            return Some(Given::Digits(b""));
        }
        if self.past(b"zeros").is_some() {
            return Some(Given::Zeros(self.number_to(b':', MAX_ZEROS)?));
        }
        let text = self.digits(15);
        if text.is_empty() || !is_hex(text) {
            return None;
        }
        Some(Given::Digits(text))
    }

    // Bytes that are put at the start of a store.
    pub fn stored<'s>(&mut self, store: &'s mut [u8]) -> Option<&'s [u8]> {
        let end = self.bytes(b' ')?.put(store, 0).ok()?;
        store.get(..end)
    }

    // As much of a room as the line names.
    pub fn room<'r>(&mut self, room: &'r mut [u8]) -> Option<&'r mut [u8]> {
        let size: usize = self.number_to(b' ', MAX_ROOM)?;
        room.get_mut(..size)
    }

    // The hexadecimal digits of a peer's 18 bytes.
    pub fn peer(&mut self) -> Option<[u8; 18]> {
        let mut peer = [0u8; 18];
        match self.bytes(b' ')?.put(&mut peer, 0) {
            Ok(18) => Some(peer),
            _ => None,
        }
    }

    // Goes past a list of numbers, each of at most two bytes.
    pub fn numbers(&mut self) -> Option<()> {
        for i in 0..self.len() {
            self.number::<u16>(separator(i))?;
            if !self.is_at(b',') {
                return Some(());
            }
        }
        None
    }
}

// The byte before a member of a list: a comma before all but the first.
pub fn separator(index: usize) -> u8 {
    if index == 0 { b' ' } else { b',' }
}
