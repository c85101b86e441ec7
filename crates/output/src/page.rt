// A page of the output: bytes that wait, and are written as the page fills. What doesn't fit is cut off. Where writing fails
// nothing more is written, so that the last line of an output is there only where all of it is.
use crate::Console;
use decimal::put_decimal;
use hexadecimal::put_hex;
use placing::{put_byte, put_bytes};

#[derive(Drop)]
pub struct Page<'a> {
    console: Console,
    bytes: &'a mut [u8],
    // Where the next byte goes.
    place: usize,
    failed: bool,
}

impl<'a> Page<'a> {
    // An empty page over a buffer.
    pub fn new(console: Console, bytes: &'a mut [u8]) -> Page<'a> {
        Page {
            console,
            bytes,
            place: 0,
            failed: false,
        }
    }

    pub fn byte(&mut self, byte: u8) {
        self.place = put_byte(self.bytes, self.place, byte);
    }

    pub fn text(&mut self, text: &[u8]) {
        self.place = put_bytes(self.bytes, self.place, text);
    }

    // A text and a number, in decimal.
    pub fn number(&mut self, text: &[u8], number: u64) {
        self.text(text);
        self.place = put_decimal(self.bytes, self.place, number);
    }

    // A text and bytes, as hexadecimal digits; a dash stands for no bytes.
    pub fn hex(&mut self, text: &[u8], bytes: &[u8]) {
        self.text(text);
        self.place = put_hex(self.bytes, self.place, bytes);
    }

    // The comma before each member of a list but the first.
    pub fn separator(&mut self, index: usize) {
        if 0 < index {
            self.byte(b',');
        }
    }

    // Writes what waits if half of the page is full.
    pub fn spill(&mut self) {
        if self.bytes.len() / 2 <= self.place {
            self.flush();
        }
    }

    // Writes what waits. Where that fails, standard error says why, once.
    pub fn flush(&mut self) {
        if !self.failed {
            self.failed = !self.console.write(self.waiting());
        }
        self.place = 0;
    }

    // What waits.
    fn waiting(&self) -> &[u8] {
        self.bytes.get(..self.place).unwrap_or(b"")
    }

    // Whether writing has failed.
    pub fn has_failed(&self) -> bool {
        self.failed
    }
}
