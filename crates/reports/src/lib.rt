// What the programs write: the page that their output waits on, refusals by number and name, what failed, and how far they are.
#![tactic(auto)]

use decimal::put_decimal;
use placing::put_bytes;
use refusal::Refusal;
use std::fmt::{Display, Formatter};
use std::io::{IsTerminal, Stdout, Write};
use std::{fmt, io};

// What failed of reading or writing, and why; and what is said besides of how many windows, which are 0 where nothing is.
#[derive(Drop)]
pub struct Failure {
    what: &'static str,
    why: io::Error,
    said: &'static str,
    windows: u64,
}

impl Failure {
    pub fn new(what: &'static str, why: io::Error) -> Failure {
        Failure {
            what,
            why,
            said: "",
            windows: 0,
        }
    }

    // The same in a window of a long piece of work: how far that is, as `progress` says it, is said after the failure.
    pub fn in_window(self, said: &'static str, windows: u64) -> Failure {
        Failure {
            said,
            windows,
            ..self
        }
    }
}

// writing the output: No space left on device (os error 28)
impl Display for Failure {
    fn fmt<W: fmt::Write>(&self, f: &mut Formatter<W>) -> fmt::Result {
        let what = self.what;
        let why = &self.why;
        write!(f, "{what}: {why}")
    }
}

// How a program ends: where reading or writing failed, standard error says what and why, and how far the program was.
pub fn end(rt: &HostRuntime, ended: Result<(), Failure>) {
    if let Err(failure) = ended {
        let _ = eprintln!(rt; "{failure}");
        progress(rt, failure.said, failure.windows);
    }
}

// Writes bytes to standard output.
pub fn write(mut output: Stdout, bytes: &[u8]) -> Result<(), Failure> {
    output
        .write_all(bytes)
        .map_err(|why| Failure::new("writing the output", why))
}

// A refusal by number and name.
#[derive(Clone, Copy)]
pub struct Numbered(pub Refusal);

// refused 19 BadFreeze
impl Display for Numbered {
    fn fmt<W: fmt::Write>(&self, f: &mut Formatter<W>) -> fmt::Result {
        let why = self.0;
        let number = why.number();
        write!(f, "refused {number} {why}")
    }
}

// Lent bytes that the output waits on until it is written. The programs have no heap; and of a page that is let go nothing is written,
// as std's writers would write it, so that an output that ends early has no verdict.
#[derive(Drop)]
pub struct Page<'a> {
    output: Stdout,
    // The bytes, and how many of them wait. What puts into an output at a place takes both, and answers the next place:
    // `page.place = put_peer(page.bytes, page.place, peer);`
    pub bytes: &'a mut [u8],
    pub place: usize,
    // How many were written before them.
    written: u64,
}

impl<'a> Page<'a> {
    pub fn new(output: Stdout, bytes: &'a mut [u8]) -> Page<'a> {
        Page {
            output,
            bytes,
            place: 0,
            written: 0,
        }
    }

    // Puts bytes. What the page has no room for is cut off.
    pub fn put_bytes(&mut self, bytes: &[u8]) {
        self.place = put_bytes(self.bytes, self.place, bytes);
    }

    // Puts a text and a number. Lines that are many are put by this: `write!` takes each piece of a line through a formatter.
    pub fn put_number(&mut self, text: &[u8], number: u64) {
        self.put_bytes(text);
        self.place = put_decimal(self.bytes, self.place, number);
    }

    // Puts a text, for `write!` and `writeln!`, as `put_bytes` does.
    pub fn write_fmt<D: Display + Drop>(&mut self, text: D) {
        let _ = fmt::Write::write(self, text);
    }

    // Writes what waits once it is half of the page.
    pub fn spill(&mut self) -> Result<(), Failure> {
        if self.place < self.bytes.len() / 2 {
            return Ok(());
        }
        self.finish()
    }

    // Writes what waits.
    pub fn finish(&mut self) -> Result<(), Failure> {
        let count = self.place.min(self.bytes.len());
        self.place = 0;
        self.written = self.written.wrapping_add(count as u64);
        write(self.output, &self.bytes[..count])
    }

    // How many bytes were written.
    pub fn written(&self) -> u64 {
        self.written
    }
}

impl fmt::Write for Page<'_> {
    fn write_str(&mut self, s: &str) -> fmt::Result {
        self.put_bytes(s.as_bytes());
        Ok(())
    }
}

// Says how far a long piece of work is, every 256 windows of 64 KiB, if somebody watches: standard error is a terminal.
pub fn progress(rt: &HostRuntime, what: &str, windows: u64) {
    if windows == 0 || windows % 256 != 0 || !rt.stderr().is_terminal() {
        return;
    }
    let mebibytes = windows / 16;
    let _ = eprintln!(rt; "{what} {mebibytes} MiB");
}
