// The output of a program, which is written as it fills, and what is said on standard error where reading or writing fails.
#![tactic(auto)]

mod page;

pub use page::Page;
use std::io;
use std::io::{Stderr, Stdout};

// Where a program writes: standard output, and standard error for what it says besides.
#[derive(Clone, Copy)]
pub struct Console {
    pub output: Stdout,
    pub errors: Stderr,
}

impl Console {
    // That of the process.
    pub fn of(rt: &HostRuntime) -> Console {
        Console {
            output: rt.stdout(),
            errors: rt.stderr(),
        }
    }

    // Writes bytes to standard output. Where that fails, standard error says why.
    pub fn write(self, bytes: &[u8]) -> bool {
        match self.output.write_all(bytes) {
            Ok(()) => true,
            Err(why) => {
                self.failed("writing the output", why);
                false
            }
        }
    }

    // Writes bytes to standard error.
    pub fn say(self, line: &[u8]) {
        let _ = self.errors.write_all(line);
    }

    // Says on standard error what failed, and why.
    pub fn failed(self, what: &str, why: io::Error) {
        let _ = eprintln!(self.errors; "{what}: {why}");
    }
}

// Says on standard error why reading the input failed.
pub fn input_failed(console: Console, why: io::Error) {
    console.failed("reading the input", why);
}
