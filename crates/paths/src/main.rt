// Shows what the paths and queries of coap URIs become: reads one text to a line on standard input, and writes the records of
// each, their bytes on the wire, and the text that these give back, to standard output.
#![tactic(auto)]

use reports::{Failure, Page};

mod showing;
mod wording;

// How many bytes the input has room for, one more than it may have.
const ROOM: usize = 300000;

fn main(rt: HostRuntime) {
    let mut input = [0u8; ROOM];
    reports::end(&rt, answer(&rt, &mut input));
}

// Reads the input, and answers each line. Standard error says where the input is too long.
fn answer(rt: &HostRuntime, input: &mut [u8]) -> Result<(), Failure> {
    let text = reread::beginning(rt, input)?;
    if ROOM <= text.len() {
        let _ = eprintln!(rt; "the input is too long: 299999 bytes at most");
        return Ok(());
    }
    answer_lines(rt, text)
}

// Answers each line, the last with a newline or without, and says at the end how many there are.
fn answer_lines(rt: &HostRuntime, text: &[u8]) -> Result<(), Failure> {
    let mut store = [0u8; 70000];
    let mut work = [0u8; 100000];
    let mut out = [0u8; 200000];
    let mut page = Page::new(rt.stdout(), &mut out);
    let mut count = 0usize;
    for line in text.split_inclusive(|byte| *byte == b'\n') {
        let line = line.strip_suffix(b"\n").unwrap_or(line);
        showing::answer(&mut page, line, &mut store, &mut work)?;
        count = count.saturating_add(1);
    }
    page.spill()?;
    writeln!(page, "lines {count}");
    page.finish()
}
