// Plans the rest of images, and checks plans: reads one image to a line on standard input, and writes its plan, a picture and
// the verdict to standard output.
#![tactic(auto)]

use reports::{Failure, Page};

mod asking;
mod blocks;
mod picture;
mod showing;

// How a picture is read.
const LEGEND: &[u8] =
    b"in pictures # is held, 0 to 6 is asked for in blocks of 16, 32, 64, 128, 256, 512 or 1024 bytes, + is units that differ\n";

fn main(rt: HostRuntime) {
    let mut input = [0u8; 300000];
    reports::end(&rt, answer(&rt, &mut input));
}

// Reads the input, gives its last line a newline, and answers each line. Standard error says where the input is too long.
fn answer(rt: &HostRuntime, input: &mut [u8]) -> Result<(), Failure> {
    let count = reread::fill(&mut rt.stdin(), input, 0)?.count;
    let Some(last) = input.get_mut(count) else {
        let _ = eprintln!(rt; "the input is too long: 299999 bytes at most");
        return Ok(());
    };
    *last = b'\n';
    answer_lines(rt, input.get(..=count).unwrap_or(b""))
}

fn answer_lines(rt: &HostRuntime, text: &[u8]) -> Result<(), Failure> {
    let mut held = [0u8; 70000];
    let mut list = [0u32; 65536];
    let mut out = [0u8; 20000];
    let mut page = Page::new(rt.stdout(), &mut out);
    page.put_bytes(LEGEND);
    for line in text.split_inclusive(|byte| *byte == b'\n') {
        answer_line(&mut page, line, &mut held, &mut list)?;
    }
    page.finish()
}

// An empty line has no answer.
fn answer_line(
    page: &mut Page,
    line: &[u8],
    held: &mut [u8],
    list: &mut [u32],
) -> Result<(), Failure> {
    if line.len() < 2 {
        return Ok(());
    }
    let Some(asked) = asking::ask(line, held, list) else {
        page.put_bytes(
            b"no image: image SIZE held HELD, or image SIZE held HELD check OPTION ..\n",
        );
        return Ok(());
    };
    showing::show(page, asked, held.get(..asked.units).unwrap_or(b""), list)
}
