// Freezes messages: reads lines on standard input, each a peer, a space and a datagram in hexadecimal, as
// 192.0.2.1:5683 40010001b474657374, and writes their freeze stream to standard output, in the old form, or in the new form
// where the program's one argument is `new`. The verdict goes to standard error, and nothing is written where a line is refused.
// The input is read twice, so it may be of any length; from a pipe it is first copied to /tmp, and the room there bounds it. A
// line has at most 199,999 bytes, which is more than any datagram takes.
#![tactic(auto)]

mod asked;
mod lines;

use lines::{Freeze, WINDOW};
use reports::{Failure, Page};
use reread::Input;
use walks::{Walk, pass};

fn main(rt: HostRuntime) {
    let mut window = [0u8; WINDOW];
    let mut datagram = [0u8; 100000];
    let mut out = [0u8; 65536];
    let Some(form) = asked::form(&rt) else {
        let _ = eprintln!(rt; "freeze takes no argument but the form: old, as by default, or new");
        return;
    };
    let mut lines = Freeze {
        form,
        datagram: &mut datagram,
    };
    let mut page = Page::new(rt.stdout(), &mut out);
    reports::end(&rt, freeze(&rt, &mut lines, &mut window, &mut page));
}

// Judges the lines, by freezing them onto a page of no bytes, and freezes them where none is refused.
fn freeze(
    rt: &HostRuntime,
    lines: &mut Freeze,
    window: &mut [u8],
    page: &mut Page,
) -> Result<(), Failure> {
    let input = Input::standard(rt)?;
    let judged = pass(
        rt,
        &input,
        lines,
        window,
        &mut Page::new(rt.stdout(), &mut []),
    )?;
    let walk = match judged.rejected {
        Some(_) => judged,
        None => pass(rt, &input, lines, window, page)?,
    };
    report(rt, walk, page.written());
    Ok(())
}

// frozen, messages 2, bytes 104
fn report(rt: &HostRuntime, walk: Walk, bytes: u64) {
    let messages = walk.messages;
    let _ = match walk.rejected {
        Some(rejection) => eprintln!(rt; "{rejection}"),
        None => eprintln!(rt; "frozen, messages {messages}, bytes {bytes}"),
    };
}
