// Replays a trace: reads it on standard input, in either form, and puts its messages to the duplicate rule of RFC 7252, section 4.5,
// one after the other. Standard output has a line for each, then how many of them are new, duplicates and passed, and last the
// verdict, which says why and for which message the replay ended where it did. A trace that is none gives the verdict alone. It is
// read twice, so it may be of any length; from a pipe it is first copied to /tmp, and the room there bounds it.
#![tactic(auto)]

mod messages;
mod shown;

use messages::{Judge, Replay};
use reports::{Failure, Page};
use reread::Input;
use tracing::form_of;
use walks::{Walk, pass};

fn main(rt: HostRuntime) {
    let mut window = [0u8; 65536];
    let mut out = [0u8; 65536];
    let mut page = Page::new(rt.stdout(), &mut out);
    reports::end(&rt, replay(&rt, &mut window, &mut page));
}

// Judges the trace, and replays it where it is one.
fn replay(rt: &HostRuntime, window: &mut [u8], page: &mut Page) -> Result<(), Failure> {
    let input = Input::standard(rt)?;
    let form = form_of(input.front(window)?);
    let judged = pass(rt, &input, &mut Judge(form), window, page)?;
    if judged.rejected.is_some() {
        return report(judged, page);
    }
    let mut work = Replay::new(form);
    let replayed = pass(rt, &input, &mut work, window, page)?;
    shown::put_tally(page, replayed.messages, work.tally());
    report(replayed, page)
}

// The verdict, as the last line.
fn report(walk: Walk, page: &mut Page) -> Result<(), Failure> {
    match walk.rejected {
        Some(rejection) => writeln!(page, "{rejection}"),
        None => writeln!(page, "replayed"),
    }
    page.finish()
}
