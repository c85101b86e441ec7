// Converts a freeze stream: reads it on standard input, in either form, and writes it in the other form to standard output; the
// verdict goes to standard error, and nothing is written of a stream that is refused. The stream is read twice, so it may be of
// any length; from a pipe it is first copied to /tmp, and the room there bounds it.
#![tactic(auto)]

use passes::{Convert, Judge, form_of};
use reports::{Failure, Page};
use reread::Input;
use stream::Form;
use walks::{Walk, pass};

fn main(rt: HostRuntime) {
    let mut window = [0u8; 65536];
    let mut out = [0u8; 65536];
    let mut page = Page::new(rt.stdout(), &mut out);
    reports::end(&rt, convert(&rt, &mut window, &mut page));
}

// Judges the stream in its form, and converts it from that where it is one.
fn convert(rt: &HostRuntime, window: &mut [u8], page: &mut Page) -> Result<(), Failure> {
    let input = Input::standard(rt)?;
    let form = form_of(input.front(window)?);
    let judged = pass(rt, &input, &mut Judge(form), window, page)?;
    let walk = match judged.rejected {
        Some(_) => judged,
        None => pass(rt, &input, &mut Convert(form), window, page)?,
    };
    report(rt, form, walk, page.written());
    Ok(())
}

// converted, old to new, messages 2, bytes 51
fn report(rt: &HostRuntime, form: Form, walk: Walk, bytes: u64) {
    let messages = walk.messages;
    let forms = match form {
        Form::Old => "old to new",
        Form::New => "new to old",
    };
    let _ = match walk.rejected {
        Some(rejection) => eprintln!(rt; "{rejection}"),
        None => eprintln!(rt; "converted, {forms}, messages {messages}, bytes {bytes}"),
    };
}
