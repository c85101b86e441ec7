// Thaws a freeze stream: reads it on standard input, in either form, and writes the form and the messages to standard output,
// for each its peer and the lines that `listing` has. A refused stream gives one line, which says why and for which message. The
// stream is read twice, so it may be of any length; from a pipe it is first copied to /tmp, and the room there bounds it.
#![tactic(auto)]

use passes::{Judge, Show, form_of};
use reports::{Failure, Page};
use reread::Input;
use stream::Form;
use walks::{Walk, pass};

fn main(rt: HostRuntime) {
    let mut window = [0u8; 65536];
    let mut out = [0u8; 65536];
    let mut page = Page::new(rt.stdout(), &mut out);
    reports::end(&rt, thaw(&rt, &mut window, &mut page));
}

// Judges the stream, and shows it where it is one.
fn thaw(rt: &HostRuntime, window: &mut [u8], page: &mut Page) -> Result<(), Failure> {
    let input = Input::standard(rt)?;
    let form = form_of(input.front(window)?);
    let judged = pass(rt, &input, &mut Judge(form), window, page)?;
    if judged.rejected.is_some() {
        return report(judged, page);
    }
    put_form(form, judged.messages, page);
    page.finish()?;
    let shown = pass(rt, &input, &mut Show(form), window, page)?;
    report(shown, page)
}

// form old
fn put_form(form: Form, messages: u64, page: &mut Page) {
    let name = match form {
        _ if messages == 0 => "old and new",
        Form::Old => "old",
        Form::New => "new",
    };
    writeln!(page, "form {name}");
}

// The verdict, as the last line.
fn report(walk: Walk, page: &mut Page) -> Result<(), Failure> {
    let messages = walk.messages;
    match walk.rejected {
        Some(rejection) => writeln!(page, "{rejection}"),
        None => writeln!(page, "thawed, messages {messages}"),
    }
    page.finish()
}
