// Requests on freeze streams: a message frozen, a stream thawed, and a stream converted to the other form.
#![tactic(auto)]

mod frozen;
mod thawed;

use output::Page;
use rooms::{fill, write_told};
use stream::Form;
use words::Line;

#[derive(Clone, Copy)]
pub enum Request {
    Freeze,
    Thaw,
    Convert,
}

// Which of these requests a name is.
pub fn named(name: &[u8]) -> Option<Request> {
    match name {
        b"freeze" => Some(Request::Freeze),
        b"thaw" => Some(Request::Thaw),
        b"convert" => Some(Request::Convert),
        _ => None,
    }
}

// Answers a request. A packet or a stream goes to the store, and what is written to as much of the room as is named.
pub fn answer(
    request: Request,
    line: &mut Line,
    store: &mut [u8],
    room: &mut [u8],
    page: &mut Page,
) -> Option<()> {
    let form = read_form(line)?;
    match request {
        Request::Freeze => frozen::answer(form, line, store, room, page),
        Request::Thaw => thawed::answer(form, line, store, room, page),
        Request::Convert => convert(form, line, store, room, page),
    }
}

// FORM is `old` or `new`.
fn read_form(line: &mut Line) -> Option<Form> {
    line.after(b' ')?;
    match line.name() {
        b"old" => Some(Form::Old),
        b"new" => Some(Form::New),
        _ => None,
    }
}

// convert FORM ROOM HEX
fn convert(
    form: Form,
    line: &mut Line,
    store: &mut [u8],
    room: &mut [u8],
    page: &mut Page,
) -> Option<()> {
    let room = line.room(room)?;
    let stream = line.stored(store)?;
    line.finished()?;
    fill(room);
    let written = converting::convert(form, stream, room);
    write_told(page, written, room);
    Some(())
}
