// Requests on the getters of a raw packet, and on its edits.
#![tactic(auto)]

mod edited;

use output::Page;
use words::Line;

#[derive(Clone, Copy)]
pub enum Request {
    GetRaw,
    EditRaw,
}

// Which of these requests a name is.
pub fn named(name: &[u8]) -> Option<Request> {
    match name {
        b"get-raw" => Some(Request::GetRaw),
        b"edit-raw" => Some(Request::EditRaw),
        _ => None,
    }
}

// Answers a request. The packet's bytes go to the store.
pub fn answer(request: Request, line: &mut Line, store: &mut [u8], page: &mut Page) -> Option<()> {
    match request {
        Request::GetRaw => edited::get(line, store, page),
        Request::EditRaw => edited::edit(line, store, page),
    }
}
