// Requests on reading step by step: a datagram's header, each option that a cursor passes, and how its walk ends.
#![tactic(auto)]

use cursor::{Cursor, Step};
use header::HeaderRaw;
use output::Page;
use packet::Range;
use refusal::Refusal;
use telling::write_refused;
use words::Line;

// A cursor that was started has at most 128 options before its end.
const MOST: usize = 129;

#[derive(Clone, Copy)]
pub enum Request {
    Steps,
    StepsStrict,
}

// Which of these requests a name is.
pub fn named(name: &[u8]) -> Option<Request> {
    match name {
        b"steps" => Some(Request::Steps),
        b"steps-strict" => Some(Request::StepsStrict),
        _ => None,
    }
}

// Answers a request. The datagram goes to the store.
pub fn answer(request: Request, line: &mut Line, store: &mut [u8], page: &mut Page) -> Option<()> {
    let datagram = line.stored(store)?;
    line.finished()?;
    let strict = matches!(request, Request::StepsStrict);
    match Cursor::start(strict, datagram) {
        Ok(start) => {
            write_head(page, start.raw);
            write_walk(page, start.cursor, datagram);
        }
        Err(why) => write_refused(page, why),
    }
    Some(())
}

// steps VERSION TYPE BYTE ID TOKEN OPTIONS END. What stands before the options: the token is the range after the header.
fn write_head(page: &mut Page, raw: HeaderRaw) {
    let first = raw.ver_type_tkl as u64;
    page.number(b"steps ", first / 64);
    page.number(b" ", first / 16 % 4);
    page.number(b" ", raw.code as u64);
    page.number(b" ", raw.message_id as u64);
    page.number(b" 4+", first % 16);
    page.byte(b' ');
}

// The options that the cursor passes, and the end.
fn write_walk(page: &mut Page, mut cursor: Cursor, datagram: &[u8]) {
    for passed in 0..MOST {
        match cursor.step(datagram) {
            Ok(
                Step::Option {
                    number,
                    value,
                    next,
                },
            ) => {
                page.separator(passed);
                page.number(b"", number as u64);
                write_range(page, b"@", value);
                cursor = next;
            }
            Ok(Step::Payload(range)) => {
                write_none(page, passed);
                return write_range(page, b" payload ", range);
            }
            Err(why) => {
                write_none(page, passed);
                return write_end(page, why);
            }
        }
    }
}

// A dash where no option was passed.
fn write_none(page: &mut Page, passed: usize) {
    if passed == 0 {
        page.byte(b'-');
    }
}

// A walk that ends with a refusal.
fn write_end(page: &mut Page, why: Refusal) {
    page.byte(b' ');
    write_refused(page, why);
}

fn write_range(page: &mut Page, word: &[u8], range: Range) {
    page.number(word, range.start as u64);
    page.number(b"+", range.len as u64);
}
