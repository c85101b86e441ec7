// The calls of a builder in a row, as a line names their arguments.
use crate::options::{pass_none, read_option};
use building::Builder;
use header::Header;
use refusal::Refusal;
use words::{Line, part};

// Where the token ends in the store and the payload after it, and the line from its list of options on.
#[derive(Clone, Copy)]
pub struct Given<'a> {
    pub token: usize,
    pub options: Line<'a>,
    pub payload: usize,
}

// The call that was refused, from 0 for the start, and how much those before it built.
#[derive(Clone, Copy)]
pub struct Stopped {
    pub why: Refusal,
    pub call: usize,
    pub built: usize,
}

// A builder, and which call comes next.
#[derive(Clone, Copy)]
struct Row {
    builder: Builder,
    call: usize,
}

impl Row {
    // The row that a refusal of its next call ends.
    fn stopped(self, why: Refusal) -> Stopped {
        let builder = self.builder;
        Stopped {
            why,
            call: self.call,
            built: builder.at,
        }
    }
}

// Makes the calls, up to the first that is refused; answers the length of the message.
pub fn build(
    strict: bool,
    header: Header,
    given: Given,
    store: &mut [u8],
    room: &mut [u8],
) -> Result<usize, Stopped> {
    let builder = match Builder::start(strict, header, part(store, 0, given.token), room) {
        Ok(builder) => builder,
        Err(why) => {
            return Err(Stopped {
                why,
                call: 0,
                built: 0,
            });
        }
    };
    let row = add_all(builder, given, store, room)?;
    let payload = part(store, given.token, given.payload);
    match row.builder.payload(payload, room) {
        Ok(length) => Ok(length),
        Err(why) => Err(row.stopped(why)),
    }
}

// Adds each option of the list, up to the first that is refused.
fn add_all(
    builder: Builder,
    given: Given,
    store: &mut [u8],
    room: &mut [u8],
) -> Result<Row, Stopped> {
    let mut row = Row { builder, call: 1 };
    let mut line = given.options;
    if pass_none(&mut line).is_some() {
        return Ok(row);
    }
    for call in 1..line.len() {
        let Some(taken) = read_option(&mut line, call - 1, store, given.payload) else {
            return Ok(row);
        };
        let value = part(store, given.payload, taken.end);
        match row.builder.option(taken.number, value, room) {
            Ok(builder) => {
                row = Row {
                    builder,
                    call: call + 1,
                };
            }
            Err(why) => return Err(row.stopped(why)),
        }
        if !line.is_at(b',') {
            return Ok(row);
        }
    }
    Ok(row)
}
