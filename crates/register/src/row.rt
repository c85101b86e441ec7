// The rows of the register, and which records they recognise.
ghost use Rattle.std.specs.Prelude.{◌≡◌};
ghost use Rattle.rfc.specs.Recognised.{recognised};
ghost use Rattle.register.specs.Register.{register, row_in, definition_of, is_recognised};

use packet::OptionRecord;
use tables::option_number::*;

// A listed option: its number, its shortest and its longest value, and whether a packet may have several.
#[derive(Clone, Copy)]
pub struct Row {
    pub number: u16,
    pub shortest: u32,
    pub longest: u32,
    pub repeatable: bool,
}

// A row in one line, in the order of its fields.
macro_rules! row {
    ($number:expr, $shortest:expr, $longest:expr, $repeatable:expr) => {
        Row {
            number: $number,
            shortest: $shortest,
            longest: $longest,
            repeatable: $repeatable,
        }
    };
}

const REGISTER: [Row; 18] = [
    row!(IF_MATCH, 0, 8, true),
    row!(URI_HOST, 1, 255, false),
    row!(E_TAG, 1, 8, true),
    row!(IF_NONE_MATCH, 0, 0, false),
    row!(OBSERVE, 0, 3, false),
    row!(URI_PORT, 0, 2, false),
    row!(LOCATION_PATH, 0, 255, true),
    row!(URI_PATH, 0, 255, true),
    row!(CONTENT_FORMAT, 0, 2, false),
    row!(MAX_AGE, 0, 4, false),
    row!(URI_QUERY, 0, 255, true),
    row!(ACCEPT, 0, 2, false),
    row!(LOCATION_QUERY, 0, 255, true),
    row!(BLOCK2, 0, 3, false),
    row!(BLOCK1, 0, 3, false),
    row!(PROXY_URI, 1, 1034, false),
    row!(PROXY_SCHEME, 1, 255, false),
    row!(SIZE1, 0, 4, false),
];

// The row of a number, if it is listed.
fn row_of(number: u16) -> Option<Row>
    ensures { result ≡ row_in number register }
{
    for row in &REGISTER {
        if row.number == number {
            return Some(*row);
        }
    }
    None
}

impl Row {
    // Whether a value of the length is recognised, where `before` says that a kept record before it has the number.
    fn recognises(self, len: u32, before: bool) -> bool
        ensures { result ≡ recognised (definition_of self) len before }
    {
        if len < self.shortest {
            return false;
        }
        if self.longest < len {
            return false;
        }
        !before || self.repeatable
    }
}

// Whether a record is recognised, where `before` says that a kept record before it has its number.
pub(crate) fn is_recognised(option: OptionRecord, before: bool) -> bool
    ensures { result ≡ is_recognised before option }
{
    match row_of(option.number) {
        Some(row) => row.recognises(option.len, before),
        None => false,
    }
}
