// The numbered refusals of every operation.
#![tactic(auto)]

ghost use Rattle.std.specs.Prelude.{◌≡◌};
ghost use Rattle.refusal.specs.Number.{number_of};
ghost use Rattle.refusal.specs.declared.Fault.TheVariants.{Refused};

use std::error::Error;
use std::fmt;

// Why an operation answers no value, and above each when it is given, exactly. What else a refusal carries, as the index of a
// bad record, stands in the error that holds it, as in `Fault`.
#[derive(Clone, Copy, Debug, PartialEq, Eq)]
pub enum Refusal {
    // There are fewer than 4 bytes to read.
    InvalidHeader,
    // Reading: the length nibble is over 8, or the token runs past the end. Strict writing: the token is over 8 bytes.
    InvalidTokenLength,
    // The delta nibble is 15 and the byte isn't FF, the extended delta is over 65535, or the sum of the deltas is.
    InvalidOptionDelta,
    // An extension is cut off, the length nibble is 15, or the value runs past the end. Plain only: a two-byte length
    // extension of 65267 or more. A cursor: its position is past the end.
    InvalidOptionLength,
    // The counted size is over the limit.
    InvalidPacketLength,
    // A 129th record would be stored, or an option is passed that a cursor has no room for.
    TooManyOptions,
    // Strict: the version isn't 1.
    WrongVersion,
    // Strict: code byte 0 with a token, an option, a marker or a payload.
    EmptyCarries,
    // Strict: FF in option position is the last byte.
    MarkerAlone,
    // The datagram, that which a frame would come back as, the edit store, or the payload of a message that is built is over
    // 70,000 bytes, where it is lent (getters take any). The program `listing`: over 65,535.
    TooLong,
    // What reads a whole packet: a version over 3, over 128 records, numbers that fall, a range outside the store that it
    // names, a token over 15 bytes or a value over 65804. An edit: over 128 records, numbers that fall, a token over 15 bytes
    // that is set, or a home that is neither 0 nor 1. A flat form: numbers that are no packet's. A message that is built: a
    // version over 3, a token over 15 bytes, a number that falls, a value over 65804 or a 129th option.
    BadRecord,
    // The output, or the edit store after the named start, is shorter than the bytes to write, or the start is past its end.
    // The lent list is shorter than our plan, or than three numbers for each message of a stream. Compaction: the live bytes
    // are more than the edit store or the second buffer holds. A message heard: the table is under 1,600 bytes, or holds 64
    // unexpired entries when it is new. A replay: the listing has no place for the next message.
    NoRoom,
    // The value has more bytes than the width; of a strict block more than 3.
    BadUint,
    // A block size that is none, or an exponent that has no size.
    BadBlockSize,
    // Text that isn't UTF-8; code text, digits or a peer that are none; in a path or query a percent code that is none, or a
    // character that isn't allowed where it stands.
    BadText,
    // A critical record isn't recognised: the register doesn't list its number, its length is outside its row, or it is
    // surplus, a kept record before it having its number and the row not being repeatable. In a path or query: a value over
    // 255 bytes, or a segment `.` or `..`. The index of the record, from 0, stands beside it.
    BadOption,
    // A block number over 65535 plain, over 1,048,575 strict.
    BlockNumber,
    // A record, an order of records or a message's length, anywhere in a freeze stream, that its form doesn't have. In a trace
    // also a time that is missing or out of place. A datagram that is judged in its chunks ends past the stream.
    BadFreeze,
    // A frame has fewer bytes than its two nibbles call for, or more.
    BadFrame,
    // A message's time is less than that of the message before it, whatever the types of the two.
    ClockBack,
    // A plan that isn't accepted. For the check and for the planner: an image of 0 bytes or of more than 1,048,576, or a held
    // list that hasn't one byte for each unit of 16 bytes.
    BadPlan,
}

impl Refusal {
    // The refusal's number, as logs and other languages know it.
    pub fn number(self) -> u8
        ensures { result ≡ number_of self }
    {
        match self {
            Refusal::InvalidHeader => 1,
            Refusal::InvalidTokenLength => 2,
            Refusal::InvalidOptionDelta => 3,
            Refusal::InvalidOptionLength => 4,
            Refusal::InvalidPacketLength => 5,
            Refusal::TooManyOptions => 6,
            Refusal::WrongVersion => 7,
            Refusal::EmptyCarries => 8,
            Refusal::MarkerAlone => 9,
            Refusal::TooLong => 10,
            Refusal::BadRecord => 11,
            Refusal::NoRoom => 12,
            Refusal::BadUint => 13,
            Refusal::BadBlockSize => 14,
            Refusal::BadText => 15,
            Refusal::BadOption => 16,
            Refusal::BlockNumber => 17,
            Refusal::BadFreeze => 19,
            Refusal::BadFrame => 20,
            Refusal::ClockBack => 21,
            Refusal::BadPlan => 22,
        }
    }
}

// Its name, as `BadText`.
impl fmt::Display for Refusal {
    fn fmt<W: fmt::Write>(&self, f: &mut fmt::Formatter<W>) -> fmt::Result {
        write!(f, "{self:?}")
    }
}

impl Error for Refusal {}

// Why options are refused: by a refusal of the whole, or by one of them that is bad, of which the index is told, from 0.
#[derive(Clone, Copy, Debug, PartialEq, Eq)]
pub enum Fault {
    Refused(Refusal),
    BadOption(usize),
}

impl From<Refusal> for Fault {
    ghost from_gives = { λ r e. e ≡ Refused r };

    fn from(refusal: Refusal) -> Fault {
        Fault::Refused(refusal)
    }
}
