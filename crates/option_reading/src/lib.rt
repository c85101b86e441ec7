// Reading one option of a datagram: nibbles, extensions, the value, the order of refusals (the loop of packet.rs's from_bytes).
// The datagram's bytes may lie in one piece or in several: what reads them asks a source of bytes.
#![tactic(auto)]

ghost use Rattle.std.specs.Prelude.{◌≡◌, ℕ, List, ◌≤◌, ◌<◌, length, IfOk};
ghost use Rattle.refusal.specs.Number.{number_of};
ghost use Rattle.option_reading.specs.Answers.{ByteAt, extended_of, found_of};
ghost use Rattle.option_reading.specs.Option.{extended, value_at, length_at, option_at, placed};

use packet::limits::{MAX_NUMBER, MAX_STORE};
use packet::{Home, OptionRecord};
use refusal::Refusal;

// Bytes that are read by their positions, wherever they lie. It is a type parameter of those who read, so that bytes in one
// piece are fetched by a load alone.
pub trait ByteSource: Copy {
    // All of them.
    ghost bytes: { Self → List ℕ };

    // How many there are.
    fn count(self) -> usize
        ensures { result ≡ length (bytes self) };

    // The one at a position; 0 past the last.
    fn byte_at(self, idx: usize) -> usize
        ensures { ByteAt (bytes self) idx result };
}

impl<'a> ByteSource for &'a [u8] {
    ghost bytes = { λ s. s.now };

    fn count(self) -> usize {
        self.len()
    }

    fn byte_at(self, idx: usize) -> usize {
        byte_at(self, idx)
    }
}

// What stands at a position where an option may.
#[derive(Clone, Copy)]
pub enum Found {
    // The end of the options, by FF or with the datagram, and where the payload starts.
    End { marked: bool, payload: usize },
    Option(OptionRecord),
}

// What stands at a position after an option of the number `before`, whose value has at most `most` bytes. Reading calls this
// for each option; no position and no datagram is asked for beforehand.
pub fn place_at<B: ByteSource>(
    most: usize,
    buf: B,
    before: u16,
    idx: usize,
) -> Result<Found, Refusal>
    ensures { found_of result ≡ placed most (B.bytes buf) before idx }
{
    let count = buf.count();
    if MAX_STORE < count {
        return Err(Refusal::TooLong);
    }
    if count <= idx {
        return Ok(Found::End {
            marked: false,
            payload: count,
        });
    }
    if buf.byte_at(idx) == 255 {
        let payload = idx + 1;
        return Ok(Found::End {
            marked: true,
            payload,
        });
    }
    option_at(most, buf, before, idx)
}

// The option at a position.
fn option_at<B: ByteSource>(most: usize, buf: B, before: u16, idx: usize) -> Result<Found, Refusal>
    requires { (idx < length (B.bytes buf)) × (length (B.bytes buf) ≤ 70000) }
    ensures { found_of result ≡ option_at most (B.bytes buf) before idx }
{
    let byte = buf.byte_at(idx);
    let delta = extended(
        buf,
        idx + 1,
        byte / 16,
        MAX_NUMBER,
        Refusal::InvalidOptionDelta,
    )?;
    length_at(
        most,
        buf,
        before as usize + delta.value,
        delta.next,
        byte % 16,
    )
}

// The length at a position, and the value after it.
fn length_at<B: ByteSource>(
    most: usize,
    buf: B,
    number: usize,
    idx: usize,
    nibble: usize,
) -> Result<Found, Refusal>
    requires { (idx ≤ length (B.bytes buf)) × (length (B.bytes buf) ≤ 70000) }
    ensures { found_of result ≡ length_at most (B.bytes buf) number idx nibble }
{
    let len = extended(buf, idx, nibble, most, Refusal::InvalidOptionLength)?;
    value_at(buf, number, len.next, len.value)
}

// The value at a position.
fn value_at<B: ByteSource>(
    buf: B,
    number: usize,
    start: usize,
    len: usize,
) -> Result<Found, Refusal>
    requires { (start ≤ length (B.bytes buf)) × (length (B.bytes buf) ≤ 70000) }
    ensures { found_of result ≡ value_at (B.bytes buf) number start len }
{
    if MAX_NUMBER < number {
        return Err(Refusal::InvalidOptionDelta);
    }
    if buf.count() - start < len {
        return Err(Refusal::InvalidOptionLength);
    }
    Ok(Found::Option(OptionRecord {
        number: number as u16,
        home: Home::Datagram,
        spare: 0,
        start: start as u32,
        len: len as u32,
    }))
}

// A delta or a length, and the position after its extension.
#[derive(Clone, Copy)]
pub struct Extension {
    pub value: usize,
    pub next: usize,
}

// The number of a nibble with its extension at a position, at most `most`.
fn extended<B: ByteSource>(
    buf: B,
    idx: usize,
    nibble: usize,
    most: usize,
    over: Refusal,
) -> Result<Extension, Refusal>
    requires { idx ≤ length (B.bytes buf) }
    ensures value { extended_of result ≡ extended (number_of over) most (B.bytes buf) idx nibble }
    ensures inside { IfOk result (λ x. (x.value ≤ 65804) × (x.next ≤ length (B.bytes buf))) }
{
    if nibble < 13 {
        return Ok(Extension {
            value: nibble,
            next: idx,
        });
    }
    if nibble == 13 {
        if buf.count() - idx < 1 {
            return Err(Refusal::InvalidOptionLength);
        }
        return Ok(Extension {
            value: 13 + buf.byte_at(idx),
            next: idx + 1,
        });
    }
    if nibble == 14 {
        if buf.count() - idx < 2 {
            return Err(Refusal::InvalidOptionLength);
        }
        let value = 269 + (buf.byte_at(idx) * 256 + buf.byte_at(idx + 1));
        if most < value {
            return Err(over);
        }
        return Ok(Extension {
            value,
            next: idx + 2,
        });
    }
    Err(over)
}

// A byte at a position; 0 past the last.
pub fn byte_at(buf: &[u8], idx: usize) -> usize
    ensures { ByteAt buf.now idx result }
{
    if buf.len() <= idx {
        return 0;
    }
    buf[idx] as usize
}
