// A message as a datagram and as its frame over TCP (RFC 8323, section 3.2), each made of the other. Both hold token, options and
// payload as the same bytes, which are copied once; what stands before them is made anew.
#![tactic(auto)]

ghost use Rattle.std.specs.Prelude.{◌≡◌, ◌++◌, eqb, ltb, length, ◌+◌, ◌≤◌, ◌<◌};
ghost use Rattle.ground.specs.Choice.{both};
ghost use Rattle.rfc.specs.Frame.{frame_head};
ghost use Rattle.refusal.specs.Answer.{given, outcome};
ghost use Rattle.packet.specs.Limits.{max_options, max_store};
ghost use Rattle.framing.specs.Head.{Begins, extra, length_in, head_in, head_read, Within};
ghost use Rattle.framing.specs.Judging.{judged, options_judged};
ghost use Rattle.framing.specs.Framing.{Converts, Whole, frame_of, strictly, datagram_of, ToFrame, FromFrame};

use header::MessageType;
use option_reading::{Found, byte_at, place_at};
use packet::limits::{MAX_OPTIONS, MAX_STORE, MAX_VALUE};
use placing::put_bytes;
use reading::marker_alone;
use refusal::Refusal;

// Writes the frame of the message that a datagram holds.
pub fn to_frame(datagram: &[u8], out: &mut [u8]) -> Result<usize, Refusal>
    ensures { ToFrame datagram.now out.old result out.new }
{
    cursor::judge(true, datagram)?;
    put_frame(datagram, out)
}

// Writes the frame of a datagram that was accepted.
fn put_frame(datagram: &[u8], out: &mut [u8]) -> Result<usize, Refusal>
    requires { Whole datagram.now }
    ensures { Converts (given (frame_of datagram.now)) out.old result out.new }
{
    let token_length = byte_at(datagram, 0) % 16;
    let head = head_of(datagram.len() - 4 - token_length, token_length, datagram[1]);
    let bytes = head.bytes;
    let len = head.len;
    put_both(out, &bytes[0..len], &datagram[4..])
}

// The bytes of a frame before its token: the first `len` of these.
#[derive(Clone, Copy)]
struct HeadBytes {
    bytes: [u8; 6],
    len: usize,
}

// What stands before the token in a frame of this length.
fn head_of(length: usize, token_length: usize, code: u8) -> HeadBytes
    requires { (length ≤ max_store) × (token_length < 16) }
    ensures { Begins (frame_head length token_length code) result }
{
    if length < 13 {
        return HeadBytes {
            bytes: [(length * 16 + token_length) as u8, code, 0, 0, 0, 0],
            len: 2,
        };
    }
    if length < 269 {
        return HeadBytes {
            bytes: [
                (13 * 16 + token_length) as u8,
                (length - 13) as u8,
                code,
                0,
                0,
                0,
            ],
            len: 3,
        };
    }
    if length < 65805 {
        let more = length - 269;
        return HeadBytes {
            bytes: [
                (14 * 16 + token_length) as u8,
                (more / 256) as u8,
                (more % 256) as u8,
                code,
                0,
                0,
            ],
            len: 4,
        };
    }
    let more = length - 65805;
    HeadBytes {
        bytes: [
            (15 * 16 + token_length) as u8,
            (more / 16777216) as u8,
            (more / 65536 % 256) as u8,
            (more / 256 % 256) as u8,
            (more % 256) as u8,
            code,
        ],
        len: 6,
    }
}

// Writes the datagram of the message that a frame holds, with a type and an id.
pub fn from_frame(
    frame: &[u8],
    kind: MessageType,
    id: u16,
    out: &mut [u8],
) -> Result<usize, Refusal>
    ensures { FromFrame kind id frame.now out.old result out.new }
{
    let head = head_in(frame)?;
    put_datagram(head, frame, kind, id, out)
}

// What stands before the token in a frame: the token's length and the code, and where the token starts.
#[derive(Clone, Copy)]
struct Head {
    token_length: u8,
    code: u8,
    token_at: usize,
}

// The head of a frame that has just the bytes which its two nibbles call for.
fn head_in(frame: &[u8]) -> Result<Head, Refusal>
    ensures { head_read result ≡ head_in frame.now }
{
    if frame.len() < 2 {
        return Err(Refusal::BadFrame);
    }
    let first = byte_at(frame, 0);
    let extra = extra_bytes(first / 16);
    if frame.len() < 2 + extra {
        return Err(Refusal::BadFrame);
    }
    let length = length_in(frame, first / 16);
    if frame.len() != 2 + extra + first % 16 + length {
        return Err(Refusal::BadFrame);
    }
    Ok(Head {
        token_length: (first % 16) as u8,
        code: frame[1 + extra],
        token_at: 2 + extra,
    })
}

// How many extension bytes a nibble calls for.
fn extra_bytes(nibble: usize) -> usize
    ensures { result ≡ extra nibble }
{
    if nibble < 13 {
        return 0;
    }
    if nibble == 13 {
        return 1;
    }
    if nibble == 14 {
        return 2;
    }
    4
}

// The length that a nibble and its extension bytes stand for.
fn length_in(frame: &[u8], nibble: usize) -> usize
    requires { (nibble < 16) × (2 + extra nibble ≤ length frame.now) }
    ensures { result ≡ length_in frame.now nibble }
{
    if nibble < 13 {
        return nibble;
    }
    if nibble == 13 {
        return 13 + byte_at(frame, 1);
    }
    let two = byte_at(frame, 1) * 256 + byte_at(frame, 2);
    if nibble == 14 {
        return 269 + two;
    }
    65805 + ((two * 256 + byte_at(frame, 3)) * 256 + byte_at(frame, 4))
}

// Judges the message of a frame whose head was read, and writes it after its header.
fn put_datagram(
    head: Head,
    frame: &[u8],
    kind: MessageType,
    id: u16,
    out: &mut [u8],
) -> Result<usize, Refusal>
    requires { Within frame.now head }
    ensures { Converts (strictly (datagram_of kind id frame.now head)) out.old result out.new }
{
    let at = head.token_at;
    let options = at + head.token_length as usize;
    if MAX_STORE - 4 < frame.len() - at {
        return Err(Refusal::TooLong);
    }
    judge(head.code, head.token_length, &frame[options..])?;
    let header = [
        64 + kind.to_number() * 16 + head.token_length,
        head.code,
        (id / 256) as u8,
        (id % 256) as u8,
    ];
    put_both(out, &header, &frame[at..])
}

// What strict reading refuses in a message by its code, its token's length and what follows the token. It is judged where it
// stands, so that a refused message is copied nowhere.
fn judge(code: u8, token_length: u8, rest: &[u8]) -> Result<(), Refusal>
    requires { length rest.now ≤ max_store }
    ensures { outcome result ≡ judged code token_length rest.now }
{
    if 8 < token_length {
        return Err(Refusal::InvalidTokenLength);
    }
    if empty_carries(code, token_length, rest.len()) {
        return Err(Refusal::EmptyCarries);
    }
    judge_options(rest)
}

// An empty message is nothing but its code.
fn empty_carries(code: u8, token_length: u8, len: usize) -> bool
    ensures { result ≡ both (eqb code 0) (ltb 0 (token_length + len)) }
{
    if code != 0 {
        return false;
    }
    0 < token_length || 0 < len
}

// Judges options and payload, with no record of what is found.
fn judge_options(rest: &[u8]) -> Result<(), Refusal>
    requires { length rest.now ≤ max_store }
    ensures { outcome result ≡ options_judged rest.now max_options 0 0 }
{
    let mut count = 0;
    let mut number: u16 = 0;
    let mut idx = 0;
    loop {
        match place_at(MAX_VALUE as usize, rest, number, idx)? {
            Found::End { marked, payload } => {
                if marker_alone(true, marked, payload, rest.len()) {
                    return Err(Refusal::MarkerAlone);
                }
                return Ok(());
            }
            Found::Option(r) => {
                if MAX_OPTIONS <= count {
                    return Err(Refusal::TooManyOptions);
                }
                count = count + 1;
                number = r.number;
                idx = r.start as usize + r.len as usize;
            }
        }
    }
}

// Writes two pieces, one after the other, where there is room for both.
fn put_both(out: &mut [u8], front: &[u8], rest: &[u8]) -> Result<usize, Refusal>
    requires { (length front.now ≤ 6) × (length rest.now ≤ max_store) }
    ensures { Converts (given (front.now ++ rest.now)) out.old result out.new }
{
    if out.len() < front.len() + rest.len() {
        return Err(Refusal::NoRoom);
    }
    let next = put_bytes(out, 0, front);
    Ok(put_bytes(out, next, rest))
}
