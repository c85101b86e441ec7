// Messages out of a freeze stream: one after the other, or all of them with a list. A datagram's chunks lie apart in the stream, so
// it is copied to a lent output.
#![tactic(auto)]

ghost use Rattle.std.specs.Prelude.{◌≡◌, ◌<◌, ◌≤◌, length};
ghost use Rattle.std.proofs.lemmas.List.Edits.{sets};
ghost use Rattle.packet.specs.Limits.{full_size};
ghost use Rattle.placing.specs.Put.{Puts};
ghost use Rattle.refusal.specs.Answer.{refused, onward};
ghost use Rattle.refusal.specs.Number.{number_of};
ghost use Rattle.stream.specs.Stream.{full, datagrams_of};
ghost use Rattle.stream.specs.Messages.{body_at, messages_from, thawed};
ghost use Rattle.stream.specs.Answers.{step_read};
ghost use Rattle.thawing.specs.Message.{NextMessage, body_bytes, strict_before, strict_at};
ghost use Rattle.thawing.specs.Thawing.{strict, Strictly, Listing, entries, messages_in, Thaws};

use chunk_judging::judge_chunks;
use cursor::judge;
use placing::put_bytes;
use refusal::Refusal;
use stream::{Form, Step, chunk_count, chunk_length, head_of, judge_from, message_at, padding_of};

// Reads a whole stream. For each message the list gets where its peer starts in the stream, where its datagram starts in the output
// and how long it is; the datagrams stand in the output end to end. The answer is how many messages there are.
pub fn thaw(form: Form, stream: &[u8], list: &mut [usize], out: &mut [u8]) -> Result<usize, Refusal>
    ensures { Thaws form stream.now list.old out.old result list.new out.new }
{
    let strict = judge_strictly(form, form, stream)?;
    if list.len() / 3 < strict.count {
        return Err(Refusal::NoRoom);
    }
    if out.len() < strict.bytes {
        return Err(Refusal::NoRoom);
    }
    list_messages(form, stream, list, out);
    Ok(strict.count)
}

// What a stream of strict datagrams holds: how many messages, how many bytes their datagrams have together, and how many chunks
// these take in a form.
#[derive(Clone, Copy)]
pub struct Strict {
    pub count: usize,
    pub bytes: usize,
    pub chunks: usize,
}

// Judges a whole stream and each of its datagrams, and counts chunks as another form has them. The first bad datagram decides only
// where the rest of the stream is one.
pub fn judge_strictly(form: Form, other: Form, stream: &[u8]) -> Result<Strict, Refusal>
    ensures { Strictly form other stream.now result }
{
    let mut count = 0;
    let mut bytes = 0;
    let mut chunks = 0;
    let mut at = 0;
    while at < stream.len() {
        match strict_at(form, stream, at) {
            Err(e) => return Err(refused_from(form, stream, at, e)),
            Ok(message) => {
                count += 1;
                bytes += message.len;
                chunks += chunk_count(other, message.len);
                at = message.next;
            }
        }
    }
    Ok(Strict {
        count,
        bytes,
        chunks,
    })
}

// Why a stream is refused whose message at a position is, be it for the message or for its datagram.
fn refused_from(form: Form, stream: &[u8], at: usize, why: Refusal) -> Refusal
    requires { (at < length stream.now) × (strict_at form stream.now at ≡ refused (number_of why)) }
    ensures { onward (messages_from form stream.now at) strict ≡ refused (number_of result) }
{
    match judge_from(form, stream, at) {
        Err(e) => e,
        Ok(_) => why,
    }
}

// The message at a position, where its datagram is strict.
pub fn strict_at(form: Form, stream: &[u8], at: usize) -> Result<Step, Refusal>
    ensures { step_read result ≡ strict_at form stream.now at }
{
    let message = message_at(form, stream, at)?;
    if chunk_length(form, message.len) < message.len {
        return strict_apart(form, stream, at + 19, message);
    }
    let start = at + 19 + head_of(form);
    let end = start + message.len;
    strict_before(&stream[start..end], message.next)
}

// A datagram in one piece, judged where it stands.
fn strict_before(datagram: &[u8], next: usize) -> Result<Step, Refusal>
    ensures { step_read result ≡ strict_before datagram.now next }
{
    judge(true, datagram)?;
    Ok(Step {
        len: datagram.len(),
        next,
    })
}

// A datagram of several chunks, which lie apart, judged where they lie.
fn strict_apart(form: Form, stream: &[u8], from: usize, message: Step) -> Result<Step, Refusal>
    requires { (message.len ≡ length (body_bytes (body_at form stream.now (length stream.now) (full form) from))) × (message.len ≤ full_size) }
    ensures { step_read result ≡ strict_before (body_bytes (body_at form stream.now (length stream.now) (full form) from)) message.next }
{
    judge_chunks(form, stream, from, message.len)?;
    Ok(message)
}

// Lists the messages of a stream that was judged, and copies their datagrams.
fn list_messages(form: Form, stream: &[u8], list: &mut [usize], out: &mut [u8]) -> usize
    requires { Listing form stream.now (length list.old) (length out.old) }
    ensures list_after { list.new ≡ sets list.old 0 (entries form 0 0 (messages_in (thawed form stream.now))) }
    ensures out_after { out.new ≡ sets out.old 0 (datagrams_of (messages_in (thawed form stream.now))) }
{
    let mut at = 0;
    let mut place = 0;
    let mut to = 0;
    while at < stream.len() {
        let Ok(message) = next_message(form, stream, at, out, to) else {
            return place;
        };
        list[place] = at + 1;
        list[place + 1] = to;
        list[place + 2] = message.len;
        place += 3;
        to += message.len;
        at = message.next;
    }
    place
}

// The message at a position: its datagram is copied to a place of the output.
pub fn next_message(
    form: Form,
    stream: &[u8],
    at: usize,
    out: &mut [u8],
    to: usize,
) -> Result<Step, Refusal>
    ensures { NextMessage form stream.now at out.old to result out.new }
{
    let message = message_at(form, stream, at)?;
    if out.len() < to {
        return Err(Refusal::NoRoom);
    }
    if out.len() - to < message.len {
        return Err(Refusal::NoRoom);
    }
    copy_chunks(form, stream, at + 19, message.len, out, to);
    Ok(message)
}

// Copies the bytes of the chunks at a position.
fn copy_chunks(
    form: Form,
    stream: &[u8],
    from: usize,
    len: usize,
    out: &mut [u8],
    to: usize,
) -> usize
    requires { len ≡ length (body_bytes (body_at form stream.now (length stream.now) (full form) from)) }
    ensures { Puts out.old to (body_bytes (body_at form stream.now (length stream.now) (full form) from)) result out.new }
{
    let head = head_of(form);
    let mut at = from;
    let mut done = 0;
    let mut next = to;
    while done < len {
        let n = chunk_length(form, len - done);
        let start = at + head;
        let e = start + n;
        let c = &stream[start..e];
        next = put_bytes(out, next, c);
        at = e + padding_of(form, n);
        done = done + n;
    }
    next
}
