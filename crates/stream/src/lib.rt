// Freeze streams in two forms, judged message by message. A message is read where it stands, with no list of what was found.
#![tactic(auto)]

ghost use Rattle.std.specs.Prelude.{◌≡◌, ◌+◌, ◌≤◌, min, length};
ghost use Rattle.ground.specs.Part.{part};
ghost use Rattle.option_reading.specs.Answers.{ByteAt};
ghost use Rattle.stream.specs.Stream.{full, head_size, padding, chunk_count};
ghost use Rattle.stream.specs.Messages.{count_at, zeros, chunk_at, body_at, message_at, messages_from, thawed};
ghost use Rattle.stream.specs.Answers.{chunk_read, step_read, judged, body_extent, sized_extent, extent, tally};

use packet::limits::FULL_SIZE;
use refusal::Refusal;

// The two forms of a stream: chunks of 30 bytes, all records of one size; or chunks of up to 64.
#[derive(Clone, Copy)]
pub enum Form {
    Old,
    New,
}

// What a stream holds: how many messages, and how many bytes their datagrams have together.
#[derive(Clone, Copy)]
pub struct Tally {
    pub count: usize,
    pub bytes: usize,
}

// Judges a whole stream: its messages are counted, or it is no stream of the form.
pub fn judge(form: Form, stream: &[u8]) -> Result<Tally, Refusal>
    ensures { judged result ≡ tally (thawed form stream.now) }
{
    judge_from(form, stream, 0)
}

// The same, of what stands from a position on.
pub fn judge_from(form: Form, stream: &[u8], from: usize) -> Result<Tally, Refusal>
    ensures { judged result ≡ tally (messages_from form stream.now from) }
{
    let mut count = 0;
    let mut bytes = 0;
    let mut at = from;
    while at < stream.len() {
        let message = message_at(form, stream, at)?;
        count += 1;
        bytes += message.len;
        at = message.next;
    }
    Ok(Tally { count, bytes })
}

// A message: how many bytes its datagram has, and the position after it. Its peer stands one byte after its own position.
#[derive(Clone, Copy)]
pub struct Step {
    pub len: usize,
    pub next: usize,
}

// The message at a position.
pub fn message_at(form: Form, stream: &[u8], at: usize) -> Result<Step, Refusal>
    ensures { step_read result ≡ extent (message_at form stream.now at) }
{
    if byte_at(stream, at) != 1 {
        return Err(Refusal::BadFreeze);
    }
    if stream.len() - at < 19 {
        return Err(Refusal::BadFreeze);
    }
    let body = body_at(form, stream, at + 19)?;
    sized(body.len, body.next)
}

// A datagram of 4..1,280 bytes.
fn sized(len: usize, next: usize) -> Result<Step, Refusal>
    ensures { step_read result ≡ sized_extent (record { len = len; next = next }) }
{
    if len < 4 {
        return Err(Refusal::BadFreeze);
    }
    if FULL_SIZE < len {
        return Err(Refusal::BadFreeze);
    }
    Ok(Step { len, next })
}

// The chunks at a position, up to the end of the message.
fn body_at(form: Form, stream: &[u8], from: usize) -> Result<Step, Refusal>
    requires { from ≤ length stream.now }
    ensures { step_read result ≡ body_extent (body_at form stream.now (length stream.now) (full form) from) }
{
    let whole = full_of(form);
    let mut before = whole;
    let mut len = 0;
    let mut at = from;
    loop {
        if byte_at(stream, at) == 3 {
            return Ok(Step { len, next: at + 1 });
        }
        if before < whole {
            return Err(Refusal::BadFreeze);
        }
        let Some(n) = chunk_at(form, stream, at) else {
            return Err(Refusal::BadFreeze);
        };
        before = n;
        len += n;
        at = at + head_of(form) + n + padding_of(form, n);
    }
}

// The chunk at a position: how many bytes it carries; none where no chunk of the form stands.
fn chunk_at(form: Form, stream: &[u8], at: usize) -> Option<usize>
    requires { at ≤ length stream.now }
    ensures { chunk_read result ≡ chunk_at form stream.now at }
{
    let n = count_at(form, stream, at);
    if n < 1 {
        return None;
    }
    if full_of(form) < n {
        return None;
    }
    let head = head_of(form);
    let unused = padding_of(form, n);
    if stream.len() - at < head + n + unused {
        return None;
    }
    if all_zero(stream, at + head + n, unused) {
        return Some(n);
    }
    None
}

// Whether each of the bytes from a position is zero.
fn all_zero(stream: &[u8], from: usize, n: usize) -> bool
    requires { from + n ≤ length stream.now }
    ensures { result ≡ zeros (part stream.now from n) }
{
    for i in 0..n {
        if stream[from + i] != 0 {
            return false;
        }
    }
    true
}

// How many bytes the chunk at a position carries, by its head.
fn count_at(form: Form, stream: &[u8], at: usize) -> usize
    ensures { result ≡ count_at form stream.now at }
{
    match form {
        Form::Old => old_count(stream, at),
        Form::New => new_count(stream, at),
    }
}

fn old_count(stream: &[u8], at: usize) -> usize
    ensures { result ≡ count_at Form.Old stream.now at }
{
    if byte_at(stream, at) == 2 {
        return byte_at(stream, at + 1);
    }
    0
}

fn new_count(stream: &[u8], at: usize) -> usize
    ensures { result ≡ count_at Form.New stream.now at }
{
    let kind = byte_at(stream, at);
    if kind == 4 {
        return 64;
    }
    if 192 <= kind {
        return 0;
    }
    if kind < 128 {
        return 0;
    }
    kind - 128
}

// A full chunk's bytes.
fn full_of(form: Form) -> usize
    ensures { result ≡ full form }
{
    match form {
        Form::Old => 30,
        Form::New => 64,
    }
}

// The bytes before a chunk's own.
pub fn head_of(form: Form) -> usize
    ensures { result ≡ head_size form }
{
    match form {
        Form::Old => 2,
        Form::New => 1,
    }
}

// The zero bytes after them.
pub fn padding_of(form: Form, n: usize) -> usize
    ensures { result ≡ padding form n }
{
    match form {
        Form::Old => 30usize.saturating_sub(n),
        Form::New => 0,
    }
}

// A byte of the stream; 0, which is no kind, past its end.
pub fn byte_at(stream: &[u8], at: usize) -> usize
    ensures { ByteAt stream.now at result }
{
    if at < stream.len() {
        return stream[at] as usize;
    }
    0
}

// How many bytes the next chunk carries where so many are left.
pub fn chunk_length(form: Form, left: usize) -> usize
    ensures { result ≡ min (full form) left }
{
    full_of(form).min(left)
}

// How many chunks so many bytes take.
pub fn chunk_count(form: Form, n: usize) -> usize
    ensures { result ≡ chunk_count form n }
{
    match form {
        Form::Old => n.div_ceil(30),
        Form::New => n.div_ceil(64),
    }
}
