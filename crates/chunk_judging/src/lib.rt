// Strict reading's judgement of a datagram that lies in chunks of a freeze stream, read where they lie: no byte is copied, and no
// packet is made.
#![tactic(auto)]

mod datagram;

ghost use Rattle.std.specs.Prelude.{true, ◌≡◌, ◌≤◌};
ghost use Rattle.refusal.specs.Answer.{outcome};
ghost use Rattle.packet.specs.Limits.{max_options};
ghost use Rattle.cursor.specs.Cursor.{accepting};
ghost use Rattle.framing.specs.Judging.{options_judged};
ghost use Rattle.chunk_judging.specs.Chunks.{JudgesChunks};
ghost use Rattle.chunk_judging.specs.Walk.{bytes_of};

use datagram::{Datagram, past};
use option_reading::{Found, place_at};
use packet::limits::{MAX_OPTIONS, MAX_STORE, MAX_VALUE};
use reading::{marker_alone, opening};
use refusal::Refusal;
use stream::{Form, chunk_length, head_of};

// Judges the datagram of so many bytes whose chunks start at a position: what strict reading refuses, or done. One that ends past
// the stream is BadFreeze (19).
pub fn judge_chunks(form: Form, stream: &[u8], from: usize, len: usize) -> Result<(), Refusal>
    ensures { JudgesChunks form stream.now from len result }
{
    if past(form, stream, from, len) {
        return Err(Refusal::BadFreeze);
    }
    if MAX_STORE < len {
        return Err(Refusal::TooLong);
    }
    if len < 4 {
        return Err(Refusal::InvalidHeader);
    }
    opened(Datagram {
        form,
        from,
        len,
        stream,
    })
}

// A datagram that lies in its stream, judged. Header and token are in one piece, since the shortest full chunk has 30 bytes.
fn opened(d: Datagram) -> Result<(), Refusal>
    requires { 4 ≤ d.len }
    ensures { outcome result ≡ accepting true (bytes_of d.entry) }
{
    let form = d.form;
    let start = d.from + head_of(form);
    let end = start + chunk_length(form, d.len);
    let raw = opening(true, &d.stream[start..end])?;
    walked(d, 4 + raw.token_length() as usize)
}

// The walk over the options, which keeps none of them.
fn walked(d: Datagram, start: usize) -> Result<(), Refusal>
    requires { start ≤ d.len }
    ensures { outcome result ≡ options_judged (bytes_of d.entry) max_options 0 start }
{
    let mut count = 0;
    let mut number: u16 = 0;
    let mut idx = start;
    loop {
        match place_at(MAX_VALUE as usize, d, number, idx)? {
            Found::End { marked, payload } => {
                if marker_alone(true, marked, payload, d.len) {
                    return Err(Refusal::MarkerAlone);
                }
                return Ok(());
            }
            Found::Option(r) => {
                if MAX_OPTIONS <= count {
                    return Err(Refusal::TooManyOptions);
                }
                count += 1;
                number = r.number;
                idx = r.start as usize + r.len as usize;
            }
        }
    }
}
