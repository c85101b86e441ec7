// A freeze stream written in the other form, message by message.
#![tactic(auto)]

ghost use Rattle.std.specs.Prelude.{◌≡◌, length, leb};
ghost use Rattle.framing.specs.Framing.{Converts};
ghost use Rattle.placing.specs.Put.{Put};
ghost use Rattle.stream.specs.Stream.{stream_of};
ghost use Rattle.stream.specs.Messages.{thawed};
ghost use Rattle.thawing.specs.Thawing.{messages_in};
ghost use Rattle.converting.specs.Converting.{other_form, size_in, Convertible, converted};

use freezing::put_message;
use packet::limits::FULL_SIZE;
use refusal::Refusal;
use stream::Form;
use thawing::{Strict, judge_strictly, next_message};

// Writes the stream in the other form that has the same messages. The answer is how many bytes it has.
pub fn convert(from: Form, stream: &[u8], out: &mut [u8]) -> Result<usize, Refusal>
    ensures { Converts (converted from stream.now) out.old result out.new }
{
    let to = other_form(from);
    let strict = judge_strictly(from, to, stream)?;
    if has_room(to, strict, out.len()) {
        return Ok(put_stream(from, to, stream, out));
    }
    Err(Refusal::NoRoom)
}

fn other_form(form: Form) -> Form
    ensures { result ≡ other_form form }
{
    match form {
        Form::Old => Form::New,
        Form::New => Form::Old,
    }
}

// Whether an output of this length has room for a stream with these counts. The old form can have more than twice the bytes of the
// new, so what is left is compared, and no sum is made.
fn has_room(form: Form, strict: Strict, room: usize) -> bool
    ensures { result ≡ leb (size_in form strict.count strict.bytes strict.chunks) room }
{
    if room / 20 < strict.count {
        return false;
    }
    let left = room - 20 * strict.count;
    match form {
        Form::Old => strict.chunks <= left / 32,
        Form::New => {
            if left < strict.bytes {
                return false;
            }
            strict.chunks <= left - strict.bytes
        }
    }
}

// Puts the messages of a stream that was judged, in the other form.
fn put_stream(from: Form, to: Form, stream: &[u8], out: &mut [u8]) -> usize
    requires { Convertible from to stream.now (length out.old) }
    ensures { Put out.old 0 (stream_of to (messages_in (thawed from stream.now))) result out.new }
{
    let mut datagram = [0u8; FULL_SIZE];
    let mut at = 0;
    let mut place = 0;
    while at < stream.len() {
        let Ok(message) = next_message(from, stream, at, &mut datagram, 0) else {
            return place;
        };
        let peer = at + 1;
        let end = at + 19;
        place = put_message(to, out, place, &stream[peer..end], &datagram[..message.len]);
        at = message.next;
    }
    place
}
