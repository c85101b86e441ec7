// A datagram where it lies in a freeze stream, as a source of its bytes.
#![tactic(auto)]

ghost use Rattle.std.specs.Prelude.{◌≡◌, ◌<◌, ◌^◌};
ghost use Rattle.chunk_judging.specs.Chunks.{offset, gathered, past, Lies};

use option_reading::ByteSource;
use stream::Form;

// Where a byte of a datagram stands, from the start of its chunks: behind the bytes before it, and behind the heads.
fn offset_of(form: Form, i: usize) -> usize
    requires { i < 2 ^ 63 }
    ensures { result ≡ offset form i }
{
    match form {
        Form::Old => i + i / 30 * 2 + 2,
        Form::New => i + i / 64 + 1,
    }
}

// Whether the last byte of a datagram lies past the stream.
pub fn past(form: Form, stream: &[u8], from: usize, len: usize) -> bool
    ensures { result ≡ past form stream.now from len }
{
    if len < 1 {
        return false;
    }
    if stream.len() < from {
        return true;
    }
    if stream.len() - from < len {
        return true;
    }
    stream.len() - from <= offset_of(form, len - 1)
}

// Where a datagram lies: the form and the start of its chunks, how many bytes it has, and the stream. It is not too long to be read,
// and its last byte lies in the stream.
#[derive(Clone, Copy)]
pub struct Datagram<'a> {
    pub form: Form,
    pub from: usize,
    pub len: usize,
    pub stream: &'a [u8],
    ghost lies: { Lies form from len stream.now },
}

impl<'a> ByteSource for Datagram<'a> {
    ghost bytes = { λ d. gathered d.form d.stream.now d.from d.len };

    fn count(self) -> usize {
        self.len
    }

    fn byte_at(self, idx: usize) -> usize {
        if self.len <= idx {
            return 0;
        }
        let form = self.form;
        let place = self.from + offset_of(form, idx);
        self.stream[place] as usize
    }
}
