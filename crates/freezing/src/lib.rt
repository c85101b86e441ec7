// Messages into a freeze stream: a peer, and the strict datagram of a packet.
#![tactic(auto)]

ghost use Rattle.std.specs.Prelude.{◌≡◌, ◌+◌, ◌≤◌, length, replicate, eqb};
ghost use Rattle.ground.specs.Choice.{pick};
ghost use Rattle.packet.specs.Limits.{full_size};
ghost use Rattle.packet.specs.Packet.{held};
ghost use Rattle.placing.specs.Put.{Puts};
ghost use Rattle.stream.specs.Stream.{full, head, chunk_of, chunk_count, chunks_of, message_of, message_size};
ghost use Rattle.freezing.specs.Freezing.{Writes, Freezes};

use packet::limits::FULL_SIZE;
use packet::{Packet, Stores};
use placing::{put_byte, put_bytes};
use refusal::Refusal;
use stream::{Form, chunk_count, chunk_length, padding_of};
use writing::to_bytes_with_limit_strict;

// Freezes a packet: its strict datagram of at most 1,280 bytes is written to a stream from a start, with its peer. The answer is how
// many bytes the message takes there.
pub fn freeze<'a>(
    form: Form,
    peer: [u8; 18],
    packet: Packet,
    stores: Stores<'a>,
    stream: &mut [u8],
    start: usize,
) -> Result<usize, Refusal>
    ensures { Freezes form peer packet (held stores.entry) stream.old start result stream.new }
{
    let mut message = [0u8; FULL_SIZE];
    let n = to_bytes_with_limit_strict(packet, FULL_SIZE, stores, &mut message)?;
    write_message(form, peer, &message[..n], stream, start)
}

// Writes a message to a stream from a start, where there is room for it.
fn write_message(
    form: Form,
    peer: [u8; 18],
    datagram: &[u8],
    stream: &mut [u8],
    start: usize,
) -> Result<usize, Refusal>
    requires { length datagram.now ≤ full_size }
    ensures { Writes form (record { peer = peer; datagram = datagram.now }) stream.old start result stream.new }
{
    let size = message_size(form, datagram.len());
    if stream.len() < start {
        return Err(Refusal::NoRoom);
    }
    if stream.len() - start < size {
        return Err(Refusal::NoRoom);
    }
    put_message(form, stream, start, &peer, datagram);
    Ok(size)
}

// How many bytes a message takes whose datagram has n.
fn message_size(form: Form, n: usize) -> usize
    requires { n ≤ full_size }
    ensures { result ≡ message_size form n }
{
    match form {
        Form::Old => 20 + 32 * chunk_count(Form::Old, n),
        Form::New => 20 + (n + chunk_count(Form::New, n)),
    }
}

// Puts a message: kind 1 and the peer, the chunks, kind 3. What no longer fits is cut off, here and below.
pub fn put_message(form: Form, out: &mut [u8], at: usize, peer: &[u8], datagram: &[u8]) -> usize
    ensures { Puts out.old at (message_of form (record { peer = peer.entry.now; datagram = datagram.now })) result out.new }
{
    let after_kind = put_byte(out, at, 1);
    let after_peer = put_bytes(out, after_kind, peer);
    let after_chunks = put_chunks(form, out, after_peer, datagram);
    put_byte(out, after_chunks, 3)
}

// Puts the chunks of a datagram.
fn put_chunks(form: Form, out: &mut [u8], at: usize, datagram: &[u8]) -> usize
    ensures { Puts out.old at (chunks_of form (chunk_count form (length datagram.now)) datagram.now) result out.new }
{
    let mut next = at;
    let mut i = 0;
    while i < datagram.len() {
        let n = chunk_length(form, datagram.len() - i);
        let e = i + n;
        let c = &datagram[i..e];
        next = put_chunk(form, out, next, c);
        i = e;
    }
    next
}

// Puts a chunk: its head, its bytes, and zeros for what a record of the form has beside them.
fn put_chunk(form: Form, out: &mut [u8], at: usize, c: &[u8]) -> usize
    requires { length c.now ≤ full form }
    ensures { Puts out.old at (chunk_of form c.now) result out.new }
{
    let unused = padding_of(form, c.len());
    let after_head = put_head(form, out, at, c.len());
    let after_bytes = put_bytes(out, after_head, c);
    put_zeros(out, after_bytes, unused)
}

// Puts the head of a chunk of n bytes.
fn put_head(form: Form, out: &mut [u8], at: usize, n: usize) -> usize
    requires { n ≤ full form }
    ensures { Puts out.old at (head form n) result out.new }
{
    match form {
        Form::Old => {
            let after_kind = put_byte(out, at, 2);
            put_byte(out, after_kind, n as u8)
        }
        Form::New => put_byte(out, at, new_kind(n)),
    }
}

fn new_kind(n: usize) -> u8
    requires { n ≤ 64 }
    ensures { result ≡ pick (eqb n 64) 4 (128 + n) }
{
    if n == 64 {
        return 4;
    }
    128 + n as u8
}

fn put_zeros(out: &mut [u8], at: usize, n: usize) -> usize
    requires { n ≤ 30 }
    ensures { Puts out.old at (replicate n 0) result out.new }
{
    let zeros = [0u8; 30];
    put_bytes(out, at, &zeros[..n])
}
