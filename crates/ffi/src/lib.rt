// What C and Rust link: reading and writing over numbers and slices of numbers. A slice is a pointer and a length there.
// A packet is in its flat form: version, type, code byte, id, home, start and length of the token, home, start and length of
// the payload, count of records, and then number, home, start and length of each record. A home is 0 for the datagram and 1
// for the edit store. What takes or gives the flat form has its version in its name, so that a caller of another version
// does not link.
#![tactic(auto)]

ghost use Rattle.std.specs.Prelude.{◌≡◌, [], ◌≤◌, length, take};
ghost use Rattle.refusal.specs.Answer.{written, outcome, after, fitted};
ghost use Rattle.packet.specs.Packet.{stores};
ghost use Rattle.reading.specs.Reading.{reading};
ghost use Rattle.writing.specs.Writing.{bytes_written};
ghost use Rattle.flat.specs.Flat.{flat};
ghost use Rattle.flat_writing.specs.FlatWriting.{packet_of, packet_over, copying};
ghost use Rattle.ffi.specs.Handed.{handed, number_in};
ghost use Rattle.ffi.specs.Copied.{length_in, sent_end};

use packet::Stores;
use refusal::Refusal;

// The version of the flat form.
pub fn rickwinter_version() -> u32
    ensures { result ≡ 2 }
{
    2
}

// Reads a datagram. 0: the packet's flat form stands at the start of the output. Else the refusal's number, and the output
// is as it was; 12 where it is too short.
pub fn rickwinter_v2_read(strict: bool, datagram: &[u8], out: &mut [u32]) -> u32
    ensures value { result ≡ number_in (handed (length out.old) (reading strict datagram.now)) }
    ensures out_after { out.new ≡ after (handed (length out.old) (reading strict datagram.now)) 0 (flat (packet_of (reading strict datagram.now))) out.old }
{
    number_of(scanning::scan(strict, datagram, out))
}

// Writes the packet of a flat form, which may stand at the start of a longer slice, over its two stores and without a limit.
// The length of what stands at the start of the output; or 4294967296 and the refusal's number, and the output is as it was.
// A store over 70,000 bytes, either of them, gives 10, and then what is no packet's flat form 11.
pub fn rickwinter_v2_write<'a>(
    strict: bool,
    packet: &[u32],
    datagram: &'a [u8],
    edits: &'a [u8],
    out: &mut [u8],
) -> u64
    ensures value { result ≡ length_in (copying strict (length out.old) (stores datagram.now edits.now) (packet_over (stores datagram.now edits.now) packet.now)) }
    ensures out_after { out.new ≡ after (copying strict (length out.old) (stores datagram.now edits.now) (packet_over (stores datagram.now edits.now) packet.now)) 0 (bytes_written strict (stores datagram.now edits.now) (packet_of (packet_over (stores datagram.now edits.now) packet.now))) out.old }
{
    length_or_refusal(flat_writing::write(strict, packet, Stores { datagram, edits }, out))
}

// Reads a datagram and writes its packet again, without a limit. The length of what stands at the start of the output; or
// 4294967296 and the refusal's number, and the output is as it was.
pub fn rickwinter_copy(strict: bool, datagram: &[u8], out: &mut [u8]) -> u64
    ensures value { result ≡ length_in (copying strict (length out.old) (stores datagram.now []) (reading strict datagram.now)) }
    ensures out_after { out.new ≡ after (copying strict (length out.old) (stores datagram.now []) (reading strict datagram.now)) 0 (bytes_written strict (stores datagram.now []) (packet_of (reading strict datagram.now))) out.old }
{
    length_or_refusal(copy(strict, datagram, out))
}

// The same, as what other functions answer.
fn copy(strict: bool, datagram: &[u8], out: &mut [u8]) -> Result<usize, Refusal>
    ensures result_value { written result ≡ copying strict (length out.old) (stores datagram.now []) (reading strict datagram.now) }
    ensures out_after { out.new ≡ after (copying strict (length out.old) (stores datagram.now []) (reading strict datagram.now)) 0 (bytes_written strict (stores datagram.now []) (packet_of (reading strict datagram.now))) out.old }
{
    let extent = scanning::judge(strict, datagram)?;
    let last = sent_end(datagram, extent.end, extent.payload);
    put_front(out, datagram, last)
}

// Where what is written of a datagram ends: with its options where no payload is sent, since it is empty or that of code 0.
fn sent_end(datagram: &[u8], end: usize, payload: usize) -> usize
    requires { 2 ≤ length datagram.now }
    ensures { result ≡ sent_end datagram.now end payload }
{
    if datagram.len() <= payload {
        return end;
    }
    if datagram[1] == 0 {
        return end;
    }
    datagram.len()
}

// Puts the first bytes of a datagram at the start of the output.
fn put_front(out: &mut [u8], datagram: &[u8], last: usize) -> Result<usize, Refusal>
    requires { last ≤ length datagram.now }
    ensures result_value { written result ≡ fitted (length out.old) (take last datagram.now) }
    ensures out_after { out.new ≡ after (fitted (length out.old) (take last datagram.now)) 0 (take last datagram.now) out.old }
{
    if out.len() < last {
        return Err(Refusal::NoRoom);
    }
    Ok(placing::put_bytes(out, 0, &datagram[..last]))
}

// 0 where all was done, else the refusal's number.
fn number_of(how: Result<(), Refusal>) -> u32
    ensures { result ≡ number_in (outcome how) }
{
    match how {
        Ok(()) => 0,
        Err(e) => e.number() as u32,
    }
}

// A length as it is; a refusal above every length.
fn length_or_refusal(answer: Result<usize, Refusal>) -> u64
    ensures { result ≡ length_in (written answer) }
{
    match answer {
        Ok(n) => n as u64,
        Err(e) => 4294967296 + e.number() as u64,
    }
}
