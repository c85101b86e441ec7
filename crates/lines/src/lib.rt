// The lines of a message, or of the refusal that took its place. Each ends with a byte that the caller names.
#![tactic(auto)]

ghost use Rattle.std.specs.Prelude.{[], ◌++◌};
ghost use Rattle.refusal.specs.Number.{number_of};
ghost use Rattle.class.specs.Class.{byte_of};
ghost use Rattle.header.specs.Header.{number_of_type, code_output};
ghost use Rattle.packet.specs.Packet.{stores, held};
ghost use Rattle.packet.specs.Meaning.{meaning};
ghost use Rattle.placing.specs.Put.{Puts};
ghost use Rattle.reading.specs.Reading.{decoded};
ghost use Rattle.lines.specs.Lines.{space, numbered, bytes_line, head_line, option_line, option_lines, message_lines, refusal_line, lines_of};

use decimal::put_decimal;
use header::Header;
use hexadecimal::put_hex;
use packet::{Packet, Stores};
use placing::{put_byte, put_bytes};
use refusal::Refusal;

// Puts a word and a number after it.
pub fn put_number(out: &mut [u8], at: usize, word: &[u8], number: u64) -> usize
    ensures { Puts out.old at (numbered word.now number) result out.new }
{
    let next = put_bytes(out, at, word);
    put_decimal(out, next, number)
}

// Puts the line of a word and bytes after it.
pub fn put_bytes_line(out: &mut [u8], at: usize, word: &[u8], bytes: &[u8], end: u8) -> usize
    ensures { Puts out.old at (bytes_line end word.now bytes.now) result out.new }
{
    let next = put_bytes(out, at, word);
    let next = put_hex(out, next, bytes);
    put_byte(out, next, end)
}

// Puts a space and a header's code.
pub fn put_code(out: &mut [u8], at: usize, header: Header) -> usize
    ensures { Puts out.old at (space ++ code_output header) result out.new }
{
    let mut code = [0u8; 4];
    let _ = header.get_code(&mut code);
    let next = put_byte(out, at, b' ');
    put_bytes(out, next, &code)
}

// Puts the line of a header: version, type, code and id.
pub fn put_header(out: &mut [u8], at: usize, header: Header, end: u8) -> usize
    ensures { Puts out.old at (head_line end header.version (number_of_type header.message_type) (byte_of header.code) header.message_id) result out.new }
{
    let message_type = header.message_type;
    let next = put_number(out, at, b"head ", header.version as u64);
    let next = put_number(out, next, b" ", message_type.to_number() as u64);
    let next = put_code(out, next, header);
    let next = put_number(out, next, b" ", header.message_id as u64);
    put_byte(out, next, end)
}

// Puts the line of an option: its number and value.
fn put_option(out: &mut [u8], at: usize, number: u16, value: &[u8], end: u8) -> usize
    ensures { Puts out.old at (option_line end number value.now) result out.new }
{
    let next = put_number(out, at, b"option ", number as u64);
    put_bytes_line(out, next, b" ", value, end)
}

// Puts a line for each option.
fn put_options<'a>(out: &mut [u8], at: usize, packet: Packet, stores: Stores<'a>, end: u8) -> usize
    ensures { Puts out.old at (option_lines end (meaning (held stores.entry) packet).options) result out.new }
{
    let count = packet.option_count();
    let mut next = at;
    for i in 0..count {
        let record = packet.options[i];
        next = put_option(out, next, record.number, record.value(stores), end);
    }
    next
}

// Puts the lines of a message: its head, token, options and payload.
pub fn put_message<'a>(
    out: &mut [u8],
    at: usize,
    packet: Packet,
    stores: Stores<'a>,
    end: u8,
) -> usize
    ensures { Puts out.old at (message_lines end (meaning (held stores.entry) packet)) result out.new }
{
    let header = packet.header;
    let next = put_header(out, at, header, end);
    let next = put_bytes_line(out, next, b"token ", packet.get_token(stores), end);
    let next = put_options(out, next, packet, stores, end);
    put_bytes_line(out, next, b"payload ", packet.get_payload(stores), end)
}

// Puts the line of a refusal: its number.
pub fn put_refusal(out: &mut [u8], at: usize, refusal: Refusal, end: u8) -> usize
    ensures { Puts out.old at (refusal_line end (number_of refusal)) result out.new }
{
    let next = put_number(out, at, b"refused ", refusal.number() as u64);
    put_byte(out, next, end)
}

// Puts what reading a datagram answers: the lines of the message, or the line of the refusal. A packet that was read needs no
// edit store.
pub fn put_decoded(
    out: &mut [u8],
    at: usize,
    read: Result<Packet, Refusal>,
    datagram: &[u8],
    end: u8,
) -> usize
    ensures { Puts out.old at (lines_of end (decoded read).answer (meaning (stores datagram.now []) (decoded read).value)) result out.new }
{
    match read {
        Ok(packet) => put_message(out, at, packet, Stores::of(datagram), end),
        Err(refusal) => put_refusal(out, at, refusal, end),
    }
}
