// A packet taken out of its flat form, which may stand at the start of a longer slice.
#![tactic(auto)]

ghost use Rattle.std.specs.Prelude.{◌≡◌, Bool, ◌+◌, ◌*◌, ◌≤◌, length, get_or};
ghost use Rattle.refusal.specs.Answer.{beside};
ghost use Rattle.packet.specs.Packet.{new_packet};
ghost use Rattle.unflat.specs.Unflat.{bad_head, bad_record, bad_numbers, bad_frame, bad_flat, header_in, home_of, range_at, record_at, packet_in, unflat, taken};

use class::MessageClass;
use header::{Header, MessageType};
use packet::limits::MAX_OPTIONS;
use packet::{Home, OptionRecord, Packet, Range};
use refusal::Refusal;

// The packet of a flat form; numbers that are none give BadRecord (11).
pub fn packet_in(numbers: &[u32]) -> Result<Packet, Refusal>
    ensures { taken result ≡ beside new_packet (unflat numbers.now) }
{
    if bad_flat(numbers) {
        return Err(Refusal::BadRecord);
    }
    if numbers[10] == 0 {
        return Ok(bare_packet(numbers));
    }
    Ok(good_packet(numbers))
}

// Whether numbers are no packet's flat form.
fn bad_flat(numbers: &[u32]) -> bool
    ensures { result ≡ bad_flat numbers.now }
{
    if bad_frame(numbers) {
        return true;
    }
    bad_numbers(numbers, numbers[10] as usize)
}

// Whether numbers are too few for a flat form, or its head is bad: the records are not looked at.
pub fn bad_frame(numbers: &[u32]) -> bool
    ensures { result ≡ bad_frame numbers.now }
{
    if numbers.len() < 11 {
        return true;
    }
    if bad_head(numbers) {
        return true;
    }
    numbers.len() < 11 + 4 * numbers[10] as usize
}

// Whether one of the first numbers is more than its field holds, or no home's.
fn bad_head(numbers: &[u32]) -> bool
    requires { 11 ≤ length numbers.now }
    ensures { result ≡ bad_head numbers.now }
{
    if 255 < numbers[0] {
        return true;
    }
    if 3 < numbers[1] {
        return true;
    }
    if 255 < numbers[2] {
        return true;
    }
    if 65535 < numbers[3] {
        return true;
    }
    if 1 < numbers[4] {
        return true;
    }
    if 1 < numbers[7] {
        return true;
    }
    (MAX_OPTIONS as u32) < numbers[10]
}

// Whether one of so many records is bad.
fn bad_numbers(numbers: &[u32], count: usize) -> bool
    requires { 11 + 4 * count ≤ length numbers.now }
    ensures { result ≡ bad_numbers numbers.now count }
{
    for i in 0..count {
        if bad_record(numbers, 11 + 4 * i) {
            return true;
        }
    }
    false
}

// Whether the record whose number stands at a place has a number over 65535, or a home that is none.
fn bad_record(numbers: &[u32], at: usize) -> bool
    requires { at + 4 ≤ length numbers.now }
    ensures { result ≡ bad_record numbers.now at }
{
    if 65535 < numbers[at] {
        return true;
    }
    1 < numbers[at + 1]
}

// The packet of a flat form that has no records. The compiler clears its array where the answer stands, and copies none.
fn bare_packet(numbers: &[u32]) -> Packet
    requires { (bad_flat numbers.now ≡ Bool.false) × (get_or numbers.now 10 0 ≡ 0) }
    ensures { result ≡ packet_in numbers.now }
{
    Packet {
        header: header_in(numbers),
        token: range_in(numbers, 4),
        count: 0,
        options: [OptionRecord::EMPTY; MAX_OPTIONS],
        payload: range_in(numbers, 7),
    }
}

// The packet of a flat form. Its records are put into an array of their own, which the compiler copies once; those that are put into
// the packet it copies with the whole of it, and again into the answer.
fn good_packet(numbers: &[u32]) -> Packet
    requires { bad_flat numbers.now ≡ Bool.false }
    ensures { result ≡ packet_in numbers.now }
{
    let header = header_in(numbers);
    let token = range_in(numbers, 4);
    let payload = range_in(numbers, 7);
    let count = numbers[10] as usize;
    let mut options = [OptionRecord::EMPTY; MAX_OPTIONS];
    for i in 0..count {
        options[i] = record_in(numbers, 11 + 4 * i);
    }
    Packet {
        header,
        token,
        count,
        options,
        payload,
    }
}

// The header of a flat form.
fn header_in(numbers: &[u32]) -> Header
    requires { (11 ≤ length numbers.now) × (bad_head numbers.now ≡ Bool.false) }
    ensures { result ≡ header_in numbers.now }
{
    Header {
        version: numbers[0] as u8,
        message_type: MessageType::from_number(numbers[1] as u8),
        code: MessageClass::from_byte(numbers[2] as u8),
        message_id: numbers[3] as u16,
    }
}

// The range whose home stands at a place.
fn range_in(numbers: &[u32], at: usize) -> Range
    requires { at + 3 ≤ length numbers.now }
    ensures { result ≡ range_at numbers.now at }
{
    Range {
        home: home_of(numbers[at]),
        start: numbers[at + 1],
        len: numbers[at + 2],
    }
}

// The record whose number stands at a place.
fn record_in(numbers: &[u32], at: usize) -> OptionRecord
    requires { (at + 4 ≤ length numbers.now) × (bad_record numbers.now at ≡ Bool.false) }
    ensures { result ≡ record_at numbers.now at }
{
    OptionRecord {
        number: numbers[at] as u16,
        home: home_of(numbers[at + 1]),
        spare: 0,
        start: numbers[at + 2],
        len: numbers[at + 3],
    }
}

// The home that a number stands for.
fn home_of(number: u32) -> Home
    ensures { result ≡ home_of number }
{
    if number == 0 {
        return Home::Datagram;
    }
    Home::Edits
}
