// The duplicate rule of RFC 7252, section 4.5, one message after the other, over a lent table of 64 places.
#![tactic(auto)]

ghost use Rattle.std.specs.Prelude.{◌≡◌, ◌+◌, ◌<◌, ◌≤◌, length};
ghost use Rattle.ground.specs.Part.{part};
ghost use Rattle.rfc.specs.Duplicates.{alike, stands};
ghost use Rattle.header.specs.Header.{number_of_type};
ghost use Rattle.placing.specs.Put.{Puts};
ghost use Rattle.hearing.specs.Table.{entries, free};
ghost use Rattle.hearing.specs.Bytes.{table_size, place_at, places, entry_bytes};
ghost use Rattle.hearing.specs.Hearing.{arrival, verdict_of, Hears, Clears};
ghost use Rattle.hearing.specs.Calls.{letter};
ghost use Rattle.hearing.specs.Steps.{Two, Four, stands_at, Lowest};

use header::MessageType;
use placing::{put_byte, put_bytes};
use refusal::Refusal;
use std::marker::Model;

// How many bytes a table takes: 64 places of 25. Bytes after these aren't looked at.
pub const TABLE_SIZE: usize = 1600;

// How many places that is, and how many bytes each has.
const PLACES: usize = 64;

const PLACE_SIZE: usize = 25;

// EXCHANGE_LIFETIME and NON_LIFETIME, in seconds (section 4.8.2).
const EXCHANGE_LIFETIME: u64 = 247;

const NON_LIFETIME: u64 = 145;

// What the rule says of a message.
#[derive(Clone, Copy)]
pub enum Verdict {
    New,
    Duplicate,
    Passed,
}

impl Verdict {
    // The byte of a verdict in a listing.
    pub fn letter(self) -> u8
        ensures { result ≡ letter (verdict_of self) }
    {
        match self {
            Verdict::New => 1,
            Verdict::Duplicate => 2,
            Verdict::Passed => 3,
        }
    }
}

// A message that the table can remember: its type is 0, confirmable, or 1, non-confirmable.
#[derive(Drop)]
struct Message {
    time: u32,
    number: u8,
    peer: [u8; 18],
    id: u16,
}

impl Model for Message {
    ghost use Rattle.std.specs.Prelude.{◌≤◌};
    ghost use Rattle.rfc.specs.Duplicates.{Arrival};

    ghost Value = { Arrival };

    ghost view = { λ m. record { time = m.time; type = m.number; peer = m.peer; id = m.id } };

    ghost invariant = { λ m. m.number ≤ 1 };
}

// Makes all places unused.
pub fn clear(table: &mut [u8]) -> Result<(), Refusal>
    ensures { Clears table.old result table.new }
{
    if table.len() < TABLE_SIZE {
        return Err(Refusal::NoRoom);
    }
    let zeros = [0u8; TABLE_SIZE];
    put_bytes(table, 0, &zeros);
    Ok(())
}

// One message: `before` is the time of the message before, and 0 for the first. A new one takes the lowest-numbered place that is
// unused or expired; nothing else changes the table.
pub fn hear(
    table: &mut [u8],
    before: u32,
    time: u32,
    kind: MessageType,
    peer: [u8; 18],
    id: u16,
) -> Result<Verdict, Refusal>
    ensures { Hears before (arrival time (number_of_type kind) peer id) table.old result table.new }
{
    if time < before {
        return Err(Refusal::ClockBack);
    }
    if table.len() < TABLE_SIZE {
        return Err(Refusal::NoRoom);
    }
    let number = kind.to_number();
    if 1 < number {
        return Ok(Verdict::Passed);
    }
    let message = Message {
        time,
        number,
        peer,
        id,
    };
    if is_known(table, &message) {
        return Ok(Verdict::Duplicate);
    }
    let Some(at) = lowest_free(table, time) else {
        return Err(Refusal::NoRoom);
    };
    put_entry(table, at, &message);
    Ok(Verdict::New)
}

// Whether the same message stands in the table, unexpired.
fn is_known(table: &[u8], message: &Message) -> bool
    requires { table_size ≤ length table.now }
    ensures { result ≡ stands message.now (entries (places table.now)) }
{
    for place in 0..PLACES {
        if is_same(table, place * PLACE_SIZE, message) {
            return true;
        }
    }
    false
}

// Where the lowest place starts that is unused or expired, if one is.
fn lowest_free(table: &[u8], time: u32) -> Option<usize>
    requires { table_size ≤ length table.now }
    ensures { Lowest time table.now result }
{
    for place in 0..PLACES {
        if is_free(table, place * PLACE_SIZE, time) {
            return Some(place * PLACE_SIZE);
        }
    }
    None
}

// Whether the place at a position holds the same message, unexpired.
fn is_same(table: &[u8], at: usize, message: &Message) -> bool
    requires { at + 25 ≤ length table.now }
    ensures { result ≡ stands_at message.now (place_at table.now at) }
{
    if table[at] != message.number + 1 {
        return false;
    }
    if is_free(table, at, message.time) {
        return false;
    }
    if two_at(table, at + 19) != message.id {
        return false;
    }
    are_at(table, at + 1, &message.peer)
}

// Whether the place at a position is unused or expired.
fn is_free(table: &[u8], at: usize, time: u32) -> bool
    requires { at + 25 ≤ length table.now }
    ensures { result ≡ free time (place_at table.now at) }
{
    let first = table[at];
    if first == 1 {
        return four_at(table, at + 21) as u64 + EXCHANGE_LIFETIME <= time as u64;
    }
    if first == 2 {
        return four_at(table, at + 21) as u64 + NON_LIFETIME <= time as u64;
    }
    true
}

// Whether these bytes stand at a position.
fn are_at(s: &[u8], at: usize, bytes: &[u8]) -> bool
    requires { at + length bytes.now ≤ length s.now }
    ensures { result ≡ alike (part s.now at (length bytes.now)) bytes.now }
{
    for i in 0..bytes.len() {
        if s[at + i] != bytes[i] {
            return false;
        }
    }
    true
}

// The number of two bytes, and of four, high byte first.
fn two_at(s: &[u8], i: usize) -> u16
    requires { i + 2 ≤ length s.now }
    ensures { Two s.now i result }
{
    u16::from_be_bytes([s[i], s[i + 1]])
}

fn four_at(s: &[u8], i: usize) -> u32
    requires { i + 4 ≤ length s.now }
    ensures { Four s.now i result }
{
    u32::from_be_bytes([s[i], s[i + 1], s[i + 2], s[i + 3]])
}

// Puts an entry at a position.
fn put_entry(table: &mut [u8], at: usize, message: &Message) -> usize
    ensures { Puts table.old at (entry_bytes message.now) result table.new }
{
    let id_bytes = message.id.to_be_bytes();
    let time_bytes = message.time.to_be_bytes();
    let after_type = put_byte(table, at, message.number + 1);
    let after_peer = put_bytes(table, after_type, &message.peer);
    let after_id = put_bytes(table, after_peer, &id_bytes);
    put_bytes(table, after_id, &time_bytes)
}
