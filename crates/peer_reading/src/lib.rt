// Peers, read as people write them: an IPv4 address as 192.0.2.1:5683, any other in brackets, as [2001:db8::1]:5683 (RFC 4291,
// section 2.2). A peer is 18 bytes, 16 of address and 2 of port; an IPv4 address stands in its IPv4-mapped form.
#![tactic(auto)]

mod groups;
mod numbers;

ghost use Rattle.std.specs.Prelude.{◌≡◌, ◌++◌};
ghost use Rattle.refusal.specs.Answer.{refused, given, onward};
ghost use Rattle.decimal.specs.Decimal.{decimal_of};
ghost use Rattle.peer_reading.specs.Reading.{pair_bytes, dotted_peer, from_second, from_third, from_fourth, from_port, whole_address, cut_address, address_in, port_in, grouped_peer, peer_in, ReadsPeer};

use groups::{are_groups, gap_in, put_groups, put_pair};
use numbers::{number_in, number_to};
use placing::put_bytes;
use refusal::Refusal;
use uri_text::part_end;

// A number before a mark, and where the text after it starts.
#[derive(Clone, Copy)]
pub struct Number {
    pub value: u64,
    pub next: usize,
}

// The peer that a text is; BadText (15) if it is none.
pub fn peer_in(text: &[u8]) -> Result<[u8; 18], Refusal>
    ensures { ReadsPeer (peer_in text.now) result }
{
    if text.len() == 0 {
        return dotted_peer(text);
    }
    if text[0] == b'[' {
        return grouped_peer(&text[1..]);
    }
    dotted_peer(text)
}

// The peer of four numbers with dots between, a colon and the port: from the first number on, from the second, and so on.
fn dotted_peer(text: &[u8]) -> Result<[u8; 18], Refusal>
    ensures { ReadsPeer (dotted_peer text.now) result }
{
    let a = number_to(text, b'.', 255).ok_or(Refusal::BadText)?;
    from_second(a.value as u8, &text[a.next..])
}

fn from_second(a: u8, text: &[u8]) -> Result<[u8; 18], Refusal>
    ensures { ReadsPeer (from_second a text.now) result }
{
    let b = number_to(text, b'.', 255).ok_or(Refusal::BadText)?;
    from_third(a, b.value as u8, &text[b.next..])
}

fn from_third(a: u8, b: u8, text: &[u8]) -> Result<[u8; 18], Refusal>
    ensures { ReadsPeer (from_third a b text.now) result }
{
    let c = number_to(text, b'.', 255).ok_or(Refusal::BadText)?;
    from_fourth(a, b, c.value as u8, &text[c.next..])
}

fn from_fourth(a: u8, b: u8, c: u8, text: &[u8]) -> Result<[u8; 18], Refusal>
    ensures { ReadsPeer (from_fourth a b c text.now) result }
{
    let d = number_to(text, b':', 255).ok_or(Refusal::BadText)?;
    from_port(a, b, c, d.value as u8, &text[d.next..])
}

fn from_port(a: u8, b: u8, c: u8, d: u8, text: &[u8]) -> Result<[u8; 18], Refusal>
    ensures { ReadsPeer (from_port a b c d text.now) result }
{
    let port = number_in(text, 65535).ok_or(Refusal::BadText)?;
    let high = (port / 256 % 256) as u8;
    let low = (port % 256) as u8;
    Ok([
        0, 0, 0, 0, 0, 0, 0, 0, 0, 0, 255, 255, a, b, c, d, high, low,
    ])
}

// The peer after a bracket: its address, a bracket, a colon and the port.
fn grouped_peer(text: &[u8]) -> Result<[u8; 18], Refusal>
    ensures { ReadsPeer (grouped_peer text.now) result }
{
    let end = part_end(text, 0, b']');
    if text.len() <= end {
        return Err(Refusal::BadText);
    }
    let Some(port) = port_in(&text[end + 1..]) else {
        return Err(Refusal::BadText);
    };
    peer_at(&text[..end], port)
}

// The port after a colon.
fn port_in(text: &[u8]) -> Option<u64>
    ensures { decimal_of result ≡ port_in text.now }
{
    if text.len() == 0 {
        return None;
    }
    if text[0] != b':' {
        return None;
    }
    number_in(&text[1..], 65535)
}

// The peer of an address in groups, with a port.
fn peer_at(text: &[u8], port: u64) -> Result<[u8; 18], Refusal>
    ensures { ReadsPeer (onward (address_in text.now) (λ a. given (a ++ pair_bytes port))) result }
{
    let gap = gap_in(text);
    if text.len() <= gap {
        return whole_peer(text, port);
    }
    let left = &text[..gap];
    let from = gap + 2;
    cut_peer(left, &text[from..], port)
}

// The peer of eight groups.
fn whole_peer(text: &[u8], port: u64) -> Result<[u8; 18], Refusal>
    ensures { ReadsPeer (onward (whole_address text.now) (λ a. given (a ++ pair_bytes port))) result }
{
    if !are_groups(text) {
        return Err(Refusal::BadText);
    }
    let mut bytes = [0u8; 18];
    let end = put_groups(&mut bytes, 0, text);
    if end != 16 {
        return Err(Refusal::BadText);
    }
    put_pair(&mut bytes, end, port);
    Ok(bytes)
}

// The peer of groups before and after a `::`: those after it end the address, and zeros stand between.
fn cut_peer(left: &[u8], right: &[u8], port: u64) -> Result<[u8; 18], Refusal>
    ensures { ReadsPeer (onward (cut_address left.now right.now) (λ a. given (a ++ pair_bytes port))) result }
{
    if !are_groups(left) {
        return Err(Refusal::BadText);
    }
    if !are_groups(right) {
        return Err(Refusal::BadText);
    }
    let mut spare = [0u8; 18];
    let behind = put_groups(&mut spare, 0, right);
    let mut bytes = [0u8; 18];
    let before = put_groups(&mut bytes, 0, left);
    if 15 < before + behind {
        return Err(Refusal::BadText);
    }
    let zeros = [0u8; 16];
    let between = 16 - (before + behind);
    let next = put_bytes(&mut bytes, before, &zeros[..between]);
    let next = put_groups(&mut bytes, next, right);
    put_pair(&mut bytes, next, port);
    Ok(bytes)
}
