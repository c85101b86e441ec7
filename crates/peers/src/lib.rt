// Peers, put as people write them. A peer is 18 bytes: 16 of address and 2 of port, high bytes first. An IPv4 address, which stands
// in its IPv4-mapped form (RFC 4291, section 2.5.5.2), is put as 192.0.2.1:5683, any other in brackets, as [2001:db8::1]:5683, by
// RFC 5952. `peer_reading` reads them.
#![tactic(auto)]

ghost use Rattle.std.specs.Prelude.{◌≡◌, [], ◌∷◌, ◌<◌, ◌≤◌};
ghost use Rattle.ground.specs.Choice.{pick};
ghost use Rattle.placing.specs.Put.{Puts};
ghost use Rattle.hexadecimal.specs.Hex.{hex_digit};
ghost use Rattle.peers.specs.Text.{pair as pair_of, group, shown, group_text, piece, row, run_end, longest as longestOf, groups_text, is_mapped, dotted, address_text, peer_text};

use decimal::put_decimal;
use placing::{put_byte, put_bytes};

// Puts a peer's address and port.
pub fn put_peer(out: &mut [u8], at: usize, peer: [u8; 18]) -> usize
    ensures { Puts out.old at (peer_text peer) result out.new }
{
    let next = put_address(out, at, peer);
    let next = put_byte(out, next, b':');
    put_decimal(out, next, pair(peer[16], peer[17]))
}

fn put_address(out: &mut [u8], at: usize, peer: [u8; 18]) -> usize
    ensures { Puts out.old at (address_text peer) result out.new }
{
    if is_mapped(peer) {
        return put_dotted(out, at, peer);
    }
    let next = put_byte(out, at, b'[');
    let next = put_groups(out, next, peer);
    put_byte(out, next, b']')
}

// Whether an address is an IPv4 one.
fn is_mapped(peer: [u8; 18]) -> bool
    ensures { result ≡ is_mapped peer }
{
    run_end(peer, 0) == 5 && group_of(peer, 5) == 65535
}

// Puts the four numbers of an IPv4 address.
fn put_dotted(out: &mut [u8], at: usize, peer: [u8; 18]) -> usize
    ensures { Puts out.old at (dotted peer) result out.new }
{
    let next = put_decimal(out, at, peer[12] as u64);
    let next = put_byte(out, next, b'.');
    let next = put_decimal(out, next, peer[13] as u64);
    let next = put_byte(out, next, b'.');
    let next = put_decimal(out, next, peer[14] as u64);
    let next = put_byte(out, next, b'.');
    put_decimal(out, next, peer[15] as u64)
}

// Puts the groups, with `::` for the longest run of zeros.
fn put_groups(out: &mut [u8], at: usize, peer: [u8; 18]) -> usize
    ensures { Puts out.old at (groups_text peer) result out.new }
{
    let start = longest(peer);
    if start == 8 {
        return put_row(out, at, peer, 0, 8);
    }
    let next = put_row(out, at, peer, 0, start);
    let next = put_bytes(out, next, b"::");
    put_row(out, next, peer, run_end(peer, start), 8)
}

// Where the longest run of two or more groups of zeros begins, the first of equals; 8 where there is none.
fn longest(peer: [u8; 18]) -> usize
    ensures { (result ≡ longestOf peer) × (result ≤ 8) }
{
    let mut start = 8;
    let mut size = 1;
    for i in 0..8 {
        let end = run_end(peer, i);
        if size < end - i {
            start = i;
            size = end - i;
        }
    }
    start
}

// Where the groups of zeros end that begin with a group.
fn run_end(peer: [u8; 18], first: usize) -> usize
    requires { first ≤ 8 }
    ensures { (result ≡ run_end peer first) × ((first ≤ result) × (result ≤ 8)) }
{
    for i in first..8 {
        if group_of(peer, i) != 0 {
            return i;
        }
    }
    8
}

// A group of the address.
fn group_of(peer: [u8; 18], index: usize) -> u64
    requires { index < 8 }
    ensures { result ≡ group peer index }
{
    pair(peer[2 * index], peer[2 * index + 1])
}

// The number of two bytes, the high one first.
fn pair(high: u8, low: u8) -> u64
    ensures { result ≡ pair_of high low }
{
    high as u64 * 256 + low as u64
}

// Puts the groups from one to before another, with colons between.
fn put_row(out: &mut [u8], at: usize, peer: [u8; 18], from: usize, to: usize) -> usize
    requires { to ≤ 8 }
    ensures { Puts out.old at (row peer from to) result out.new }
{
    let mut next = at;
    for i in from..to {
        next = put_piece(out, next, peer, from, i);
    }
    next
}

// Puts a group of a row.
fn put_piece(out: &mut [u8], at: usize, peer: [u8; 18], first: usize, index: usize) -> usize
    requires { index < 8 }
    ensures { Puts out.old at (piece peer first index) result out.new }
{
    let next = put_colon(out, at, first < index);
    put_group(out, next, group_of(peer, index))
}

fn put_colon(out: &mut [u8], at: usize, there: bool) -> usize
    ensures { Puts out.old at (pick there (58 ∷ []) []) result out.new }
{
    if there {
        return put_byte(out, at, b':');
    }
    at
}

// Puts a group's digits.
fn put_group(out: &mut [u8], at: usize, number: u64) -> usize
    ensures { Puts out.old at (group_text number) result out.new }
{
    let next = put_digit(out, at, number / 4096 % 16, 4095 < number);
    let next = put_digit(out, next, number / 256 % 16, 255 < number);
    let next = put_digit(out, next, number / 16 % 16, 15 < number);
    put_digit(out, next, number % 16, true)
}

fn put_digit(out: &mut [u8], at: usize, digit: u64, there: bool) -> usize
    requires { digit < 16 }
    ensures { Puts out.old at (shown there digit) result out.new }
{
    if there {
        return put_byte(out, at, hex_digit(digit));
    }
    at
}

fn hex_digit(digit: u64) -> u8
    requires { digit < 16 }
    ensures { result ≡ hex_digit digit }
{
    if digit < 10 {
        return b'0' + digit as u8;
    }
    b'a' + (digit - 10) as u8
}
