// The Uri-Path and Uri-Query options of a packet as the path and query text of a coap URI (RFC 7252, section 6.5).
#![tactic(auto)]

ghost use Rattle.std.specs.Prelude.{◌≡◌, ◌∷◌, length};
ghost use Rattle.rfc.specs.Uri.{segment, separator};
ghost use Rattle.rfc.specs.Percent.{code};
ghost use Rattle.rfc.specs.Target.{values, behind, path_text};
ghost use Rattle.packet.specs.Packet.{held};
ghost use Rattle.placing.specs.Put.{Puts};
ghost use Rattle.percent.specs.Step.{kind_of};
ghost use Rattle.target_writing.specs.ToText.{Fit, options_in, path_length, Fits, ToText};

use judging::Lengths;
use packet::{Packet, Stores};
use percent::{Kind, coded_count, put_value};
use placing::put_byte;
use refusal::Refusal;
use tables::option_number::{URI_PATH, URI_QUERY};

// Writes the text of a packet's path and query.
pub fn write_target<'a>(
    packet: Packet,
    stores: Stores<'a>,
    out: &mut [u8],
) -> Result<usize, Refusal>
    ensures { ToText (held stores.entry) packet out.old result out.new }
{
    let lengths = Lengths::of(stores);
    if lengths.too_long() {
        return Err(Refusal::TooLong);
    }
    judging::judge(packet, lengths)?;
    put_target(packet, stores, out)
}

// Writes the text of a packet that was judged good, if there is room for it.
fn put_target<'a>(packet: Packet, stores: Stores<'a>, out: &mut [u8]) -> Result<usize, Refusal>
    requires { Fit (held stores) packet }
    ensures { Fits (held stores.entry) packet out.old result out.new }
{
    let path = text_length(packet, Kind::Segment, URI_PATH, stores);
    let query = text_length(packet, Kind::Query, URI_QUERY, stores);
    if out.len() < path_length(path) + query {
        return Err(Refusal::NoRoom);
    }
    let next = put_path(out, path, packet, stores);
    Ok(put_values(out, next, packet, Kind::Query, URI_QUERY, b'?', stores))
}

// How many characters the values of a number take, each behind one character more.
fn text_length<'a>(packet: Packet, kind: Kind, number: u16, stores: Stores<'a>) -> usize
    requires { Fit (held stores) packet }
    ensures { result ≡ length (behind (kind_of kind) (separator (kind_of kind)) (values number (options_in (held stores.entry) packet))) }
{
    let count = packet.count;
    let options = packet.options;
    let mut total = 0;
    for i in 0..count {
        let option = options[i];
        if option.number != number {
            continue;
        }
        let value = option.value(stores);
        total = total + 1 + value.len() + 2 * coded_count(kind, value);
    }
    total
}

// How many characters a path takes whose segments take so many: no segment is `/` alone.
fn path_length(segments: usize) -> usize
    ensures { result ≡ path_length segments }
{
    if segments == 0 {
        return 1;
    }
    segments
}

// Puts a path whose segments take so many characters.
fn put_path<'a>(out: &mut [u8], segments: usize, packet: Packet, stores: Stores<'a>) -> usize
    requires { Fit (held stores) packet × (segments ≡ length (behind segment (separator segment) (values 11 (options_in (held stores) packet)))) }
    ensures { Puts out.old 0 (path_text (values 11 (options_in (held stores.entry) packet))) result out.new }
{
    if segments == 0 {
        return put_byte(out, 0, b'/');
    }
    put_values(out, 0, packet, Kind::Segment, URI_PATH, b'/', stores)
}

// The character before a part that isn't the first.
fn separator(kind: Kind) -> u8
    ensures { result ≡ separator (kind_of kind) }
{
    match kind {
        Kind::Segment => b'/',
        Kind::Query => b'&',
    }
}

// Puts the values of a number as text, the first behind `first`, each other behind the separator.
fn put_values<'a>(
    out: &mut [u8],
    at: usize,
    packet: Packet,
    kind: Kind,
    number: u16,
    first: u8,
    stores: Stores<'a>,
) -> usize
    requires { Fit (held stores) packet }
    ensures { Puts out.old at (behind (kind_of kind) first (values number (options_in (held stores.entry) packet))) result out.new }
{
    let count = packet.count;
    let options = packet.options;
    let mut mark = first;
    let mut next = at;
    for i in 0..count {
        let option = options[i];
        if option.number != number {
            continue;
        }
        let value = option.value(stores);
        next = put_part(out, next, mark, kind, value);
        mark = separator(kind);
    }
    next
}

// Puts a value's text behind a character.
fn put_part(out: &mut [u8], at: usize, mark: u8, kind: Kind, value: &[u8]) -> usize
    ensures { Puts out.old at (mark ∷ code (kind_of kind) value.now) result out.new }
{
    let next = put_byte(out, at, mark);
    put_value(out, next, kind, value)
}
