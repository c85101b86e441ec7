// The content format and Observe of a packet: what their options say, and setting them (packet.rs).
#![tactic(auto)]

ghost use Rattle.rfc.specs.Uint.{uint};
ghost use Rattle.refusal.specs.Answer.{answered};
ghost use Rattle.packet.specs.Packet.{held};
ghost use Rattle.packet.specs.declared.Packet.{Packet};
ghost use Rattle.splicing.specs.Edited.{edited};
ghost use Rattle.typed_options.specs.Getters.{GetsFormat, GetsObserve};
ghost use Rattle.typed_options.specs.Setters.{Sets, storing, format_set, observe_set};

use editing::{add_option, set_option};
use option_value::{OptionValueU16, OptionValueU32};
use packet::limits::MAX_STORE;
use packet::{Home, Packet, Range, Stores};
use placing::{put_uint, uint_length};
use refusal::Refusal;
use tables::option_number;

// Sets the content format: adds an option whose value is written into the edit store from a start.
pub fn set_content_format(
    packet: Packet,
    edits: &mut [u8],
    start: u32,
    format: u16,
) -> Result<Packet, Refusal>
    ensures { Sets packet (format_set edits.old start packet format) start (uint 2 format) edits.old result edits.new }
{
    let value = format as u64;
    let len = uint_length(value) as u32;
    let edit = add_option(
        packet,
        option_number::CONTENT_FORMAT,
        Range {
            home: Home::Edits,
            start,
            len,
        },
    );
    put_value(edit, edits, start, value)
}

// The content format of a packet: a listed one, or none. Beside either stands how many leading zero bytes were read, which
// is 0 where there was no value, or one of more than two bytes.
#[derive(Clone, Copy)]
pub struct ContentFormat {
    pub format: Option<u16>,
    pub zeros: usize,
}

impl ContentFormat {
    // No content format, and no zeros.
    const NONE: ContentFormat = ContentFormat {
        format: None,
        zeros: 0,
    };
}

// Reads the content format; only the first counts.
pub fn get_content_format<'a>(packet: Packet, stores: Stores<'a>) -> ContentFormat
    ensures { GetsFormat (held stores.entry) packet result }
{
    if !packet.has_option(option_number::CONTENT_FORMAT) {
        return ContentFormat::NONE;
    }
    let value = packet.get_first_option(stores, option_number::CONTENT_FORMAT);
    match OptionValueU16::try_from(value) {
        Err(_) => ContentFormat::NONE,
        Ok(read) => {
            let number = read.value.0;
            let format = tables::is_content_format(number).then_some(number);
            ContentFormat {
                format,
                zeros: read.zeros,
            }
        }
    }
}

// Sets the value of Observe: one option, whose value is written into the edit store from a start, replaces those that there
// are.
pub fn set_observe_value(
    packet: Packet,
    edits: &mut [u8],
    start: u32,
    value: u32,
) -> Result<Packet, Refusal>
    ensures { Sets packet (observe_set edits.old start packet value) start (uint 4 value) edits.old result edits.new }
{
    let wide = value as u64;
    let len = uint_length(wide) as u32;
    // The home of the range is 1, the edit store.
    let edit = set_option(packet, option_number::OBSERVE, &[1, start, len]);
    put_value(edit, edits, start, wide)
}

// The value of Observe in a packet, with how many leading zero bytes were read.
#[derive(Clone, Copy)]
pub struct Observe {
    pub value: u32,
    pub zeros: usize,
}

// Reads the value of Observe, where there is one; only the first counts.
pub fn get_observe_value<'a>(packet: Packet, stores: Stores<'a>) -> Result<Option<Observe>, Refusal>
    ensures { GetsObserve (held stores.entry) packet result }
{
    if !packet.has_option(option_number::OBSERVE) {
        return Ok(None);
    }
    let read = OptionValueU32::try_from(packet.get_first_option(stores, option_number::OBSERVE))?;
    Ok(Some(Observe {
        value: read.value.0,
        zeros: read.zeros,
    }))
}

// An edit of a packet whose new value is put into the edit store from a start. The store's length is judged before the edit's
// own answer counts, and the room for the value after it.
fn put_value(
    edit: Result<Packet, Refusal>,
    edits: &mut [u8],
    start: u32,
    value: u64,
) -> Result<Packet, Refusal>
    ensures { (packet : Packet) → Sets packet (storing edits.old start (uint 8 value) (answered (edited packet edit))) start (uint 8 value) edits.old result edits.new }
{
    if MAX_STORE < edits.len() {
        return Err(Refusal::TooLong);
    }
    let edit = edit?;
    let at = start as usize;
    if edits.len() < at + uint_length(value) {
        return Err(Refusal::NoRoom);
    }
    put_uint(edits, at, value);
    Ok(edit)
}
