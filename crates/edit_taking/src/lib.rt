// The steps of edit scripts, taken.
#![tactic(auto)]

use edit_steps::Step;
use header::Header;
use packet::Packet;
use refusal::Refusal;

// Takes a step that changes a packet. One that doesn't leaves it.
pub fn take(packet: Packet, step: Step, edits: &mut [u8]) -> Result<Packet, Refusal> {
    let header = packet.header;
    match step {
        Step::Add { number, value } => editing::add_option(packet, number, value),
        Step::Set { number, values } => editing::set_option(packet, number, values.numbers()),
        Step::Clear(number) => editing::clear_option(packet, number),
        Step::ClearAll => editing::clear_all_options(packet),
        Step::ContentFormat { format, start } => {
            typed_options::set_content_format(packet, edits, start, format)
        }
        Step::Observe { value, start } => {
            typed_options::set_observe_value(packet, edits, start, value)
        }
        Step::Token(value) => editing::set_token(packet, value),
        Step::Payload(value) => editing::set_payload(packet, value),
        Step::Version(version) => Ok(with_header(packet, header.set_version(version))),
        Step::Type(message_type) => Ok(with_header(packet, header.set_type(message_type))),
        Step::Class(class) => Ok(with_header(packet, header.set_class(class))),
        Step::Id(id) => Ok(with_header(packet, header.set_message_id(id))),
        Step::Ask | Step::Compact => Ok(packet),
    }
}

fn with_header(mut packet: Packet, header: Header) -> Packet {
    packet.header = header;
    packet
}
