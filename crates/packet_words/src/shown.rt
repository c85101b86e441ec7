// Packets as words of an answer.
use class_words::write_header;
use output::Page;
use packet::{Packet, Stores};

// A packet over its two stores.
#[derive(Clone, Copy)]
pub struct Held<'a> {
    pub packet: Packet,
    pub stores: Stores<'a>,
}

// Puts a packet: its header with the code byte, its token, options and payload.
pub fn write_packet(page: &mut Page, held: Held) {
    let packet = held.packet;
    page.text(b"packet");
    write_header(page, packet.header);
    page.hex(b" ", packet.get_token(held.stores));
    page.byte(b' ');
    write_options(page, held);
    page.hex(b" ", packet.get_payload(held.stores));
}

// Puts the options. Raw ones can have one long value again and again, so the output is spilled on the way.
fn write_options(page: &mut Page, held: Held) {
    let packet = held.packet;
    let count = packet.option_count();
    if count == 0 {
        return page.byte(b'-');
    }
    for i in 0..count {
        page.spill();
        page.separator(i);
        if let Some(number) = packet.option_number(i) {
            page.number(b"", number as u64);
            page.hex(b":", packet.option_value(held.stores, i));
        }
    }
}
