// Raw packets as words of an answer.
use output::Page;
use packet::{Home, OptionRecord, Packet, Range};
use packet_words::Held;

// Puts what comes after a raw packet's header: its stores, token, records, count and payload.
pub fn write_raw(page: &mut Page, held: Held) {
    let packet = held.packet;
    write_store(page, held.stores.datagram);
    write_store(page, held.stores.edits);
    write_range(page, b' ', packet.token);
    page.byte(b' ');
    write_records(page, packet);
    page.number(b" ", packet.count as u64);
    write_range(page, b' ', packet.payload);
}

fn write_store(page: &mut Page, store: &[u8]) {
    if !store.is_empty() && store.iter().all(|byte| *byte == 0) {
        return page.number(b" zeros:", store.len() as u64);
    }
    page.hex(b" ", store);
}

fn write_range(page: &mut Page, before: u8, range: Range) {
    page.byte(before);
    match range.home {
        Home::Datagram => {}
        Home::Edits => page.text(b"e:"),
    }
    page.number(b"", range.start as u64);
    page.number(b"+", range.len as u64);
}

// Puts the records up to the last that is not empty.
pub fn write_records(page: &mut Page, packet: Packet) {
    let Some(last) = packet.options.iter().rposition(is_filled) else {
        return page.byte(b'-');
    };
    for (i, record) in packet.options.iter().enumerate() {
        if i <= last {
            page.separator(i);
            page.number(b"", record.number as u64);
            write_range(page, b'@', record.range());
        }
    }
}

// Whether a record is not the empty one.
fn is_filled(record: &OptionRecord) -> bool {
    record.home == Home::Edits || record.number != 0 || record.start != 0 || record.len != 0
}
