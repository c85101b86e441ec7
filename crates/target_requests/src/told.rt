// What a text is read as, as words of an answer.
use output::Page;
use packet::{OptionRecord, Packet};
use raw_words::write_records;
use refusal::Fault;
use rooms::are_before;
use tables::option_number;
use telling::{write_fault, write_kept};
use words::part;

// Puts the records of the packet and the bytes that were put from the start on, or the refusal; then whether every other byte of the
// edit store is as it was.
pub fn write_read(page: &mut Page, read: Result<Packet, Fault>, edits: &[u8], start: usize) {
    match read {
        Ok(packet) => write_target(page, packet, edits, start),
        Err(fault) => {
            write_fault(page, fault);
            write_kept(page, are_before(edits, 0));
        }
    }
}

fn write_target(page: &mut Page, packet: Packet, edits: &[u8], start: usize) {
    let end = end_of(packet, start);
    page.text(b"target ");
    write_records(page, packet);
    page.hex(b" ", part(edits, start, end));
    let kept = are_before(part(edits, 0, start), 0) && are_before(edits, end);
    write_kept(page, kept);
}

// Where the values end that stand end to end from a start on: where the last query part does, or else the last segment.
fn end_of(packet: Packet, start: usize) -> usize {
    for number in [option_number::URI_QUERY, option_number::URI_PATH] {
        let count = packet.count_of(number);
        if 0 < count {
            return end(packet.record_of(number, count - 1));
        }
    }
    start
}

fn end(record: OptionRecord) -> usize {
    record.start as usize + record.len as usize
}
