// The request to check a packet by the register.
use output::Page;
use packet_words::{Held, read_packet};
use telling::write_fault;
use words::Line;

// register PACKET
pub fn answer(line: &mut Line, store: &mut [u8], page: &mut Page) -> Option<()> {
    let held = read_packet(line, store)?;
    line.finished()?;
    write_check(page, held);
    Some(())
}

// Puts what the register's check of a packet answers: a letter for each record.
pub fn write_check(page: &mut Page, held: Held) {
    match register::check(held.packet, held.stores) {
        Ok(kept) => {
            page.text(b"passes ");
            let count = held.packet.option_count();
            if count == 0 {
                page.byte(b'-');
            }
            for kept in kept.iter().take(count) {
                page.byte(letter(*kept));
            }
        }
        Err(fault) => write_fault(page, fault),
    }
}

// k for a record that is kept, p for one that is passed over.
fn letter(kept: bool) -> u8 {
    if kept { b'k' } else { b'p' }
}
