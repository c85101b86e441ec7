// The request to write a packet.
use crate::limits::read_limit;
use output::Page;
use packet_words::{Held, read_packet};
use refusal::Refusal;
use telling::write_written;
use words::Line;
use writing::Limit;

// write LIMIT ROOM PACKET
pub fn answer(
    strict: bool,
    line: &mut Line,
    store: &mut [u8],
    room: &mut [u8],
    page: &mut Page,
) -> Option<()> {
    let limit = read_limit(line)?;
    let room = line.room(room)?;
    let held = read_packet(line, store)?;
    line.finished()?;
    write_written(page, write(strict, limit, held, room), room);
    Some(())
}

// Writes a packet, by the function for its mode and limit.
pub fn write(strict: bool, limit: Limit, held: Held, room: &mut [u8]) -> Result<usize, Refusal> {
    let Held { packet, stores } = held;
    match (limit, strict) {
        (Limit::Default, false) => writing::to_bytes(packet, stores, room),
        (Limit::Default, true) => writing::to_bytes_strict(packet, stores, room),
        (Limit::Given(most), false) => { writing::to_bytes_with_limit(packet, most, stores, room) }
        (Limit::Given(most), true) => {
            writing::to_bytes_with_limit_strict(packet, most, stores, room)
        }
        (Limit::Unlimited, false) => writing::to_bytes_unlimited(packet, stores, room),
        (Limit::Unlimited, true) => { writing::to_bytes_unlimited_strict(packet, stores, room) }
    }
}
