// The request to read a datagram.
use output::Page;
use packet::Stores;
use packet_words::{Held, write_packet};
use telling::write_refused;
use words::Line;

// read HEX
pub fn read(strict: bool, line: &mut Line, store: &mut [u8], page: &mut Page) -> Option<()> {
    let datagram = line.stored(store)?;
    line.finished()?;
    match reading::from_bytes_in(strict, datagram) {
        Ok(packet) => {
            let held = Held {
                packet,
                stores: Stores::of(datagram),
            };
            write_packet(page, held);
        }
        Err(why) => write_refused(page, why),
    }
    Some(())
}
