// Raw packets, read from the words of a line.
use class_words::read_header;
use packet::limits::MAX_OPTIONS;
use packet::{OptionRecord, Packet, Range, Stores};
use packet_words::{EDITS, Held, read_home, record};
use words::{Line, separator};

// Reads START+LENGTH, with the mark of its store before it.
pub fn read_range(line: &mut Line, before: u8) -> Option<Range> {
    Some(Range {
        home: read_home(line, before)?,
        start: line.number_here(u64::MAX)?,
        len: line.number(b'+')?,
    })
}

// A raw packet, and its datagram. Its edit store stands beside it, since what is lent to be written can't be copied.
#[derive(Clone, Copy)]
pub struct Raw<'s> {
    pub packet: Packet,
    pub datagram: &'s [u8],
}

impl<'s> Raw<'s> {
    // The packet over its two stores, of which the edit store is given.
    pub fn held(&self, edits: &'s [u8]) -> Held<'s> {
        Held {
            packet: self.packet,
            stores: Stores {
                datagram: self.datagram,
                edits,
            },
        }
    }
}

// Reads the words of a raw packet, and answers its edit store beside it.
pub fn read_raw<'s>(line: &mut Line, store: &'s mut [u8]) -> Option<(Raw<'s>, &'s mut [u8])> {
    let (datagram, edits) = store.split_at_mut_checked(EDITS)?;
    let header = read_header(line)?;
    let datagram = line.stored(datagram)?;
    let size = line.bytes(b' ')?.put(edits, 0).ok()?;
    let token = read_range(line, b' ')?;
    let options = read_records(line)?;
    let count = line.number(b' ')?;
    let payload = read_range(line, b' ')?;
    let raw = Raw {
        packet: Packet {
            header,
            token,
            count,
            options,
            payload,
        },
        datagram,
    };
    Some((raw, edits.get_mut(..size)?))
}

// Reads a list of records, NUMBER@RANGE with commas between, of which there are at most 128.
fn read_records(line: &mut Line) -> Option<[OptionRecord; MAX_OPTIONS]> {
    let mut records = [OptionRecord::EMPTY; MAX_OPTIONS];
    if line.past(b" -").is_some() {
        return Some(records);
    }
    for i in 0..MAX_OPTIONS {
        let number = line.number(separator(i))?;
        let value = read_range(line, b'@')?;
        records[i] = record(number, value);
        if !line.is_at(b',') {
            return Some(records);
        }
    }
    None
}
