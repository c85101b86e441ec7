// Packets, read from the words of a line.
use crate::homes::{EDITS, read_home};
use crate::shown::Held;
use class_words::read_header;
use packet::limits::MAX_OPTIONS;
use packet::{Home, OptionRecord, Packet, Range, Stores};
use words::{Given, Line, part, separator};

// A store that values are put into, one after another.
#[derive(Drop)]
struct Filling<'s> {
    home: Home,
    store: &'s mut [u8],
    end: usize,
}

impl<'s> Filling<'s> {
    fn new(home: Home, store: &'s mut [u8]) -> Filling<'s> {
        Filling {
            home,
            store,
            end: 0,
        }
    }

    // What was put.
    fn filled(self) -> &'s [u8] {
        let Filling { store, end, .. } = self;
        part(store, 0, end)
    }

    // Puts a value after those before it.
    fn put(&mut self, value: Given) -> Option<Range> {
        let start = self.end;
        self.end = value.put(self.store, start).ok()?;
        range(self.home, start, self.end)
    }
}

// Reads the words of a packet, whose token, values and payload go to the store.
pub fn read_packet<'s>(line: &mut Line, store: &'s mut [u8]) -> Option<Held<'s>> {
    let (datagram, edits) = store.split_at_mut_checked(EDITS)?;
    let mut datagram = Filling::new(Home::Datagram, datagram);
    let mut edits = Filling::new(Home::Edits, edits);
    let header = read_header(line)?;
    let token = read_value(line, b' ', &mut datagram, &mut edits)?;
    let options = read_options(line, &mut datagram, &mut edits)?;
    let records = options.records;
    let payload = read_value(line, b' ', &mut datagram, &mut edits)?;
    Some(Held {
        packet: Packet {
            header,
            token,
            count: options.count,
            options: records,
            payload,
        },
        stores: Stores {
            datagram: datagram.filled(),
            edits: edits.filled(),
        },
    })
}

// Reads a value into the store that its word names.
fn read_value(
    line: &mut Line,
    before: u8,
    datagram: &mut Filling,
    edits: &mut Filling,
) -> Option<Range> {
    let home = read_home(line, before)?;
    let value = line.bytes_here()?;
    match home {
        Home::Datagram => datagram.put(value),
        Home::Edits => edits.put(value),
    }
}

// The range between two places of a store.
pub fn range(home: Home, start: usize, end: usize) -> Option<Range> {
    Some(Range {
        home,
        start: u32::try_from(start).ok()?,
        len: u32::try_from(end.checked_sub(start)?).ok()?,
    })
}

// The records of some options, and how many the options are.
#[derive(Clone, Copy)]
struct Options {
    records: [OptionRecord; MAX_OPTIONS],
    count: usize,
}

// Reads a list of options. Those past the 128th are counted, and have no record.
fn read_options(line: &mut Line, datagram: &mut Filling, edits: &mut Filling) -> Option<Options> {
    let mut records = [OptionRecord::EMPTY; MAX_OPTIONS];
    if line.past(b" -").is_some() {
        return Some(Options { records, count: 0 });
    }
    for i in 0..line.len() {
        let number = line.number(separator(i))?;
        let value = read_value(line, b':', datagram, edits)?;
        if i < MAX_OPTIONS {
            records[i] = record(number, value);
        }
        if !line.is_at(b',') {
            return Some(Options {
                records,
                count: i + 1,
            });
        }
    }
    None
}

// The record of an option whose value lies in a range.
pub fn record(number: u16, value: Range) -> OptionRecord {
    OptionRecord {
        number,
        home: value.home,
        spare: 0,
        start: value.start,
        len: value.len,
    }
}
