// A packet: a header, and the token, option values and payload as ranges of two lent stores of bytes, the datagram and the
// edit store (packet.rs).
#![tactic(auto)]

ghost use Rattle.std.specs.Prelude.{◌≡◌, length, get_or, ltb, []};
ghost use Rattle.packet.specs.Packet.{new_packet, none, chosen, stores, held, bytes_in, place_in, bytes_of, place_of, range_of, value_of, records_of, of_number, number_at};

use header::Header;
use limits::MAX_OPTIONS;

pub mod limits;

// The store that a range lies in.
#[derive(Clone, Copy, Debug, PartialEq, Eq)]
pub enum Home {
    Datagram,
    Edits,
}

impl Home {
    // The store that the home names.
    fn store<'a>(self, stores: Stores<'a>) -> &'a [u8]
        ensures { result ≡ chosen self stores.entry.datagram stores.entry.edits }
    {
        match self {
            Home::Datagram => stores.datagram,
            Home::Edits => stores.edits,
        }
    }
}

// The two stores that the ranges of a packet lie in.
#[derive(Clone, Copy)]
pub struct Stores<'a> {
    pub datagram: &'a [u8],
    pub edits: &'a [u8],
}

impl<'a> Stores<'a> {
    // Those of a packet that was read, which needs no edit store.
    pub fn of(datagram: &'a [u8]) -> Stores<'a>
        ensures bytes { held result ≡ stores datagram.now [] }
        ensures place { result.datagram.ref_ptr ≡ datagram.entry.ref_ptr }
    {
        Stores {
            datagram,
            edits: b"",
        }
    }
}

// A range of the store that it names.
#[derive(Clone, Copy)]
pub struct Range {
    pub home: Home,
    pub start: u32,
    pub len: u32,
}

// An option: its number, and its value as a range. The spare field fills the record to three words, so that an array of
// records is cleared and copied in one go; it is 0 in every record that is made here.
#[derive(Clone, Copy)]
pub struct OptionRecord {
    pub number: u16,
    pub home: Home,
    pub spare: u8,
    pub start: u32,
    pub len: u32,
}

#[derive(Clone, Copy)]
pub struct Packet {
    pub header: Header,
    pub token: Range,
    pub count: usize,
    pub options: [OptionRecord; MAX_OPTIONS],
    pub payload: Range,
}

impl OptionRecord {
    // The record of no option: what stands in the array past the count.
    pub const EMPTY: OptionRecord = OptionRecord {
        number: 0,
        home: Home::Datagram,
        spare: 0,
        start: 0,
        len: 0,
    };
}

impl Range {
    // The range of no bytes.
    pub const NOWHERE: Range = Range {
        home: Home::Datagram,
        start: 0,
        len: 0,
    };

    // The bytes that the range names, as a part of the store that it lies in; none where it is not inside that store.
    pub fn part<'a>(self, stores: Stores<'a>) -> &'a [u8]
        ensures result_value { result.now ≡ bytes_of (held stores.entry) self }
        ensures ref_ptr_value { result.ref_ptr ≡ place_of stores.entry.datagram.ref_ptr stores.entry.edits.ref_ptr (held stores.entry) self }
    {
        let home = self.home;
        let store = home.store(stores);
        part_in(store, self.start, self.len)
    }
}

// So many bytes from a start in one store; none where they are not inside it.
fn part_in(store: &[u8], start: u32, len: u32) -> &[u8]
    ensures result_value { result.now ≡ bytes_in store.now start len }
    ensures ref_ptr_value { result.ref_ptr ≡ place_in store.entry.ref_ptr (length store.now) start len }
{
    let first = start as usize;
    let end = first + len as usize;
    if store.len() < end {
        return &store[0..0];
    }
    &store[first..end]
}

impl OptionRecord {
    // The range of the option's value.
    pub fn range(self) -> Range
        ensures { result ≡ range_of self }
    {
        let home = self.home;
        Range {
            home,
            start: self.start,
            len: self.len,
        }
    }

    // The option's value, as a part of its store.
    pub fn value<'a>(self, stores: Stores<'a>) -> &'a [u8]
        ensures result_value { result.now ≡ value_of (held stores.entry) self }
        ensures ref_ptr_value { result.ref_ptr ≡ place_of stores.entry.datagram.ref_ptr stores.entry.edits.ref_ptr (held stores.entry) (range_of self) }
    {
        let range = self.range();
        range.part(stores)
    }
}

impl Packet {
    // The largest message that is written by default (RFC 7252, section 4.6).
    pub const MAX_SIZE: usize = 1152;

    // Version 1, confirmable, GET, id 0, and all else empty.
    pub fn new() -> Packet
        ensures { result ≡ new_packet }
    {
        Packet {
            header: Header::new(),
            token: Range::NOWHERE,
            count: 0,
            options: [OptionRecord::EMPTY; MAX_OPTIONS],
            payload: Range::NOWHERE,
        }
    }

    // The token, as a part of its store.
    pub fn get_token<'a>(self, stores: Stores<'a>) -> &'a [u8]
        ensures result_value { result.now ≡ bytes_of (held stores.entry) self.token }
        ensures ref_ptr_value { result.ref_ptr ≡ place_of stores.entry.datagram.ref_ptr stores.entry.edits.ref_ptr (held stores.entry) self.token }
    {
        let token = self.token;
        token.part(stores)
    }

    // The payload, as a part of its store.
    pub fn get_payload<'a>(self, stores: Stores<'a>) -> &'a [u8]
        ensures result_value { result.now ≡ bytes_of (held stores.entry) self.payload }
        ensures ref_ptr_value { result.ref_ptr ≡ place_of stores.entry.datagram.ref_ptr stores.entry.edits.ref_ptr (held stores.entry) self.payload }
    {
        let payload = self.payload;
        payload.part(stores)
    }

    // The records in use; a count over 128 reads as 128.
    fn records(&self) -> &[OptionRecord]
        ensures { result.now ≡ records_of self.now }
    {
        &self.options[..self.count.min(MAX_OPTIONS)]
    }

    // How many options there are.
    pub fn option_count(self) -> usize
        ensures { result ≡ length (records_of self) }
    {
        self.records().len()
    }

    // The record of the option at an index; the empty record past the last.
    fn record_at(self, n: usize) -> OptionRecord
        ensures { result ≡ get_or (records_of self) n none }
    {
        match self.records().get(n) {
            Some(record) => *record,
            None => OptionRecord::EMPTY,
        }
    }

    // The number of the option at an index, if there is such an option.
    pub fn option_number(self, n: usize) -> Option<u16>
        ensures { result ≡ number_at (records_of self) n }
    {
        self.records().get(n).map(|record| record.number)
    }

    // The value of the option at an index, as a part of its store.
    pub fn option_value<'a>(self, stores: Stores<'a>, n: usize) -> &'a [u8]
        ensures result_value { result.now ≡ value_of (held stores.entry) (get_or (records_of self) n none) }
        ensures ref_ptr_value { result.ref_ptr ≡ place_of stores.entry.datagram.ref_ptr stores.entry.edits.ref_ptr (held stores.entry) (range_of (get_or (records_of self) n none)) }
    {
        let record = self.record_at(n);
        record.value(stores)
    }

    // How many options have the number.
    pub fn count_of(self, number: u16) -> usize
        ensures { result ≡ length (of_number number (records_of self)) }
    {
        self.records()
            .iter()
            .filter(|record| record.number == number)
            .count()
    }

    // Whether an option has the number.
    pub fn has_option(self, number: u16) -> bool
        ensures { result ≡ ltb 0 (length (of_number number (records_of self))) }
    {
        0 < self.count_of(number)
    }

    // The record of the n-th option of a number, counted from 0; the empty record where there is none.
    pub fn record_of(self, number: u16, n: usize) -> OptionRecord
        ensures { result ≡ get_or (of_number number (records_of self)) n none }
    {
        let mut left = n;
        for record in self.records() {
            if record.number == number {
                if left == 0 {
                    return *record;
                }
                left -= 1;
            }
        }
        OptionRecord::EMPTY
    }

    // The n-th value of a number, counted from 0, as a part of its store.
    pub fn get_option<'a>(self, stores: Stores<'a>, number: u16, n: usize) -> &'a [u8]
        ensures result_value { result.now ≡ value_of (held stores.entry) (get_or (of_number number (records_of self)) n none) }
        ensures ref_ptr_value { result.ref_ptr ≡ place_of stores.entry.datagram.ref_ptr stores.entry.edits.ref_ptr (held stores.entry) (range_of (get_or (of_number number (records_of self)) n none)) }
    {
        let record = self.record_of(number, n);
        record.value(stores)
    }

    // The first value of a number, as a part of its store.
    pub fn get_first_option<'a>(self, stores: Stores<'a>, number: u16) -> &'a [u8]
        ensures result_value { result.now ≡ value_of (held stores.entry) (get_or (of_number number (records_of self)) 0 none) }
        ensures ref_ptr_value { result.ref_ptr ≡ place_of stores.entry.datagram.ref_ptr stores.entry.edits.ref_ptr (held stores.entry) (range_of (get_or (of_number number (records_of self)) 0 none)) }
    {
        self.get_option(stores, number, 0)
    }
}
