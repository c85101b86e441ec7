// Records of a packet replaced by new ones: what every edit of options does, once it knows between which places.
#![tactic(auto)]

ghost use Rattle.std.specs.Prelude.{◌≡◌, map, ◌/◌, length};
ghost use Rattle.packet.specs.Packet.{records_of};
ghost use Rattle.splicing.specs.Edited.{Edits};
ghost use Rattle.splicing.specs.Splice.{with_records, roomy, record_of, home_of, ranges_in, homeless, homed, spliced, Fits};

use packet::limits::MAX_OPTIONS;
use packet::{Home, OptionRecord, Packet};
use refusal::Refusal;

// The packet with the records of ranges in the place of those from `low` up to `high`, where there is room for them. The ranges
// are numbers in threes, a home, a start and a length; numbers left over at the end name none. The homes are judged before the
// room.
pub fn spliced(
    packet: Packet,
    low: usize,
    high: usize,
    number: u16,
    ranges: &[u32],
) -> Result<Packet, Refusal>
    ensures { Edits packet (homed ranges.now (λ new. roomy packet (spliced low high (map (record_of number) new) (records_of packet)))) result }
{
    if homeless(ranges) {
        return Err(Refusal::BadRecord);
    }
    let used = packet.option_count();
    let from = low.min(used);
    let to = high.min(used);
    let count = from + ranges.len() / 3 + (used - to);
    if MAX_OPTIONS < count {
        return Err(Refusal::TooManyOptions);
    }
    Ok(filled(packet, from, to, count, number, ranges))
}

// The same, where there is room: each place gets its record, an old one from before the splice, a new one, or an old one from
// after it.
fn filled(
    mut packet: Packet,
    low: usize,
    high: usize,
    count: usize,
    number: u16,
    ranges: &[u32],
) -> Packet
    requires { Fits packet low high (length ranges.now / 3) count }
    ensures { result ≡ with_records packet (spliced low high (map (record_of number) (ranges_in ranges.now)) (records_of packet)) }
{
    // Taken out by itself: an index into the packet's own array would have the whole packet copied.
    let options = packet.options;
    let end = low + ranges.len() / 3;
    let mut records = [OptionRecord::EMPTY; MAX_OPTIONS];
    for i in 0..count {
        if i < low {
            records[i] = options[i];
        } else if i < end {
            let at = (i - low) * 3;
            let home = home_of(ranges[at]);
            records[i] = OptionRecord {
                number,
                home,
                spare: 0,
                start: ranges[at + 1],
                len: ranges[at + 2],
            };
        } else {
            records[i] = options[high + (i - end)];
        }
    }
    packet.count = count;
    packet.options = records;
    packet
}

// The home that a number stands for, 0 or 1.
fn home_of(number: u32) -> Home
    ensures { result ≡ home_of number }
{
    if number == 0 {
        return Home::Datagram;
    }
    Home::Edits
}

// Whether the home of some range is a number that stands for no store.
fn homeless(ranges: &[u32]) -> bool
    ensures { result ≡ homeless ranges.now }
{
    for i in 0..ranges.len() / 3 {
        if 1 < ranges[i * 3] {
            return true;
        }
    }
    false
}
