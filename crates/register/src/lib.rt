// The register of options: what an option's number says, and the check of a packet's options.
#![tactic(auto)]

ghost use Rattle.std.specs.Prelude.{◌≡◌, Bool, [], ◌≤◌};
ghost use Rattle.rfc.specs.Option.{critical, unsafe, no_cache_key};
ghost use Rattle.packet.specs.Packet.{held, records_of};
ghost use Rattle.packet.specs.Limits.{max_options};
ghost use Rattle.judging.specs.Judge.{lengths_of, falling};
ghost use Rattle.register.specs.Check.{checked, fates, sorted, Checks};

use judging::Lengths;
use packet::limits::MAX_OPTIONS;
use packet::{Packet, Stores};
use refusal::{Fault, Refusal};
use row::is_recognised;

mod row;

// Whether an endpoint that does not recognise the option must refuse the message.
pub fn is_critical(number: u16) -> bool
    ensures { result ≡ critical number }
{
    number % 2 == 1
}

// Whether a proxy that does not recognise the option must not forward it.
pub fn is_unsafe(number: u16) -> bool
    ensures { result ≡ unsafe number }
{
    2 <= number % 4
}

// Whether the option is no part of a cache key.
pub fn is_no_cache_key(number: u16) -> bool
    ensures { result ≡ no_cache_key number }
{
    number % 32 == 28 || number % 32 == 29
}

// Checks the options of a packet over its stores, and says of each place of the array whether the record there is kept. The other
// records of a packet that passes are passed over. The first critical record that isn't recognised is a bad option.
pub fn check(packet: Packet, stores: Stores) -> Result<[bool; MAX_OPTIONS], Fault>
    ensures { Checks (lengths_of (held stores.entry)) packet result }
{
    let lengths = Lengths::of(stores);
    if lengths.too_long() {
        return Err(Fault::Refused(Refusal::TooLong));
    }
    judging::judge(packet, lengths)?;
    sort(packet)
}

// Keeps each record that is recognised, and refuses the first other one that is critical. Since the numbers never fall, a kept
// record has a record's number exactly when the last one kept has; 0, which stands for none, is in no row.
fn sort(packet: Packet) -> Result<[bool; MAX_OPTIONS], Fault>
    requires { (packet.count ≤ max_options) × (falling 0 (records_of packet) ≡ Bool.false) }
    ensures { checked result ≡ sorted (fates [] (records_of packet)) }
{
    let mut kept = [false; MAX_OPTIONS];
    let mut last: u16 = 0;
    for (i, option) in packet.options[..packet.count].iter().enumerate() {
        if is_recognised(*option, option.number == last) {
            kept[i] = true;
            last = option.number;
        } else if is_critical(option.number) {
            return Err(Fault::BadOption(i));
        }
    }
    Ok(kept)
}
