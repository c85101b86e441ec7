// Reads one datagram from standard input, strict, and writes its lines to standard output.
#![tactic(auto)]

ghost use Rattle.std.specs.Prelude.{◌≡◌, ◌≤◌, length, take};
ghost use Rattle.listing.specs.Listing.{listing};

use refusal::Refusal;
use reports::Failure;

// Puts the lines of a datagram at the start of the output, which has room for those of every datagram, and answers how many
// bytes they are.
fn list(datagram: &[u8], out: &mut [u8; 135000]) -> usize
    ensures prefix_len { (result ≤ length out.new) × (result ≡ length (take result out.new)) }
    ensures out_after { take result out.new ≡ listing datagram.now }
{
    if 65535 < datagram.len() {
        return lines::put_refusal(out, 0, Refusal::TooLong, b'\n');
    }
    lines::put_decoded(
        out,
        0,
        reading::from_bytes_strict(datagram),
        datagram,
        b'\n',
    )
}

fn main(rt: HostRuntime) {
    reports::end(&rt, show(&rt));
}

// There is room for one byte more than a datagram may have, which is how a longer one is known.
fn show(rt: &HostRuntime) -> Result<(), Failure> {
    let mut room = [0u8; 65536];
    let datagram = reread::beginning(rt, &mut room)?;
    let mut out = [0u8; 135000];
    let count = list(datagram, &mut out);
    reports::write(rt.stdout(), &out[..count])
}
