// A packet as a row of numbers, its flat form: version, type, code byte, id, home, start and length of the token, home, start
// and length of the payload, count of records, and then number, home, start and length of each record.
#![tactic(auto)]

ghost use Rattle.std.specs.Prelude.{◌≡◌, ◌+◌, ◌*◌, ◌≤◌, length};
ghost use Rattle.std.proofs.lemmas.List.Edits.{sets};
ghost use Rattle.refusal.specs.Answer.{outcome, after};
ghost use Rattle.packet.specs.Packet.{records_of};
ghost use Rattle.flat.specs.Flat.{number_of_home, flat_head, flat_records, flat, putting};

use header::Header;
use packet::{Home, Packet, Range};
use refusal::Refusal;

// Puts the flat form of a packet at the start of the output. Where that has too little room it is as it was, and the answer
// NoRoom (12).
pub fn put_flat(out: &mut [u32], packet: Packet) -> Result<(), Refusal>
    ensures result_value { outcome result ≡ putting (length out.old) packet }
    ensures out_after { out.new ≡ after (putting (length out.old) packet) 0 (flat packet) out.old }
{
    let count = packet.option_count();
    if out.len() < 11 + 4 * count {
        return Err(Refusal::NoRoom);
    }
    put_head(out, packet.header, packet.token, packet.payload, count);
    put_records(out, packet, count);
    Ok(())
}

// The numbers before the records.
fn put_head(out: &mut [u32], header: Header, token: Range, payload: Range, count: usize)
    requires { (11 ≤ length out.old) × (count ≤ 128) }
    ensures { out.new ≡ sets out.old 0 (flat_head header token payload count) }
{
    let message_type = header.message_type;
    let code = header.code;
    let token_home = token.home;
    let payload_home = payload.home;
    out[0] = header.version as u32;
    out[1] = message_type.to_number() as u32;
    out[2] = code.to_byte() as u32;
    out[3] = header.message_id as u32;
    out[4] = number_of_home(token_home);
    out[5] = token.start;
    out[6] = token.len;
    out[7] = number_of_home(payload_home);
    out[8] = payload.start;
    out[9] = payload.len;
    out[10] = count as u32;
}

// Number, home, start and length of each record.
fn put_records(out: &mut [u32], packet: Packet, count: usize)
    requires { (count ≡ length (records_of packet)) × (11 + 4 * count ≤ length out.old) }
    ensures { out.new ≡ sets out.old 11 (flat_records (records_of packet)) }
{
    for i in 0..count {
        let record = packet.options[i];
        let home = record.home;
        let at = 11 + 4 * i;
        out[at] = record.number as u32;
        out[at + 1] = number_of_home(home);
        out[at + 2] = record.start;
        out[at + 3] = record.len;
    }
}

// The number that stands for a home.
fn number_of_home(home: Home) -> u32
    ensures { result ≡ number_of_home home }
{
    match home {
        Home::Datagram => 0,
        Home::Edits => 1,
    }
}
