// What C and Rust link: the functions of `ffi`, under their own names and by the C calling convention. Each calls the function of
// its name there, and promises what that one does.
#![tactic(auto)]

ghost use Rattle.std.specs.Prelude.{◌≡◌, [], length};
ghost use Rattle.refusal.specs.Answer.{after};
ghost use Rattle.packet.specs.Packet.{stores};
ghost use Rattle.reading.specs.Reading.{reading};
ghost use Rattle.writing.specs.Writing.{bytes_written};
ghost use Rattle.flat.specs.Flat.{flat};
ghost use Rattle.flat_writing.specs.FlatWriting.{packet_of, packet_over, copying};
ghost use Rattle.ffi.specs.Handed.{handed, number_in};
ghost use Rattle.ffi.specs.Copied.{length_in};

// The version of the flat form.
#[unsafe(no_mangle)]
pub extern "C" fn rickwinter_version() -> u32
    ensures { result ≡ 2 }
{
    ffi::rickwinter_version()
}

// Reads a datagram. 0: the packet's flat form stands at the start of the output. Else the refusal's number, and the output
// is as it was; 12 where it is too short.
#[unsafe(no_mangle)]
pub extern "C" fn rickwinter_v2_read(strict: bool, datagram: &[u8], out: &mut [u32]) -> u32
    ensures value { result ≡ number_in (handed (length out.old) (reading strict datagram.now)) }
    ensures out_after { out.new ≡ after (handed (length out.old) (reading strict datagram.now)) 0 (flat (packet_of (reading strict datagram.now))) out.old }
{
    ffi::rickwinter_v2_read(strict, datagram, out)
}

// Writes the packet of a flat form, which may stand at the start of a longer slice, over its two stores and without a limit.
// The length of what stands at the start of the output; or 4294967296 and the refusal's number, and the output is as it was.
// A store over 70,000 bytes, either of them, gives 10, and then what is no packet's flat form 11.
#[unsafe(no_mangle)]
pub extern "C" fn rickwinter_v2_write<'a>(
    strict: bool,
    packet: &[u32],
    datagram: &'a [u8],
    edits: &'a [u8],
    out: &mut [u8],
) -> u64
    ensures value { result ≡ length_in (copying strict (length out.old) (stores datagram.now edits.now) (packet_over (stores datagram.now edits.now) packet.now)) }
    ensures out_after { out.new ≡ after (copying strict (length out.old) (stores datagram.now edits.now) (packet_over (stores datagram.now edits.now) packet.now)) 0 (bytes_written strict (stores datagram.now edits.now) (packet_of (packet_over (stores datagram.now edits.now) packet.now))) out.old }
{
    ffi::rickwinter_v2_write(strict, packet, datagram, edits, out)
}

// Reads a datagram and writes its packet again, without a limit. The length of what stands at the start of the output; or
// 4294967296 and the refusal's number, and the output is as it was.
#[unsafe(no_mangle)]
pub extern "C" fn rickwinter_copy(strict: bool, datagram: &[u8], out: &mut [u8]) -> u64
    ensures value { result ≡ length_in (copying strict (length out.old) (stores datagram.now []) (reading strict datagram.now)) }
    ensures out_after { out.new ≡ after (copying strict (length out.old) (stores datagram.now []) (reading strict datagram.now)) 0 (bytes_written strict (stores datagram.now []) (packet_of (reading strict datagram.now))) out.old }
{
    ffi::rickwinter_copy(strict, datagram, out)
}
