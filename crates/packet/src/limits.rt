// The limits that the rules name, each once: the definitions of the same names stand in specs/Limits.antt.

// Datagram and store hold at most this many bytes.
pub const MAX_STORE: usize = 70000;

// The largest full-size message: a limit to be given by name, above Packet::MAX_SIZE and not made from it.
pub const FULL_SIZE: usize = 1280;

// A packet has up to this many option records.
pub const MAX_OPTIONS: usize = 128;

// The highest number of an option.
pub const MAX_NUMBER: usize = 65535;

// The longest value that can be written, and that strict reading takes.
pub const MAX_VALUE: u32 = 65804;

// The longest value that plain reading takes.
pub const MAX_PLAIN_VALUE: usize = 65535;

// The longest token whose length four bits hold.
pub const MAX_TOKEN: u32 = 15;
