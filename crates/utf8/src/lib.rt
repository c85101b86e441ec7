// UTF-8 text: the bytes are judged one by one, by the row of the grammar that a first byte has (RFC 3629, section 4).
#![tactic(auto)]

ghost use Rattle.std.specs.Prelude.{◌≡◌};
ghost use Rattle.utf8.specs.Walk.{text, lead};
ghost use Rattle.utf8.specs.Row.{led_by, left_due, LeftDue};

// What is due of a character: a count of further bytes, and the lowest and the highest that the next of them may be.
#[derive(Clone, Copy)]
pub struct Due {
    pub count: u8,
    pub low: u8,
    pub high: u8,
}

// What a byte calls for that begins a character; none where it begins no character.
pub fn lead_of(b: u8) -> Option<Due>
    ensures { result ≡ led_by (lead b) }
{
    match b {
        0x00..=0x7F => Some(Due::new(0, 0x80, 0xBF)),
        0xC2..=0xDF => Some(Due::new(1, 0x80, 0xBF)),
        0xE0 => Some(Due::new(2, 0xA0, 0xBF)),
        0xE1..=0xEC => Some(Due::new(2, 0x80, 0xBF)),
        0xED => Some(Due::new(2, 0x80, 0x9F)),
        0xEE..=0xEF => Some(Due::new(2, 0x80, 0xBF)),
        0xF0 => Some(Due::new(3, 0x90, 0xBF)),
        0xF1..=0xF3 => Some(Due::new(3, 0x80, 0xBF)),
        0xF4 => Some(Due::new(3, 0x80, 0x8F)),
        _ => None,
    }
}

impl Due {
    fn new(count: u8, low: u8, high: u8) -> Due
        ensures { result ≡ record { count = count; low = low; high = high } }
    {
        Due { count, low, high }
    }

    // What the byte leaves due that comes next; none where it isn't the one that is due.
    pub fn after(self, b: u8) -> Option<Due>
        ensures value { result ≡ left_due self b }
        ensures text { LeftDue self b result }
    {
        if self.count == 0 {
            return lead_of(b);
        }
        if b < self.low || self.high < b {
            return None;
        }
        Some(Due::new(self.count - 1, 0x80, 0xBF))
    }
}

// Whether the bytes are UTF-8 text.
pub fn is_text(value: &[u8]) -> bool
    ensures { result ≡ text value.now }
{
    let mut due = Due::new(0, 0x80, 0xBF);
    for b in value {
        let Some(left) = due.after(*b) else {
            return false;
        };
        due = left;
    }
    due.count == 0
}
