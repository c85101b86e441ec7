// The message header: the four bytes on the wire, and its fields.
#![tactic(auto)]

ghost use Rattle.std.specs.Prelude.{◌≡◌, length};
ghost use Rattle.refusal.specs.Answer.{written, fitted, after, beside};
ghost use Rattle.header.specs.Header.{number_of_type, type_of, new_raw, version_of, token_of, raw_bytes, raw_in, raw_read, new_header, header_of, raw_of, with_version, with_type, with_class, with_id, with_code, setting_of, code_output};

use class::{MessageClass, RequestType};
use refusal::Refusal;

// The raw byte header representation, useful for encoding/decoding directly.
#[derive(Clone, Copy)]
pub struct HeaderRaw {
    pub ver_type_tkl: u8,
    pub code: u8,
    pub message_id: u16,
}

impl HeaderRaw {
    // The default raw header.
    pub fn new() -> HeaderRaw
        ensures { result ≡ new_raw }
    {
        HeaderRaw {
            ver_type_tkl: 0x40, // version: 1, type: Confirmable, TKL: 0
            code: 0x01, // GET
            message_id: 0,
        }
    }

    // The version: the high two bits of the first byte.
    pub fn version(self) -> u8
        ensures { result ≡ version_of self }
    {
        self.ver_type_tkl / 64
    }

    // The length of the token: the low four bits of the first byte.
    pub fn token_length(self) -> u8
        ensures { result ≡ token_of self }
    {
        self.ver_type_tkl % 16
    }

    // Writes the header to the start of the given buffer.
    pub fn serialize_into(self, out: &mut [u8]) -> Result<usize, Refusal>
        ensures result_value { written result ≡ fitted (length out.old) (raw_bytes self) }
        ensures out_after { out.new ≡ after (fitted (length out.old) (raw_bytes self)) 0 (raw_bytes self) out.old }
    {
        let bytes = [
            self.ver_type_tkl,
            self.code,
            (self.message_id / 256) as u8,
            (self.message_id % 256) as u8,
        ];
        put_front(out, &bytes)
    }

    // Reads the header at the start of the given bytes.
    pub fn try_from(buf: &[u8]) -> Result<HeaderRaw, Refusal>
        ensures { raw_read result ≡ raw_in buf.now }
    {
        if buf.len() < 4 {
            return Err(Refusal::InvalidHeader);
        }
        Ok(HeaderRaw {
            ver_type_tkl: buf[0],
            code: buf[1],
            message_id: buf[2] as u16 * 256 + buf[3] as u16,
        })
    }
}

// Writes bytes to the start of the given buffer, where there is room for all of them.
fn put_front(out: &mut [u8], bytes: &[u8]) -> Result<usize, Refusal>
    ensures result_value { written result ≡ fitted (length out.old) bytes.now }
    ensures out_after { out.new ≡ after (fitted (length out.old) bytes.now) 0 bytes.now out.old }
{
    if out.len() < bytes.len() {
        return Err(Refusal::NoRoom);
    }
    Ok(placing::put_bytes(out, 0, bytes))
}

// The message types.
#[derive(Clone, Copy, Debug, PartialEq, Eq)]
pub enum MessageType {
    Confirmable,
    NonConfirmable,
    Acknowledgement,
    Reset,
}

impl MessageType {
    // The type of a number's low two bits.
    pub fn from_number(number: u8) -> MessageType
        ensures { result ≡ type_of number }
    {
        match number % 4 {
            0 => MessageType::Confirmable,
            1 => MessageType::NonConfirmable,
            2 => MessageType::Acknowledgement,
            _ => MessageType::Reset,
        }
    }

    // The number of a type.
    pub fn to_number(self) -> u8
        ensures { result ≡ number_of_type self }
    {
        match self {
            MessageType::Confirmable => 0,
            MessageType::NonConfirmable => 1,
            MessageType::Acknowledgement => 2,
            MessageType::Reset => 3,
        }
    }
}

// The message header. The token's length is the token's own, so no header holds it.
#[derive(Clone, Copy)]
pub struct Header {
    pub version: u8,
    pub message_type: MessageType,
    pub code: MessageClass,
    pub message_id: u16,
}

impl Header {
    // Creates a new header.
    pub fn new() -> Header
        ensures { result ≡ new_header }
    {
        Header {
            version: 1,
            message_type: MessageType::Confirmable,
            code: MessageClass::Request(RequestType::Get),
            message_id: 0,
        }
    }

    // Creates a new header from a raw header.
    pub fn from_raw(raw: HeaderRaw) -> Header
        ensures { result ≡ header_of raw }
    {
        Header {
            version: raw.ver_type_tkl / 64,
            message_type: MessageType::from_number(raw.ver_type_tkl / 16),
            code: MessageClass::from_byte(raw.code),
            message_id: raw.message_id,
        }
    }

    // Returns the raw header, for a token of the given length.
    pub fn to_raw(self, token_length: u8) -> HeaderRaw
        ensures { result ≡ raw_of self token_length }
    {
        let message_type = self.message_type;
        let code = self.code;
        HeaderRaw {
            ver_type_tkl: self.version % 4 * 64 + message_type.to_number() * 16 + token_length % 16,
            code: code.to_byte(),
            message_id: self.message_id,
        }
    }

    // Sets the version, of which a header has two bits.
    pub fn set_version(mut self, v: u8) -> Header
        ensures { result ≡ with_version self v }
    {
        self.version = v % 4;
        self
    }

    // Returns the version.
    pub fn get_version(self) -> u8
        ensures { result ≡ self.version }
    {
        self.version
    }

    // Sets the message type.
    pub fn set_type(self, t: MessageType) -> Header
        ensures { result ≡ with_type self t }
    {
        let code = self.code;
        Header {
            version: self.version,
            message_type: t,
            code,
            message_id: self.message_id,
        }
    }

    // Returns the message type.
    pub fn get_type(self) -> MessageType
        ensures { result ≡ self.message_type }
    {
        let message_type = self.message_type;
        message_type
    }

    // Sets the class of the message code.
    pub fn set_class(self, class: MessageClass) -> Header
        ensures { result ≡ with_class self class }
    {
        let message_type = self.message_type;
        Header {
            version: self.version,
            message_type,
            code: class,
            message_id: self.message_id,
        }
    }

    // Returns the class of the message code.
    pub fn get_class(self) -> MessageClass
        ensures { result ≡ self.code }
    {
        let code = self.code;
        code
    }

    // Sets the message id.
    pub fn set_message_id(mut self, id: u16) -> Header
        ensures { result ≡ with_id self id }
    {
        self.message_id = id;
        self
    }

    // Returns the message id.
    pub fn get_message_id(self) -> u16
        ensures { result ≡ self.message_id }
    {
        self.message_id
    }

    // Sets the message code from text, as "2.05".
    pub fn set_code(self, code: &[u8]) -> Result<Header, Refusal>
        ensures { setting_of self result ≡ beside self (with_code self code.now) }
    {
        let byte = code_text::code_in(code)?;
        Ok(self.set_class(MessageClass::from_byte(byte)))
    }

    // Returns the message code as text: writes it to the start of the given buffer.
    pub fn get_code(self, out: &mut [u8]) -> Result<usize, Refusal>
        ensures result_value { written result ≡ fitted (length out.old) (code_output self) }
        ensures out_after { out.new ≡ after (fitted (length out.old) (code_output self)) 0 (code_output self) out.old }
    {
        let class = self.code;
        let text = code_text::code_text(class.to_byte());
        put_front(out, &text)
    }
}
