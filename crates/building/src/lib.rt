// A message made call by call in a lent output: header and token, then option after option, then the payload. What was built
// is the caller's to keep between the calls, as a small builder by value; each call judges and counts before it puts a byte, so
// that a refused call changes nothing.
#![tactic(auto)]

ghost use Rattle.std.specs.Prelude.{◌≡◌};
ghost use Rattle.ground.specs.Choice.{both};
ghost use Rattle.refusal.specs.Number.{number_of};
ghost use Rattle.refusal.specs.Answer.{written, outcome};
ghost use Rattle.building.specs.Building.{Starts, Adds, Ends, empty_in, token_carried, strict_start, start_judged, bare_refusal, bare_end};

use class::MessageClass;
use header::Header;
use laying::{put_header, put_option, put_payload};
use packet::limits::{MAX_OPTIONS, MAX_STORE, MAX_TOKEN, MAX_VALUE};
use refusal::Refusal;

// How far a message has been built.
#[derive(Clone, Copy)]
pub struct Builder {
    pub strict: bool,
    // The code is that of an empty message: strict refuses all that would follow the header, plain drops the payload.
    pub empty: bool,
    // The number of the last option, 0 before the first.
    pub before: u16,
    // Where the next piece goes.
    pub at: usize,
    // How many options there is room for yet.
    pub left: usize,
}

impl Builder {
    // Begins a message: header and token at the start of the output.
    pub fn start(
        strict: bool,
        header: Header,
        token: &[u8],
        out: &mut [u8],
    ) -> Result<Builder, Refusal>
        ensures { Starts strict header token.now out.old result out.new }
    {
        judged_start(strict, header, token.len())?;
        let at = put_header(out, header, token)?;
        let code = header.code;
        let empty = is_empty(strict, code);
        Ok(Builder {
            strict,
            empty,
            before: 0,
            at,
            left: MAX_OPTIONS,
        })
    }

    // Adds an option after what was built.
    pub fn option(self, number: u16, value: &[u8], out: &mut [u8]) -> Result<Builder, Refusal>
        ensures { Adds self (record { number = number; value = value.now }) out.old result out.new }
    {
        if self.left == 0 {
            return Err(Refusal::BadRecord);
        }
        if is_bare(self.strict, self.empty) {
            return Err(bare_refusal(self.before, number, value.len()));
        }
        let size = put_option(out, self.at, self.before, number, value)?;
        Ok(Builder {
            strict: self.strict,
            empty: self.empty,
            before: number,
            at: self.at + size,
            left: self.left - 1,
        })
    }

    // Ends the message with its payload: the answer is the length of the whole message.
    pub fn payload(self, payload: &[u8], out: &mut [u8]) -> Result<usize, Refusal>
        ensures { Ends self payload.now out.old result out.new }
    {
        if MAX_STORE < payload.len() {
            return Err(Refusal::TooLong);
        }
        if self.empty {
            return bare_end(self.strict, self.at, payload.len(), out.len());
        }
        let size = put_payload(out, self.at, payload)?;
        Ok(self.at + size)
    }
}

// What is asked of a header and a token of this length before their room: that their fields hold them, then what strict mode asks.
fn judged_start(strict: bool, header: Header, token: usize) -> Result<(), Refusal>
    ensures { outcome result ≡ start_judged strict header token }
{
    if 3 < header.version {
        return Err(Refusal::BadRecord);
    }
    if (MAX_TOKEN as usize) < token {
        return Err(Refusal::BadRecord);
    }
    judged_strictly(strict, header, token)
}

// What strict mode asks: version 1, a token of at most 8 bytes, and none in an empty message.
fn judged_strictly(strict: bool, header: Header, token: usize) -> Result<(), Refusal>
    ensures { outcome result ≡ strict_start strict header token }
{
    if !strict {
        return Ok(());
    }
    if header.version != 1 {
        return Err(Refusal::WrongVersion);
    }
    if 8 < token {
        return Err(Refusal::InvalidTokenLength);
    }
    let code = header.code;
    if token_carried(code, token) {
        return Err(Refusal::EmptyCarries);
    }
    Ok(())
}

// A token in a message of code 0.00.
fn token_carried(code: MessageClass, token: usize) -> bool
    ensures { result ≡ token_carried code token }
{
    code.to_byte() == 0 && 0 < token
}

// Whether the code is that of an empty message: to strict each code byte 0, to plain class `Empty` alone.
fn is_empty(strict: bool, code: MessageClass) -> bool
    ensures { result ≡ empty_in strict code }
{
    if strict {
        return code.to_byte() == 0;
    }
    matches!(code, MessageClass::Empty)
}

// An empty message in strict mode takes no option.
fn is_bare(strict: bool, empty: bool) -> bool
    ensures { result ≡ both strict empty }
{
    strict && empty
}

// Which refusal an option gets in an empty message: what is wrong with the option comes first.
fn bare_refusal(before: u16, number: u16, len: usize) -> Refusal
    ensures { number_of result ≡ bare_refusal before number len }
{
    if number < before {
        return Refusal::BadRecord;
    }
    if (MAX_VALUE as usize) < len {
        return Refusal::BadRecord;
    }
    Refusal::EmptyCarries
}

// The end of an empty message, which puts nothing: strict refuses a payload, plain drops it.
fn bare_end(strict: bool, at: usize, len: usize, room: usize) -> Result<usize, Refusal>
    ensures { written result ≡ bare_end strict at len room }
{
    if is_bare(strict, 0 < len) {
        return Err(Refusal::EmptyCarries);
    }
    if room < at {
        return Err(Refusal::NoRoom);
    }
    Ok(at)
}
