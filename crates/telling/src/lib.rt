// The words that answers are made of, put on a page.
#![tactic(auto)]

use output::Page;
use refusal::{Fault, Refusal};
use words::part;

pub fn write_refused(page: &mut Page, why: Refusal) {
    page.number(b"refused ", why.number() as u64);
}

// Why options are refused; of a bad one its index too.
pub fn write_fault(page: &mut Page, fault: Fault) {
    match fault {
        Fault::Refused(why) => write_refused(page, why),
        Fault::BadOption(index) => {
            write_refused(page, Refusal::BadOption);
            page.number(b" ", index as u64);
        }
    }
}

// What a writer answered, whose bytes stand at the start of its output.
pub fn write_written(page: &mut Page, written: Result<usize, Refusal>, output: &[u8]) {
    match written {
        Ok(length) => {
            page.number(b"written ", length as u64);
            page.hex(b" ", part(output, 0, length));
        }
        Err(why) => write_refused(page, why),
    }
}

// Whether something is so.
pub fn write_truth(page: &mut Page, yes: bool) {
    page.text(if yes { b"yes" } else { b"no" });
}

// Whether lent bytes are as they came, at the end of an answer.
pub fn write_kept(page: &mut Page, kept: bool) {
    page.text(if kept { b" kept" } else { b" changed" });
}

// How many leading zero bytes a value has.
pub fn write_zeros(page: &mut Page, zeros: usize) {
    page.number(b" zeros ", zeros as u64);
}
