// What the program shows of a message and of a whole replay.
use crate::messages::Tally;
use header::MessageType;
use hearing::Verdict;
use peers::put_peer;
use reports::Page;
use tracing::Arrived;

// time 10, peer 192.0.2.1:5683, confirmable, id 5: new
pub fn put_message(page: &mut Page, arrived: Arrived, verdict: Verdict) {
    page.put_number(b"time ", arrived.time as u64);
    page.put_bytes(b", peer ");
    page.place = put_peer(page.bytes, page.place, arrived.peer);
    page.put_bytes(kind_of(arrived.kind));
    page.put_number(b", id ", arrived.id as u64);
    page.put_bytes(said_by(verdict));
}

fn kind_of(kind: MessageType) -> &'static [u8] {
    match kind {
        MessageType::Confirmable => b", confirmable",
        MessageType::NonConfirmable => b", non-confirmable",
        MessageType::Acknowledgement => b", acknowledgement",
        MessageType::Reset => b", reset",
    }
}

fn said_by(verdict: Verdict) -> &'static [u8] {
    match verdict {
        Verdict::New => b": new\n",
        Verdict::Duplicate => b": duplicate\n",
        Verdict::Passed => b": passed\n",
    }
}

// messages 10, new 6, duplicate 3, passed 1
pub fn put_tally(page: &mut Page, messages: u64, tally: Tally) {
    let Tally {
        fresh,
        duplicates,
        passed,
    } = tally;
    writeln!(
        page,
        "messages {messages}, new {fresh}, duplicate {duplicates}, passed {passed}"
    );
}
