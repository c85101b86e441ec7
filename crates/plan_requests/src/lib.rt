// Requests on plans: our plan of an image, and the check of one that is given.
#![tactic(auto)]

mod checked;
mod made;

use output::Page;
use words::Line;

// What every number of a list is before.
const BEFORE: u32 = 2863311530;

// The longest list of numbers. Its memory is fixed, since nothing here allocates.
const MAX_LIST: usize = 40000;

#[derive(Clone, Copy)]
pub enum Request {
    Plan,
    PlanCheck,
}

// Which of these requests a name is.
pub fn named(name: &[u8]) -> Option<Request> {
    match name {
        b"plan" => Some(Request::Plan),
        b"plan-check" => Some(Request::PlanCheck),
        _ => None,
    }
}

// Answers a request. What is held goes to the store.
pub fn answer(request: Request, line: &mut Line, store: &mut [u8], page: &mut Page) -> Option<()> {
    let mut list = [BEFORE; MAX_LIST];
    match request {
        Request::Plan => made::plan(line, store, &mut list, page),
        Request::PlanCheck => checked::check(line, store, &mut list, page),
    }
}
