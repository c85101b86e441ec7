// Limits on a message's size, as words.
use words::Line;
use writing::Limit;

// Reads the word of a limit.
pub fn read_limit(line: &mut Line) -> Option<Limit> {
    if line.past(b" default").is_some() {
        return Some(Limit::Default);
    }
    if line.past(b" none").is_some() {
        return Some(Limit::Unlimited);
    }
    Some(Limit::Given(line.number(b' ')?))
}
