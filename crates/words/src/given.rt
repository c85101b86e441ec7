// Bytes as a line gives them.
use hexadecimal::put_unhexed;
use refusal::Refusal;

// So many zeros, or pairs of hexadecimal digits.
#[derive(Clone, Copy)]
pub enum Given<'a> {
    Zeros(usize),
    Digits(&'a [u8]),
}

impl Given<'_> {
    // Puts the bytes into a store from a place on, and answers the place after them.
    pub fn put(self, store: &mut [u8], place: usize) -> Result<usize, Refusal> {
        match self {
            Given::Zeros(count) => put_zeros(store, place, count),
            Given::Digits(text) => {
                let count = put_unhexed(store, place, text)?;
                place.checked_add(count).ok_or(Refusal::NoRoom)
            }
        }
    }
}

fn put_zeros(store: &mut [u8], place: usize, count: usize) -> Result<usize, Refusal> {
    let end = place.checked_add(count).ok_or(Refusal::NoRoom)?;
    store.get_mut(place..end).ok_or(Refusal::NoRoom)?.fill(0);
    Ok(end)
}
