// Lists, with a comma before all members but the first.

// The byte before a member of a list.
pub fn separator(index: usize) -> u8 {
    if index == 0 { b' ' } else { b',' }
}
