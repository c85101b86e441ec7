// Parts of bytes, by position.

// A part of some bytes; none where it is not inside them.
pub fn part(bytes: &[u8], start: usize, end: usize) -> &[u8] {
    bytes.get(start..end).unwrap_or(b"")
}
