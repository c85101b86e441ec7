// The lines of an answer.
use hexadecimal::put_hex;
use reports::Page;

// record 11, 2 bytes, text ab
pub fn put_record(page: &mut Page, number: u16, value: &[u8]) {
    page.put_number(b"record ", number as u64);
    page.put_number(b", ", value.len() as u64);
    page.put_bytes(unit_of(value.len()));
    put_value(page, value);
    page.put_bytes(b"\n");
}

fn unit_of(count: usize) -> &'static [u8] {
    match count {
        1 => b" byte, ",
        _ => b" bytes, ",
    }
}

// Puts a value as text where each byte is a space or a printable ASCII character, or else as hexadecimal digits.
fn put_value(page: &mut Page, value: &[u8]) {
    if value.is_empty() {
        page.put_bytes(b"empty");
    } else if value.iter().all(|byte| matches!(*byte, b' '..=b'~')) {
        page.put_bytes(b"text ");
        page.put_bytes(value);
    } else {
        page.put_bytes(b"hex ");
        page.place = put_hex(page.bytes, page.place, value);
    }
}

// options b2616202c3a9
pub fn put_wire(page: &mut Page, options: &[u8]) {
    page.put_bytes(b"options ");
    page.place = put_hex(page.bytes, page.place, options);
    page.put_bytes(b"\n");
}

// text /ab
pub fn put_text(page: &mut Page, text: &[u8]) {
    page.put_bytes(b"text ");
    page.put_bytes(text);
    page.put_bytes(b"\n");
}
