// Requests on the numbers of options and of content formats.
use output::Page;
use telling::write_truth;
use words::Line;

// Reads a number that ends a line.
fn read_number(line: &mut Line) -> Option<u16> {
    let number = line.number(b' ')?;
    line.finished()?;
    Some(number)
}

// is-option NUMBER
pub fn is_option(line: &mut Line, page: &mut Page) -> Option<()> {
    let number = read_number(line)?;
    write_truth(page, tables::option_index(number).is_some());
    Some(())
}

// is-format NUMBER
pub fn is_format(line: &mut Line, page: &mut Page) -> Option<()> {
    let number = read_number(line)?;
    write_truth(page, tables::is_content_format(number));
    Some(())
}

// option-index NUMBER
pub fn option_index(line: &mut Line, page: &mut Page) -> Option<()> {
    let number = read_number(line)?;
    write_index(page, tables::option_index(number));
    Some(())
}

// format-index NUMBER
pub fn format_index(line: &mut Line, page: &mut Page) -> Option<()> {
    let number = read_number(line)?;
    write_index(page, tables::content_format_index(number));
    Some(())
}

fn write_index(page: &mut Page, index: Option<usize>) {
    match index {
        Some(index) => page.number(b"place ", index as u64),
        None => page.text(b"none"),
    }
}

// properties NUMBER
pub fn properties(line: &mut Line, page: &mut Page) -> Option<()> {
    let number = read_number(line)?;
    write_truth(page, register::is_critical(number));
    page.byte(b' ');
    write_truth(page, register::is_unsafe(number));
    page.byte(b' ');
    write_truth(page, register::is_no_cache_key(number));
    Some(())
}
