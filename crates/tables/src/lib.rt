// The option numbers and content formats that have names, and where a number stands among them.
#![tactic(auto)]

ghost use Rattle.std.specs.Prelude.{◌≡◌, ◌==◌, position};
ghost use Rattle.ground.specs.Table.{listed};
ghost use Rattle.tables.specs.Numbers.{option_numbers, content_formats};
ghost use Rattle.tables.specs.Place.{place_of};

pub mod content_format;
pub mod option_number;

// The first place of a number in a table.
fn find(table: &[u16], number: u16) -> Option<usize>
    ensures { result ≡ position (λ x. number == x) table.now }
{
    table.iter().position(|entry| number == *entry)
}

// Where an option's number stands in `OPTION_NUMBERS`.
pub fn option_index(number: u16) -> Option<usize>
    ensures { result ≡ place_of number option_numbers }
{
    find(&option_number::OPTION_NUMBERS, number)
}

// Where a content format's number stands in `CONTENT_FORMATS`.
pub fn content_format_index(number: u16) -> Option<usize>
    ensures { result ≡ place_of number content_formats }
{
    find(&content_format::CONTENT_FORMATS, number)
}

// Whether a number is a content format that has a name.
pub fn is_content_format(number: u16) -> bool
    ensures { result ≡ listed number content_formats }
{
    content_format_index(number).is_some()
}
