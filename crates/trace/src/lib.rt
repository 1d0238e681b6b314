// The lines of a recorded trace: whether a line has the form of an event, and the numbers that it tells. A line is lent with its newline. And lines of
// fields, read and written, for every text that has such lines.
#![tactic(auto)]

ghost use Rattle.std.specs.Prelude.{◌≡◌, ◌≤◌, ◌+◌, length, take};
ghost use Rattle.lists.specs.Put.{Put};
ghost use Rattle.trace.specs.Fields.{fields_at, field_line, number_fields};
ghost use Rattle.trace.specs.FieldLaws.{after, end_of};
ghost use Rattle.trace.specs.Kinds.{number_of, kind_number, NamesKind};
ghost use Rattle.trace.specs.Forms.{is_layout, layout_at, byte_count, form_of, kind_of};

use numbers::Layout;

// What follows a field: a space, or after the last a newline.
fn separator(last: bool) -> u8
    ensures { result ≡ after last }
{
    if last { b'\n' } else { b' ' }
}

// Whether from place `from` on the line has n fields of these widths, and ends with them.
pub fn has_fields(line: &[u8], from: usize, widths: [usize; 8], n: usize) -> bool
    requires { (from ≤ length line.now) × (n ≤ 8) }
    ensures { result ≡ fields_at line.now from (take n widths) }
{
    let mut at = from;
    for i in 0..n {
        let w = widths[i];
        if line.len() - at <= w {
            return false;
        }
        if !hex_text::is_digits(line, at, w) {
            return false;
        }
        if line[at + w] != separator(i + 1 == n) {
            return false;
        }
        at += w + 1;
    }
    at == line.len()
}

// Writes the first n numbers as fields of these widths from place `at` on, and answers where the text goes on.
pub fn write_fields(
    numbers: [u64; 8],
    widths: [usize; 8],
    n: usize,
    text: &mut [u8],
    at: usize,
) -> usize
    requires { (n ≤ 8) × (end_of at (take n widths) ≤ length text.old) }
    ensures { (result ≡ end_of at (take n widths)) × Put at (field_line (number_fields (take n widths) numbers)) text.old text.new }
{
    let mut to = at;
    for i in 0..n {
        let w = widths[i];
        hex_text::write_number(numbers[i], w, text, to);
        text[to + w] = separator(i + 1 == n);
        to += w + 1;
    }
    to
}

// How many bytes a write of this length has: 20 characters come before them, a newline after.
pub fn byte_count(line: &[u8]) -> usize
    ensures { result ≡ byte_count line.now }
{
    line.len().saturating_sub(21) / 2
}

// What an event is.
#[derive(Clone, Copy, PartialEq, Eq, Debug)]
pub enum Kind {
    Write,
    Fail,
    Repair,
    Read,
}

// A number that no kind has.
#[derive(Clone, Copy, PartialEq, Eq, Debug)]
pub struct UnknownKind;

impl TryFrom<u64> for Kind {
    type Error = UnknownKind;

    ghost try_from_gives = { NamesKind };

    fn try_from(number: u64) -> Result<Self, UnknownKind> {
        match number {
            1 => Ok(Kind::Write),
            2 => Ok(Kind::Fail),
            3 => Ok(Kind::Repair),
            4 => Ok(Kind::Read),
            _ => Err(UnknownKind),
        }
    }
}

impl From<Kind> for u64 {
    ghost from_gives = { λ kind number. number ≡ number_of kind };

    fn from(kind: Kind) -> Self {
        match kind {
            Kind::Write => 1,
            Kind::Fail => 2,
            Kind::Repair => 3,
            Kind::Read => 4,
        }
    }
}

// Whether the line has the fields of an event of this kind.
fn has_form(line: &[u8], kind: Kind) -> bool
    ensures { result ≡ fields_at line.now 0 (form_of (byte_count line.now) (number_of kind)) }
{
    match kind {
        Kind::Write => {
            let digits = 2 * byte_count(line);
            has_fields(line, 0, [2, 16, digits, 0, 0, 0, 0, 0], 3)
        }
        Kind::Fail => has_fields(line, 0, [2, 2, 0, 0, 0, 0, 0, 0], 2),
        Kind::Repair => has_fields(line, 0, [2, 0, 0, 0, 0, 0, 0, 0], 1),
        Kind::Read => has_fields(line, 0, [2, 16, 16, 0, 0, 0, 0, 0], 3),
    }
}

// The kind of the event that the line tells, none where the line is malformed.
pub fn find_kind(line: &[u8]) -> Option<Kind>
    ensures { kind_number result ≡ kind_of line.now }
{
    if 8301 < line.len() || line.len() < 3 {
        return None;
    }
    match Kind::try_from(hex_text::number_at(line, 0, 2)) {
        Ok(kind) if has_form(line, kind) => Some(kind),
        _ => None,
    }
}

// The number of that kind, 0 for none.
pub fn kind_of(line: &[u8]) -> u64
    ensures { result ≡ kind_of line.now }
{
    find_kind(line).map_or(0, u64::from)
}

// Whether the line has the form of a first line.
pub fn is_layout(line: &[u8]) -> bool
    ensures { result ≡ is_layout line.now }
{
    has_fields(line, 0, [2, 2, 2, 4, 6, 16, 0, 0], 6)
}

// The layout of edition 1 whose six numbers' fields begin at place `from`.
pub fn layout_at(line: &[u8], from: usize) -> Layout
    requires { from + 37 ≤ length line.now }
    ensures { result ≡ layout_at line.now from }
{
    Layout {
        n: hex_text::number_at(line, from, 2),
        k: hex_text::number_at(line, from + 3, 2),
        p: hex_text::number_at(line, from + 6, 2),
        u: hex_text::number_at(line, from + 9, 4),
        t: hex_text::number_at(line, from + 14, 6),
        cookie: hex_text::number_at(line, from + 21, 16),
        edition: 1,
    }
}
