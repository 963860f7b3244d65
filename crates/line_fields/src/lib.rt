// The fields of a line behind its kind, and reading them. A position is an index of the line; a field is read from its
// `;` on.
#![tactic(auto)]

ghost use Rattle.std.specs.Prelude.{◌≡◌, drop};
ghost use Rattle.line_fields.specs.Between.Known.{first_known};
ghost use Rattle.line_fields.specs.Between.Shapes.{sort_at};
ghost use Rattle.line_fields.specs.Between.With.{date_with, field_with, found_with, known_with, ReadsFields};

use line_values::{date_at, number_at};

// What a field holds: a date, whose value is its day, or a number.
#[derive(Clone, Copy)]
pub enum Sort {
    Date,
    Number,
}

// The most fields that a line has.
pub const MOST_FIELDS: usize = 9;

// The fields of a line behind its kind: how many, at most MOST_FIELDS. The first is a date, and so is the one at
// second.
#[derive(Clone, Copy)]
pub struct Shape {
    pub count: usize,
    pub second: usize,
}

// The last date read: its eight bytes as one number, the first byte the lowest, and its day.
#[derive(Clone, Copy)]
pub struct KnownDate {
    pub bytes: u64,
    pub day: u64,
}

// The date that is known before any is read: 1 January 2000, day 0.
pub fn first_known() -> KnownDate
    ensures { result ≡ first_known }
{
    KnownDate {
        bytes: u64::from_le_bytes(*b"20000101"),
        day: 0,
    }
}

// The values of the fields of a shape that stand from a position on, and the position behind them; or the position of
// the first field that cannot be read. Lines give the same date again and again: one whose bytes are those of the last
// one read is not read anew.
pub fn read_fields(
    line: &[u8],
    from: usize,
    shape: Shape,
    known: &mut KnownDate,
    values: &mut [u64; MOST_FIELDS],
) -> Result<usize, usize>
    ensures { ReadsFields known.old shape from line.now known.new values.new result }
{
    *values = [0; MOST_FIELDS];
    if MOST_FIELDS < shape.count {
        return Err(from);
    }
    let mut at = from;
    for i in 0..shape.count {
        let sort = sort_at(shape.second, i);
        let Some((v, next)) = field_at(line, at, sort, known) else {
            return Err(at);
        };
        values[i] = v;
        at = next;
    }
    Ok(at)
}

// The sort of a shape's field at i.
pub fn sort_at(second: usize, i: usize) -> Sort
    ensures { result ≡ sort_at second i }
{
    if i == 0 || i == second {
        Sort::Date
    } else {
        Sort::Number
    }
}

// A `;` and then a date or a number, and the position behind it.
fn field_at(s: &[u8], at: usize, sort: Sort, known: &mut KnownDate) -> Option<(u64, usize)>
    ensures found { result ≡ found_with at (drop at s.now) (field_with known.old sort (drop at s.now)) }
    ensures after { known.new ≡ known_with known.old (field_with known.old sort (drop at s.now)) }
{
    if *s.get(at)? != b';' {
        return None;
    }
    match sort {
        Sort::Date => known_date_at(s, at + 1, known),
        Sort::Number => number_at(s, at + 1),
    }
}

// A date: the known one where the bytes are its, else one that is read and known from now on.
fn known_date_at(s: &[u8], at: usize, known: &mut KnownDate) -> Option<(u64, usize)>
    ensures found { result ≡ found_with at (drop at s.now) (date_with known.old (drop at s.now)) }
    ensures after { known.new ≡ known_with known.old (date_with known.old (drop at s.now)) }
{
    let text: &[u8; 8] = s.get(at..)?.first_chunk()?;
    let bytes = u64::from_le_bytes(*text);
    if bytes == known.bytes {
        return Some((known.day, at + 8));
    }
    let (day, end) = date_at(s, at)?;
    *known = KnownDate { bytes, day };
    Some((day, end))
}
