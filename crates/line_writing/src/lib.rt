// Writing the line of a call or of an opening.
#![tactic(auto)]

ghost use Rattle.std.specs.Prelude.{◌≡◌, ◌+◌, ◌≤◌, [], length};
ghost use Rattle.line_text.specs.Between.Appending.{Appended};
ghost use Rattle.line_fields.specs.Fields.{field_text, fields_text, fits as fields_fits, fit_all};
ghost use Rattle.line_fields.specs.Between.Shapes.{most_fields, fields_as};
ghost use Rattle.line_messages.specs.Lines.{said, said_on, said_at};
ghost use Rattle.line_messages.specs.Writing.{is_writable};
ghost use Rattle.line_messages.specs.Between.Values.{values_of};
ghost use Rattle.line_writing.specs.Between.Written.{written_line};

use dates::LAST_DAY;
use line_fields::{MOST_FIELDS, Shape, Sort, sort_at};
use line_kinds::{Kind, put_kind, row_of};
use line_messages::{Message, Values};
use line_text::LONGEST_LINE;
use line_text::write::{put_byte, put_day, put_number};
use rules::{Action, PointAction};

// A line: its first len bytes. The bytes behind them are 0. The length stands beside, since memory is fixed.
#[derive(Clone, Copy)]
pub struct Line {
    pub len: usize,
    pub bytes: [u8; LONGEST_LINE],
}

// The line that says m; no bytes where m is not writable.
pub fn write_line(m: Message) -> Line
    ensures { result ≡ written_line m }
{
    let mut bytes = [0; LONGEST_LINE];
    if !is_writable(m) {
        return Line { len: 0, bytes };
    }
    let v = values_of(m);
    let shape = row_of(v.kind).shape;
    let at = put_kind(&mut bytes, 0, v.kind);
    let len = put_fields(&mut bytes, at, v.values, shape);
    Line { len, bytes }
}

// The message can be read, its days are in the calendar, and its numbers have at most 12 digits.
pub fn is_writable(m: Message) -> bool
    ensures { result ≡ is_writable m }
{
    if let Message::Unreadable = m {
        return false;
    }
    let v = values_of(m);
    fit_all(v.values, row_of(v.kind).shape)
}

// A message's kind and values.
fn values_of(m: Message) -> Values
    ensures { result ≡ values_of (said m) }
{
    match m {
        Message::Open(o) => Values {
            kind: Kind::Set,
            values: [o.day, o.w, o.a, o.b, o.default, o.resort, 0, 0, 0],
        },
        Message::Ask(c) => call_values(c.today, c.action),
        Message::Unreadable => Values {
            kind: Kind::Unknown,
            values: [0, 0, 0, 0, 0, 0, 0, 0, 0],
        },
    }
}

fn call_values(t: u64, action: Action) -> Values
    ensures { result ≡ values_of (said_on t action) }
{
    match action {
        Action::Contract { supplier } => Values {
            kind: Kind::Ctr,
            values: [t, supplier, 0, 0, 0, 0, 0, 0, 0],
        },
        Action::Failure { supplier } => Values {
            kind: Kind::Def,
            values: [t, supplier, 0, 0, 0, 0, 0, 0, 0],
        },
        Action::At { point, act } => point_values(t, point, act),
        Action::Day => Values {
            kind: Kind::Jour,
            values: [t, 0, 0, 0, 0, 0, 0, 0, 0],
        },
    }
}

fn point_values(t: u64, p: u64, act: PointAction) -> Values
    ensures { result ≡ values_of (said_at t p act) }
{
    match act {
        PointAction::Enrol { meter: m } => Values {
            kind: Kind::Enr,
            values: [t, p, m.before, m.after, m.index, m.code, m.factor, 0, 0],
        },
        PointAction::IntoService { supplier, key } => Values {
            kind: Kind::Demmespc,
            values: [t, p, supplier, key, 0, 0, 0, 0, 0],
        },
        PointAction::DefaultSupply { key } => Values {
            kind: Kind::I,
            values: [t, p, key, 0, 0, 0, 0, 0, 0],
        },
        PointAction::Request { supplier, key, day } => Values {
            kind: Kind::Demcf,
            values: [t, p, supplier, key, day, 0, 0, 0, 0],
        },
        PointAction::Cancel { supplier } => Values {
            kind: Kind::Adc,
            values: [t, p, supplier, 0, 0, 0, 0, 0, 0],
        },
        PointAction::Reading { day, index, zero } => Values {
            kind: Kind::Ri,
            values: [t, p, day, index, zero, 0, 0, 0, 0],
        },
        PointAction::MeterChange {
            index: x,
            zero: z,
            meter: m,
        } => Values {
            kind: Kind::Cdt,
            values: [t, p, x, z, m.before, m.after, m.index, m.code, m.factor],
        },
        PointAction::OutOfService => Values {
            kind: Kind::Demmhs,
            values: [t, p, 0, 0, 0, 0, 0, 0, 0],
        },
        PointAction::Suspend { mark } => Values {
            kind: Kind::Sus,
            values: [t, p, mark, 0, 0, 0, 0, 0, 0],
        },
    }
}

// Each value fits its field.
fn fit_all(values: [u64; MOST_FIELDS], shape: Shape) -> bool
    requires { shape.count ≤ most_fields }
    ensures { result ≡ fit_all (fields_as shape values) }
{
    for i in 0..shape.count {
        if !fits(sort_at(shape.second, i), values[i]) {
            return false;
        }
    }
    true
}

// A value fits a field of its sort.
fn fits(sort: Sort, n: u64) -> bool
    ensures { result ≡ fields_fits sort n }
{
    match sort {
        Sort::Date => n <= u64::from(LAST_DAY),
        Sort::Number => n < 1_000_000_000_000,
    }
}

// The fields of a shape, each behind its `;`.
fn put_fields(out: &mut [u8], from: usize, values: [u64; MOST_FIELDS], shape: Shape) -> usize
    requires count_le_most_fields { shape.count ≤ most_fields }
    requires values_in_bounds { from + length (fields_text (fields_as shape values)) ≤ length out.old }
    ensures { Appended from (fields_text (fields_as shape values)) out.old out.new result }
{
    let mut at = from;
    for i in 0..shape.count {
        at = put_field(out, at, sort_at(shape.second, i), values[i]);
    }
    at
}

// A field behind its `;`.
fn put_field(out: &mut [u8], at: usize, sort: Sort, n: u64) -> usize
    requires { at + length (field_text sort n []) ≤ length out.old }
    ensures { Appended at (field_text sort n []) out.old out.new result }
{
    let begin = put_byte(out, at, b';');
    match sort {
        Sort::Date => put_day(out, begin, n),
        Sort::Number => put_number(out, begin, n),
    }
}
