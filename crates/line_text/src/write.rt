// Writing texts into a lent buffer from a position on: the answer is the position behind the text.
// Where the room does not suffice nothing is written, and the answer is the position itself (`Appended`). So no `write!` into
// the buffer: the library's `Write` for a slice writes what fits of a text, and the rest is lost.
ghost use Rattle.std.specs.Prelude.{◌≡◌, ◌+◌, ◌%◌, [], ◌∷◌, length};
ghost use Rattle.line_text.specs.Decimal.{decimal};
ghost use Rattle.line_text.specs.Days.{date_text, day_text};
ghost use Rattle.line_text.specs.Between.Appending.{Appended, has_room};

use dates::Date;

// A byte.
pub fn put_byte(out: &mut [u8], at: usize, b: u8) -> usize
    ensures { Appended at (b ∷ []) out.old out.new result }
{
    if out.len() <= at {
        return at;
    }
    out[at] = b;
    at + 1
}

// A word.
pub fn put_word(out: &mut [u8], at: usize, word: &[u8]) -> usize
    ensures { Appended at word.now out.old out.new result }
{
    let n = word.len();
    if !has_room(out, at, n) {
        return at;
    }
    out[at..at + n].copy_from_slice(word);
    at + n
}

// Whether a buffer has n bytes from a position on.
pub fn has_room(out: &[u8], at: usize, n: usize) -> bool
    ensures { result ≡ has_room (length out.now) at n }
{
    at <= out.len() && n <= out.len() - at
}

// A number in decimal.
pub fn put_number(out: &mut [u8], at: usize, n: u64) -> usize
    ensures { Appended at (decimal n []) out.old out.new result }
{
    let count = digit_count(n);
    if !has_room(out, at, count) {
        return at;
    }
    let end = at + count;
    let mut v = n;
    for i in (at..end).rev() {
        out[i] = b'0' + (v % 10) as u8;
        v /= 10;
    }
    end
}

// How many digits a number has.
pub fn digit_count(n: u64) -> usize
    ensures { result ≡ length (decimal n []) }
{
    match n.checked_ilog10() {
        Some(power) => power as usize + 1,
        None => 1,
    }
}

// The date of a day, aaaammjj, or 00000000 for a day off the calendar.
pub fn put_day(out: &mut [u8], at: usize, day: u64) -> usize
    ensures { Appended at (day_text day []) out.old out.new result }
{
    match dates::date_of(day) {
        Some(x) => put_date(out, at, x),
        None => put_word(out, at, b"00000000"),
    }
}

// A date, aaaammjj.
fn put_date(out: &mut [u8], at: usize, x: Date) -> usize
    ensures { Appended at (date_text x []) out.old out.new result }
{
    let year = u64::from(x.year);
    let month = u64::from(x.month);
    let day = u64::from(x.day);
    let text = [
        digit_of(year / 1000),
        digit_of(year / 100),
        digit_of(year / 10),
        digit_of(year),
        digit_of(month / 10),
        digit_of(month),
        digit_of(day / 10),
        digit_of(day),
    ];
    put_word(out, at, &text)
}

// The last digit of a number.
fn digit_of(n: u64) -> u8
    ensures { result ≡ 48 + n % 10 }
{
    b'0' + (n % 10) as u8
}
