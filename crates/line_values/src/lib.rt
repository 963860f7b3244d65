// Reading a text: numbers and dates. A position is an index of the text.
#![tactic(auto)]

ghost use Rattle.std.specs.Prelude.{◌≡◌, ◌-◌, ◌≤◌, ◌<◌, length, drop};
ghost use Rattle.line_values.specs.Pinned.Numbers.{more_of, fixed_of};
ghost use Rattle.line_values.specs.Between.Places.{found_at, number_at};
ghost use Rattle.line_values.specs.Between.Places.{date_at};

// A number of 1 to 12 digits, no leading zero but 0 itself, and the position behind it.
pub fn number_at(s: &[u8], at: usize) -> Option<(u64, usize)>
    ensures { result ≡ number_at s.now at }
{
    let c = *s.get(at)?;
    if c == b'0' {
        return Some((0, at + 1));
    }
    if !c.is_ascii_digit() {
        return None;
    }
    more_digits(s, at + 1, digit(c))
}

// The rest of a number whose digits before at are those of first.
fn more_digits(s: &[u8], at: usize, first: u64) -> Option<(u64, usize)>
    requires { (at ≤ length s.now) × (first < 10) }
    ensures { result ≡ found_at at (drop at s.now) (more_of first (drop at s.now)) }
{
    let mut v = first;
    for i in at..s.len() {
        let c = s[i];
        if !c.is_ascii_digit() {
            return Some((v, i));
        }
        if 100_000_000_000 <= v {
            return None;
        }
        v = v * 10 + digit(c);
    }
    Some((v, s.len()))
}

// A date aaaammjj of the calendar, as its day, and the position behind it.
pub fn date_at(s: &[u8], at: usize) -> Option<(u64, usize)>
    ensures { result ≡ date_at s.now at }
{
    let (year, after_year) = fixed_at(s, at, 4)?;
    let (month, after_month) = fixed_at(s, after_year, 2)?;
    let (day, end) = fixed_at(s, after_month, 2)?;
    let n = dates::day_of(year, month, day)?;
    Some((u64::from(n), end))
}

// A number of exactly count digits, and the position behind it.
fn fixed_at(s: &[u8], at: usize, count: usize) -> Option<(u64, usize)>
    requires { (0 < count) × (count < 10) }
    ensures { result ≡ found_at at (drop at s.now) (fixed_of count 0 (drop at s.now)) }
{
    let digits = s.get(at..)?.get(..count)?;
    let mut v: u64 = 0;
    for &c in digits {
        if !c.is_ascii_digit() {
            return None;
        }
        v = v * 10 + digit(c);
    }
    Some((v, at + count))
}

// The value of a digit.
fn digit(c: u8) -> u64
    requires { 48 ≤ c }
    ensures { result ≡ c - 48 }
{
    u64::from(c) - 48
}
