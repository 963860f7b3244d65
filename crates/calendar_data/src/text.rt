// Lines of eight digits.
use dates::Date;

// The bytes of a line: eight digits and a line feed.
pub(crate) const LINE: usize = 9;

// The number of a line, if it is eight digits and a line feed.
pub(crate) fn number_of_line(line: &[u8]) -> Option<u64> {
    let digits = line.strip_suffix(b"\n")?;
    let mut n: u64 = 0;
    for c in digits {
        if !c.is_ascii_digit() {
            return None;
        }
        n = n.wrapping_mul(10).wrapping_add(u64::from(*c - b'0'));
    }
    Some(n)
}

// Whether a line of the text has a number.
pub(crate) fn has_line(text: &[u8], n: u64) -> bool {
    text.chunks_exact(LINE)
        .any(|line| number_of_line(line) == Some(n))
}

// A date as aaaammjj. No `From`: neither a date nor a number is of this crate.
pub(crate) fn number_of(x: Date) -> u64 {
    10_000 * u64::from(x.year) + 100 * u64::from(x.month) + u64::from(x.day)
}
