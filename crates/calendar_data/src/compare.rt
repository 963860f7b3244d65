// Easter Sundays and holidays of the code against those of the files.
use crate::tally::{Outcome, Tally};
use crate::text::{LINE, has_line, number_of, number_of_line};
use dates::LAST_DAY;

// Line k has Easter Sunday of 2000 + k, and no line is missing or too many.
pub(crate) fn easter_sundays(rt: &impl Print, list: &[u8]) -> Tally {
    let mut t = Tally::default();
    let mut lines = list.chunks_exact(LINE);
    for k in 0..lines.len().max(200) {
        let number = lines.next().and_then(number_of_line);
        t.count(easter_sunday(rt, 2000u64.wrapping_add(k as u64), number));
    }
    t
}

fn easter_sunday(rt: &impl Print, year: u64, number: Option<u64>) -> Outcome {
    let Some(n) = holidays::easter_day(year) else {
        return Outcome::of(rt, false, "year without Easter: ", year);
    };
    let easter = written(u64::from(n));
    Outcome::of(
        rt,
        number == Some(easter),
        "Easter Sunday by the code only: ",
        easter,
    )
}

// Every date of the file is a holiday.
pub(crate) fn holidays_of_the_file(rt: &impl Print, list: &[u8]) -> Tally {
    let mut t = Tally::default();
    for line in list.chunks_exact(LINE) {
        t.count(listed(rt, line));
    }
    t
}

// A line that is no number counts as the date 0, which is none.
fn listed(rt: &impl Print, line: &[u8]) -> Outcome {
    let number = number_of_line(line).unwrap_or(0);
    let Some(n) = dates::day_of(number / 10_000, number / 100 % 100, number % 100) else {
        return Outcome::of(rt, false, "date of the file that is none: ", number);
    };
    let is_holiday = holidays::is_holiday(u64::from(n));
    Outcome::of(rt, is_holiday, "holiday by the file only: ", number)
}

// Every holiday is a date of the file.
pub(crate) fn holidays_of_the_code(rt: &impl Print, list: &[u8]) -> Tally {
    Tally::over(0..=u64::from(LAST_DAY), |n| found(rt, list, n))
}

fn found(rt: &impl Print, list: &[u8], n: u64) -> Outcome {
    if !holidays::is_holiday(n) {
        return Outcome::Nothing;
    }
    let number = written(n);
    Outcome::of(
        rt,
        has_line(list, number),
        "holiday by the code only: ",
        number,
    )
}

// The date of a day as aaaammjj, 0 past the calendar's end.
fn written(n: u64) -> u64 {
    dates::date_of(n).map_or(0, number_of)
}
