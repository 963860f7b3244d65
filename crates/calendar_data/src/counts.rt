// Working days counted by the years' words against those that a walk day by day counts.
use crate::tally::{Outcome, Tally};
use dates::LAST_DAY;
use holidays::{is_working, working_days};
use working_count::working_between;

// From the first day to every other: the walk goes on by one day each time.
pub(crate) fn from_the_first_day(rt: &impl Print) -> Tally {
    let mut walked: u32 = 0;
    Tally::over(1..=u64::from(LAST_DAY), |n| {
        let is_same = working_between(0, n) == walked;
        if is_working(n) {
            walked = walked.wrapping_add(1);
        }
        Outcome::of(rt, is_same, "count from the first day to: ", n)
    })
}

// From every day 21 days on, as for a cancel.
pub(crate) fn of_21_days(rt: &impl Print) -> Tally {
    Tally::over(0..=u64::from(LAST_DAY) - 21, |n| compared(rt, n, 21))
}

// From every day as far as its number says, up to three years; the second day may lie past the calendar, where no day is
// worked.
pub(crate) fn of_up_to_three_years(rt: &impl Print) -> Tally {
    Tally::over(0..=u64::from(LAST_DAY), |n| compared(rt, n, n % 1097))
}

// The working days strictly between day n and the day so many days later.
fn compared(rt: &impl Print, n: u64, days: u64) -> Outcome {
    let end = n.wrapping_add(days);
    let by_words = working_between(n, end);
    Outcome::of(rt, by_words == walked(n, end), "count from: ", n)
}

fn walked(n: u64, end: u64) -> u32 {
    working_days(n.saturating_add(1), end.saturating_sub(1))
}
