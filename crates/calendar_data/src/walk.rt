// All days of the calendar to their dates and back, and all dates in their order to their days and back.
use crate::tally::{Outcome, Tally};
use crate::text;
use dates::{Date, LAST_DAY};

pub(crate) fn days(rt: &impl Print) -> Tally {
    Tally::over(0..=u64::from(LAST_DAY), |n| day(rt, n))
}

// The date of day n has the day n.
fn day(rt: &impl Print, n: u64) -> Outcome {
    let Some(x) = dates::date_of(n) else {
        return Outcome::of(rt, false, "day without a date: ", n);
    };
    let is_same = day_of(x).map(u64::from) == Some(n);
    Outcome::of(rt, is_same, "day that does not come back: ", n)
}

// 200 years of 12 months of 31 days each, in their order: those that have a day have the days 0, 1, 2 and so on.
pub(crate) fn dates(rt: &impl Print) -> Tally {
    let mut t = Tally::default();
    for year in 2000u16..2200 {
        for month in 1u8..13 {
            for day in 1u8..32 {
                let next = t.compared;
                t.count(date(rt, Date { year, month, day }, next));
            }
        }
    }
    t
}

// A date has the day next, if it has one, and that day has the date.
fn date(rt: &impl Print, x: Date, next: u64) -> Outcome {
    let Some(day) = day_of(x) else {
        return Outcome::Nothing;
    };
    let n = u64::from(day);
    let is_same = n == next && dates::date_of(n) == Some(x);
    Outcome::of(
        rt,
        is_same,
        "date that does not come back: ",
        text::number_of(x),
    )
}

fn day_of(x: Date) -> Option<u32> {
    dates::day_of(u64::from(x.year), u64::from(x.month), u64::from(x.day))
}
