// Legal holidays and working days of the calendar.
#![tactic(auto)]

mod easter;

ghost use Rattle.std.specs.Prelude.{◌≡◌, ◌≤◌};
ghost use Rattle.holidays.specs.Easter.{easter_day};
ghost use Rattle.holidays.specs.Holidays.{falls_on, is_fixed_holiday, is_after_easter, is_holiday};
ghost use Rattle.holidays.specs.Working.{is_working, working_days};

use dates::{Date, LAST_DAY};
pub use easter::easter_day;

// The day of the week after the last that is worked, as `dates::weekday` counts them.
const SATURDAY: u8 = 5;

// A holiday with a fixed date: month and day, and the first year in which it is one.
#[derive(Clone, Copy)]
pub struct FixedHoliday {
    pub month: u8,
    pub day: u8,
    pub since: u16,
}

impl FixedHoliday {
    // Whether it falls on a date.
    #[tactic(auto, unfolding(crate::specs::Holidays::falls_on))]
    fn falls_on(&self, x: Date) -> bool
        ensures { result ≡ falls_on self.now x }
    {
        self.month == x.month && self.day == x.day && self.since <= x.year
    }
}

// The holidays with a fixed date: 9 May since 2019, all others since the calendar's first year.
const FIXED: [FixedHoliday; 8] = [
    FixedHoliday {
        month: 1,
        day: 1,
        since: 2000,
    },
    FixedHoliday {
        month: 5,
        day: 1,
        since: 2000,
    },
    FixedHoliday {
        month: 5,
        day: 9,
        since: 2019,
    },
    FixedHoliday {
        month: 6,
        day: 23,
        since: 2000,
    },
    FixedHoliday {
        month: 8,
        day: 15,
        since: 2000,
    },
    FixedHoliday {
        month: 11,
        day: 1,
        since: 2000,
    },
    FixedHoliday {
        month: 12,
        day: 25,
        since: 2000,
    },
    FixedHoliday {
        month: 12,
        day: 26,
        since: 2000,
    },
];

// Whether a day is a legal holiday; no number past the calendar's end is one.
#[tactic(auto, using(dates::proofs::Answers::answer_on, dates::proofs::Answers::answer_off), unfolding(crate::specs::Holidays::is_holiday, crate::specs::Holidays::is_holiday_on))]
pub fn is_holiday(n: u64) -> bool
    ensures { result ≡ is_holiday n }
{
    let Some(x) = dates::date_of(n) else {
        return false;
    };
    is_fixed_holiday(x) || is_after_easter(n, u64::from(x.year))
}

// Whether a day is Monday to Friday and no legal holiday; no number past the calendar's end is one.
#[tactic(auto, unfolding(crate::specs::Working::is_working))]
pub fn is_working(n: u64) -> bool
    ensures { result ≡ is_working n }
{
    n <= u64::from(LAST_DAY) && dates::weekday(n) < SATURDAY && !is_holiday(n)
}

// The working days from a first to a last day, both counted. A test in a `for`: a chain of `filter` and `count` takes
// longer.
pub fn working_days(first: u64, last: u64) -> u32
    ensures { result ≡ working_days first last }
{
    let end = last.min(u64::from(LAST_DAY)) + 1;
    let mut count: u32 = 0;
    for d in first..end {
        if is_working(d) {
            count += 1;
        }
    }
    count
}

// Whether a row of the table of fixed holidays falls on a date.
fn is_fixed_holiday(x: Date) -> bool
    ensures { result ≡ is_fixed_holiday x }
{
    FIXED.iter().any(|f| f.falls_on(x))
}

// Whether a day is 1, 39 or 50 days after Easter Sunday of a year.
#[tactic(auto, unfolding(crate::specs::Holidays::is_after_easter))]
fn is_after_easter(n: u64, year: u64) -> bool
    ensures { result ≡ is_after_easter n (easter_day year) }
{
    let Some(e) = easter_day(year) else {
        return false;
    };
    let easter = u64::from(e);
    n == easter + 1 || n == easter + 39 || n == easter + 50
}
