// Gas days and their dates: day 0 is Saturday 1 January 2000, day 73,048 is 31 December 2199.
#![tactic(auto)]

mod month;
mod number;
mod year;

ghost use Rattle.std.specs.Prelude.{◌≡◌};
ghost use Rattle.dates.specs.Dates.{weekday as dates_weekday};
ghost use Rattle.dates.specs.Numbers.{day_answer, date_answer};
ghost use Rattle.dates.specs.Months.{three_months_after};
ghost use Rattle.dates.specs.Between.Years.{year_answer};

use month::Month;

// The last day of the calendar.
pub const LAST_DAY: u32 = 73048;

// A date: month 1 to 12, day of the month from 1.
#[derive(Clone, Copy, PartialEq, Eq)]
pub struct Date {
    pub year: u16,
    pub month: u8,
    pub day: u8,
}

// A year, counted from 2000: its first day, and the first day after it.
#[derive(Clone, Copy)]
pub struct CalendarYear {
    pub index: u32,
    pub start: u32,
    pub end: u32,
}

// The day of a date; only real dates of the calendar have one.
pub fn day_of(year: u64, month: u64, day: u64) -> Option<u32>
    ensures { result ≡ day_answer year month day }
{
    if !(2000..=2199).contains(&year) || !(1..=12).contains(&month) {
        return None;
    }
    let m = Month::new((year - 2000) as u32, (month - 1) as usize);
    if !(1..=u64::from(m.length())).contains(&day) {
        return None;
    }
    Some(m.day_number((day - 1) as u32))
}

// The date of a day; only days of the calendar have one.
#[tactic(auto, unfolding(crate::specs::Numbers::date_answer))]
pub fn date_of(n: u64) -> Option<Date>
    ensures { result ≡ date_answer n }
{
    if n > u64::from(LAST_DAY) {
        return None;
    }
    Some(number::date_on(n as u32))
}

// The year of a day; only days of the calendar have one.
#[tactic(auto, using(crate::proofs::InYear::year_told), unfolding(crate::specs::Between::Years::year_answer))]
pub fn year_of(n: u64) -> Option<CalendarYear>
    ensures { result ≡ year_answer n }
{
    if n > u64::from(LAST_DAY) {
        return None;
    }
    let k = year::of_day(n as u32);
    Some(CalendarYear {
        index: k,
        start: year::start(k),
        end: year::start(k + 1),
    })
}

// The day of the week of a day: 0 is Monday, 6 is Sunday. A number and no enum: its clause says `weekday` of specs/Dates.
#[tactic(auto, unfolding(crate::specs::Dates::weekday))]
pub fn weekday(n: u64) -> u8
    ensures { result ≡ dates_weekday n }
{
    ((n % 7 + 5) % 7) as u8
}

// The same day of the month three months on, or that month's last day; no day is later than the calendar's last.
#[tactic(auto, using(crate::proofs::ThreeMonths::in_the_year, crate::proofs::ThreeMonths::in_the_next), unfolding(crate::specs::Months::three_months_after))]
pub fn three_months_after(n: u64) -> u32
    ensures { result ≡ three_months_after n }
{
    if n > u64::from(LAST_DAY) {
        return LAST_DAY;
    }
    let x = number::date_on(n as u32);
    let year = u32::from(x.year) - 2000;
    let index = usize::from(x.month) - 1;
    let d = u32::from(x.day) - 1;
    if index < 9 {
        return Month::new(year, index + 3).on_or_last(d);
    }
    Month::new(year + 1, index - 9).on_or_last(d)
}
