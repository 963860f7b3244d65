// Months of the calendar's years: their lengths, their first days, and the numbers of their days.
ghost use Rattle.std.specs.Prelude.{◌≡◌, ◌+◌, suc, ◌≤◌, ◌<◌, min};
ghost use Rattle.dates.specs.Dates.{leap_row, month_length};
ghost use Rattle.dates.specs.Numbers.{month_start, day_number};
ghost use Rattle.dates.specs.Months.{on_or_last};

use crate::{LAST_DAY, year};

// The days of each month: a row for common years, one for leap years. An array of arrays, as the buyer asks for
// (docs/RULES.md).
const LENGTHS: [[u8; 12]; 2] = [
    [31, 28, 31, 30, 31, 30, 31, 31, 30, 31, 30, 31],
    [31, 29, 31, 30, 31, 30, 31, 31, 30, 31, 30, 31],
];

// The days of a year before each month: the sums of the lengths before it, in the same two rows.
const STARTS: [[u16; 12]; 2] = [
    [0, 31, 59, 90, 120, 151, 181, 212, 243, 273, 304, 334],
    [0, 31, 60, 91, 121, 152, 182, 213, 244, 274, 305, 335],
];

// A month of the calendar, or of the year after it: its year counted from 2000, and its index in that year from 0. The
// row of its year in the tables is worked out once: a walk day by day would pay for each time.
#[derive(Clone, Copy)]
pub(crate) struct Month {
    year: u32,
    pub(crate) index: usize,
    row: usize,
    ghost in_calendar: { year ≤ 200 },
    ghost in_year: { index < 12 },
    ghost row_of_year: { row ≡ leap_row (2000 + year) },
}

impl Month {
    // A month by its year and its index.
    pub(crate) fn new(year: u32, index: usize) -> Month
        requires { (year ≤ 200) × (index < 12) }
        ensures { (result.year ≡ year) × (result.index ≡ index) }
    {
        Month {
            year,
            index,
            row: year::leap_row(2000 + u64::from(year)),
        }
    }

    // The month of a day of a year: a 32nd of it, or the month after.
    #[tactic(auto, using(crate::proofs::Months::row_is, crate::proofs::Months::year_length_lem, crate::proofs::Months::month_kept, crate::proofs::Months::month_after), unfolding(crate::specs::Numbers::month_start))]
    pub(crate) fn of_day(year: u32, rest: u32) -> Month
        requires { (year ≤ 200) × (rest < month_start (leap_row (2000 + year)) 12) }
        ensures { (result.year ≡ year)
            × (month_start (leap_row (2000 + year)) result.index ≤ rest)
            × (rest < month_start (leap_row (2000 + year)) (suc result.index)) }
    {
        let m = Month::new(year, (rest / 32) as usize);
        if rest < m.start() + m.length() {
            return m;
        }
        Month {
            year,
            index: m.index + 1,
            row: m.row,
        }
    }

    // Its days.
    #[tactic(auto, using(crate::proofs::Months::row_is, crate::proofs::Months::length_bounds), unfolding(crate::specs::Dates::month_length))]
    pub(crate) fn length(self) -> u32
        ensures { (result ≡ month_length (leap_row (2000 + self.year)) self.index) × (28 ≤ result) × (result ≤ 31) }
    {
        u32::from(LENGTHS[self.row][self.index])
    }

    // The days of its year before it.
    #[tactic(auto, using(crate::proofs::Months::row_is, crate::proofs::Months::start_is))]
    pub(crate) fn start(self) -> u32
        ensures { (result ≡ month_start (leap_row (2000 + self.year)) self.index) × (result ≤ 335) }
    {
        u32::from(STARTS[self.row][self.index])
    }

    // The number of a day of it, counted from 0.
    #[tactic(auto, unfolding(crate::specs::Numbers::day_number))]
    pub(crate) fn day_number(self, d: u32) -> u32
        requires { d < 31 }
        ensures { (result ≡ day_number (2000 + self.year) (self.index + 1) (d + 1)) × (result ≤ 73414) }
    {
        year::start(self.year) + self.start() + d
    }

    // The number of a day of it, or of its last day where it is shorter; none is later than the calendar's last.
    #[tactic(auto, using(crate::proofs::ThreeMonths::kept_or_last))]
    pub(crate) fn on_or_last(self, d: u32) -> u32
        requires { d < 31 }
        ensures { result ≡ min 73048 (on_or_last (2000 + self.year) (self.index + 1) (d + 1)) }
    {
        let last = self.length() - 1;
        self.day_number(d.min(last)).min(LAST_DAY)
    }
}
