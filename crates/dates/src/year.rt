// Years of the calendar: leap years, and the first day of each year.
ghost use Rattle.std.specs.Prelude.{◌≡◌, suc, ◌≤◌, ◌<◌};
ghost use Rattle.dates.specs.Dates.{leap_row};
ghost use Rattle.dates.specs.Numbers.{year_start};

// The row of the month table: 1 in a leap year, else 0. A number and no flag: it is the index of that row.
#[tactic(auto, unfolding(crate::specs::Dates::leap_row))]
pub(crate) fn leap_row(year: u64) -> usize
    ensures { (result ≡ leap_row year) × (result < 2) }
{
    usize::from(year % 400 == 0 || (year % 100 != 0 && year % 4 == 0))
}

// The day of 1 January 2000 + k: a leap day for each fourth year before it, and none for 2100.
#[tactic(auto, using(crate::proofs::Years::year_is))]
pub(crate) fn start(k: u32) -> u32
    requires { k ≤ 200 }
    ensures { (result ≡ year_start k) × (result ≤ 73049) }
{
    let days = 365 * k + (k + 3) / 4;
    if k <= 100 {
        return days;
    }
    days - 1
}

// The year of a day, counted from 2000: a 366th of it, or the year after.
#[tactic(auto, using(crate::proofs::Years::year_is))]
pub(crate) fn of_day(n: u32) -> u32
    requires { n ≤ 73048 }
    ensures { (result < 200) × (year_start result ≤ n) × (n < year_start (suc result)) }
{
    let k = n / 366;
    if n < start(k + 1) {
        return k;
    }
    k + 1
}
