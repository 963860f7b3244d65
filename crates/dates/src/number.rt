// The date of a day's number.
ghost use Rattle.std.specs.Prelude.{◌≡◌, ◌≤◌};
ghost use Rattle.dates.specs.Dates.{date_of, InRange};

use crate::month::Month;
use crate::{Date, year};

// The date of a day of the calendar.
#[tactic(auto, using(crate::proofs::Counting::placed, crate::proofs::Counting::placed_short), unfolding(crate::specs::Numbers::year_start))]
pub(crate) fn date_on(n: u32) -> Date
    requires { n ≤ 73048 }
    ensures { (result ≡ date_of n) × InRange result }
{
    let k = year::of_day(n);
    let rest = n - year::start(k);
    let m = Month::of_day(k, rest);
    let d = rest - m.start();
    Date {
        year: (2000 + k) as u16,
        month: (m.index + 1) as u8,
        day: (d + 1) as u8,
    }
}
