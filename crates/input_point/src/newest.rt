// What is looked at and stored of a point's periods: how many they are, and the newest of them.
ghost use Rattle.std.specs.Prelude.{◌≡◌, ◌<◌, ◌&&◌, ◌+◌, ◌-◌, ◌*◌, min, eqb, ltb, get_or};
ghost use Rattle.rules.specs.Pinned.Register.{no_period};
ghost use Rattle.input_point.specs.Between.Deeds.{lies_in};

use input_tables::Tables;
use point_periods::newest_place;
use rules::Period;

// The period is that of slot 0 where there is none.
#[derive(Clone, Copy)]
pub struct Newest {
    pub count: usize,
    pub period: Period,
}

impl Newest {
    // What the tables have of the point at place i.
    pub(crate) fn of(tables: &Tables, i: usize) -> Newest
        requires { i < 32 }
        ensures { result ≡ record {
          count = get_or tables.now.counts i 0;
          period = get_or tables.now.slots (24 * i + (min (get_or tables.now.counts i 0) 24 - 1)) no_period;
        } }
    {
        let count = tables.counts[i];
        Newest {
            count,
            period: tables.slots[24 * i + newest_place(count)],
        }
    }

    // The newest period starts on a day.
    pub(crate) fn starts_on(&self, day: u32) -> bool
        ensures { result ≡ (ltb 0 (min self.now.count 24) && eqb self.now.period.start day) }
    {
        0 < self.count && self.period.start == day
    }

    // The days from a day on all lie in the newest period.
    pub(crate) fn lies_in(&self, from: u32) -> bool
        ensures { result ≡ lies_in self.now.count self.now.period.start from }
    {
        0 < self.count && self.period.start <= from
    }
}
