// A point's periods in their slots: how many there are, and a holder named.
#![tactic(auto)]

ghost use Rattle.std.specs.Prelude.{◌≡◌, ◌-◌, ◌<◌, min, take};
ghost use Rattle.rules.specs.Pinned.Register.{used, starts_on, replaced as register_replaced};
ghost use Rattle.rules.specs.Pinned.Register.{appended as register_appended};
ghost use Rattle.rules.specs.Pinned.Register.{named as register_named};

use rules::{History, NormalVolume, Period, Volume};

// How many periods a point has.
pub fn period_count(h: History) -> usize
    ensures { result ≡ used h }
{
    h.count.min(24)
}

// A point's periods, the oldest first: the slots in use.
pub fn periods_in_use(h: &History) -> &[Period]
    ensures { result.now ≡ take (used h.now) h.now.periods }
{
    &h.periods[..period_count(*h)]
}

// The newest period starts on a day.
#[tactic(auto, unfolding(rules::specs::Pinned::Register::starts_on))]
fn starts_on(day: u32, h: History) -> bool
    ensures { result ≡ starts_on day h }
{
    let n = period_count(h);
    0 < n && h.periods[n - 1].start == day
}

// The newest period gets another holder.
#[tactic(auto, unfolding(rules::specs::Pinned::Register::replaced))]
fn replaced(day: u32, s: u8, mut h: History) -> History
    requires { 0 < h.count }
    ensures { result ≡ register_replaced day s h }
{
    let n = period_count(h);
    let q = h.periods[n - 1];
    h.periods[n - 1] = Period {
        start: day,
        holder: s,
        ..q
    };
    h
}

// A new period, where there is a slot for it.
#[tactic(auto, unfolding(rules::specs::Pinned::Register::appended))]
fn appended(day: u32, s: u8, mut h: History) -> History
    ensures { result ≡ register_appended day s h }
{
    let n = period_count(h);
    if n == 24 {
        return h;
    }
    h.periods[n] = Period {
        start: day,
        holder: s,
        volume: Volume(0),
        normal: NormalVolume(0),
    };
    h.count = n + 1;
    h
}

// A holder is named on a day; a second one on that day replaces the first.
#[tactic(auto, using(crate::proofs::Starts::starts_some), unfolding(rules::specs::Pinned::Register::named))]
pub fn named(day: u32, s: u8, h: History) -> History
    ensures { result ≡ register_named day s h }
{
    if starts_on(day, h) {
        return replaced(day, s, h);
    }
    appended(day, s, h)
}

// The place of the newest period; 0 where there is none.
pub fn newest_place(count: usize) -> usize
    ensures { result ≡ min count 24 - 1 }
{
    count.min(24).saturating_sub(1)
}
