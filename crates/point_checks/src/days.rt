// Conditions on days.
ghost use Rattle.std.specs.Prelude.{◌≡◌, ◌||◌, ◌+◌, min, leb, ltb};
ghost use Rattle.rules.specs.Effects.{notice as effects_notice, effective_day};
ghost use Rattle.rules.specs.Rejections.{is_past, bad_day, too_late};

use dates::{LAST_DAY, three_months_after};
use rules::{Pending, Settings};
use working_count::working_between;

// 20: past the calendar's end.
pub fn is_past(d: u64) -> bool
    ensures { result ≡ is_past d }
{
    u64::from(LAST_DAY) < d
}

// 20: today or the day n days later is past the calendar's end.
pub fn sum_past(t: u64, n: u64) -> bool
    ensures { result ≡ (is_past t || is_past (t + n)) }
{
    is_past(t) || is_past(t.saturating_add(n))
}

// How many days a request takes at the least.
fn notice(set: Settings, t: u64) -> u64
    ensures { result ≡ effects_notice set t }
{
    21
}

// e: the larger of r and today + 21; the first day past the calendar where e lies past its end.
#[tactic(auto, unfolding(rules::specs::Effects::effective_day))]
pub fn effective_day(set: Settings, t: u64, r: u64) -> u32
    ensures { result ≡ min (effective_day set t r) 73049 }
{
    r.max(t.saturating_add(notice(set, t)))
        .min(u64::from(LAST_DAY) + 1) as u32
}

// 3: the day asked for is before today or too far off, or e is past the calendar's end.
pub fn bad_day(set: Settings, t: u64, r: u64) -> bool
    ensures { result ≡ bad_day set t r }
{
    r < t || u64::from(three_months_after(t)) < r || LAST_DAY < effective_day(set, t, r)
}

// 8: today + 21 is at or past the deadline.
pub fn near(set: Settings, t: u64, deadline: u32) -> bool
    ensures { result ≡ leb deadline (t + effects_notice set t) }
{
    u64::from(deadline) <= t.saturating_add(notice(set, t))
}

// 26: fewer than W working days lie after today and before e.
pub fn too_late(set: Settings, t: u64, q: Pending) -> bool
    ensures { result ≡ too_late set t q }
{
    let Pending::Request(_, e) = q else {
        return false;
    };
    working_between(t, u64::from(e)) < u32::from(set.w)
}

// 27: not after the last reading, or past today.
pub fn out_of_time(t: u64, d: u64, last: u32) -> bool
    ensures { result ≡ (leb d last || ltb t d) }
{
    d <= u64::from(last) || t < d
}
