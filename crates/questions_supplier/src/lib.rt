// A supplier's own periods at a point: what it may be handed. Nothing of another supplier's half is in it.
#![tactic(auto)]

ghost use Rattle.std.specs.Prelude.{◌≡◌, ◌+◌, ◌<◌, length, drop};
ghost use Rattle.questions_supplier.specs.Pinned.Own.{own, end_in, own_in, nth_own, own_answer};

use point_checks::outside;
use point_periods::periods_in_use;
use questions::asked_history;
use rules::{NormalVolume, Period, Register, Volume};

// A period as the supplier that holds it is told it.
#[derive(Clone, Copy)]
pub struct OwnPeriod {
    pub start: u32,
    pub end: Option<u32>,
    pub volume: Volume,
    pub normal: NormalVolume,
}

// Why a view is refused: no supplier asks; or nothing such is in this supplier's perimeter.
#[derive(Clone, Copy)]
pub enum ViewRefusal {
    OffRange,
    OutOfPerimeter,
}

// Period n of those that supplier s has held at point p, the oldest first.
#[tactic(auto, using(questions::proofs::Asked::told), unfolding(crate::specs::Pinned::Own::own_answer, crate::specs::Pinned::Own::own_periods))]
pub fn own_period_of(r: Register, s: u64, p: u64, n: u64) -> Result<OwnPeriod, ViewRefusal>
    ensures { result ≡ own_answer r s p n }
{
    if outside(1, 99, s) {
        return Err(ViewRefusal::OffRange);
    }
    let h = asked_history(r, p);
    own_among(s, n, periods_in_use(&h))
}

// The n-th that s holds of the periods.
fn own_among(s: u64, n: u64, ps: &[Period]) -> Result<OwnPeriod, ViewRefusal>
    ensures { result ≡ nth_own n (own_in s ps.now) }
{
    let mut seen: u64 = 0;
    for (i, &q) in ps.iter().enumerate() {
        if u64::from(q.holder) == s {
            seen += 1;
            if seen == n {
                return Ok(own_period(q, end_of(i, ps)));
            }
        }
    }
    Err(ViewRefusal::OutOfPerimeter)
}

// Where period i ends.
fn end_of(i: usize, ps: &[Period]) -> Option<u32>
    requires { i < length ps.now }
    ensures { result ≡ end_in (drop (i + 1) ps.now) }
{
    let next = ps.get(i + 1)?;
    Some(next.start)
}

fn own_period(q: Period, end: Option<u32>) -> OwnPeriod
    ensures { result ≡ own q end }
{
    OwnPeriod {
        start: q.start,
        end,
        volume: q.volume,
        normal: q.normal,
    }
}
