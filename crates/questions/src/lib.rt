// The questions: they change nothing, and no pending request is seen through them.
#![tactic(auto)]

ghost use Rattle.std.specs.Prelude.{◌≡◌, ◌+◌, ◌%◌, ◌^◌, if◌then◌else◌, length};
ghost use Rattle.rules.specs.Pinned.Register.{point_at};
ghost use Rattle.questions.specs.Pinned.Questions.{unasked, asked_history, holder_among, holder_answer};
ghost use Rattle.questions.specs.Pinned.Questions.{period_answer, advance_among, advance_in, advance_answer};

use point_checks::outside;
use point_periods::periods_in_use;
use rules::{History, NormalVolume, Period, Register, Thousandths, Volume};

// Who held the point, and how many of its periods were looked at: none where the question is refused. A struct, since
// 02, F-1, wants the number of looks in a refused answer too.
#[derive(Clone, Copy)]
pub struct HolderAnswer {
    pub held: Option<u8>,
    pub probes: u64,
}

// "A refusal reports 0".
const REFUSED: HolderAnswer = HolderAnswer {
    held: None,
    probes: 0,
};

// A point's registered advance, as the wheels count and in normal cubic metres.
#[derive(Clone, Copy)]
pub struct Advance {
    pub volume: Volume,
    pub normal: NormalVolume,
}

// The periods of point p; none where there is no such point, or where it is not enrolled.
fn enrolled_history(r: Register, p: u64) -> Option<History>
    ensures { result ≡ (if unasked r p then None else Some (point_at p r.points).history) }
{
    if outside(1, 32, p) {
        return None;
    }
    let i = (p - 1) as usize;
    let g = r.points[i];
    if !g.fields.enrolled {
        return None;
    }
    Some(g.history)
}

// The same, as a history of no periods where there are none.
#[tactic(auto, unfolding(crate::specs::Pinned::Questions::asked_history))]
pub fn asked_history(r: Register, p: u64) -> History
    ensures { result ≡ asked_history r p }
{
    enrolled_history(r, p).unwrap_or(History {
        count: 0,
        periods: [Period {
            start: 0,
            holder: 0,
            volume: Volume(0),
            normal: NormalVolume(0),
        }; 24],
    })
}

// The periods, the newest first, up to the first that starts on or before a day.
fn holder_among(d: u64, ps: &[Period]) -> HolderAnswer
    ensures { result ≡ holder_among d 0 (length ps.now) ps.now }
{
    let Some(i) = ps.iter().rposition(|q| u64::from(q.start) <= d) else {
        return REFUSED;
    };
    HolderAnswer {
        held: Some(ps[i].holder),
        probes: (ps.len() - i) as u64,
    }
}

// Who holds point p on day d, from its enrolment to the register's day.
#[tactic(auto, using(crate::proofs::Asked::is_off, crate::proofs::Asked::is_on, crate::proofs::Walks::among_used), unfolding(crate::specs::Pinned::Questions::holder_answer))]
pub fn holder_of(r: Register, p: u64, d: u64) -> HolderAnswer
    ensures { result ≡ holder_answer r p d }
{
    let Some(h) = enrolled_history(r, p) else {
        return REFUSED;
    };
    if u64::from(r.day) < d {
        return REFUSED;
    }
    holder_among(d, periods_in_use(&h))
}

// Period n of point p, the oldest first.
#[tactic(auto, using(crate::proofs::Asked::is_off, crate::proofs::Asked::is_on, crate::proofs::Asked::told), unfolding(crate::specs::Pinned::Questions::period_answer))]
pub fn period_of(r: Register, p: u64, n: u64) -> Option<Period>
    ensures { result ≡ period_answer r p n }
{
    let h = enrolled_history(r, p)?;
    let ps = periods_in_use(&h);
    if outside(1, ps.len() as u64, n) {
        return None;
    }
    let i = (n - 1) as usize;
    Some(ps[i])
}

// Volumes of one kind, added; the sum wraps.
fn plus<V: Thousandths>(a: V, b: V) -> V
    ensures { V.amount result ≡ (V.amount a + V.amount b) % 2 ^ 64 }
{
    V::from_thousandths(a.thousandths().wrapping_add(b.thousandths()))
}

// The volumes of periods, added up.
fn sums_of(ps: &[Period]) -> Advance
    ensures { result ≡ advance_among (length ps.now) ps.now }
{
    let mut volume = Volume(0);
    let mut normal = NormalVolume(0);
    for q in ps {
        volume = plus(volume, q.volume);
        normal = plus(normal, q.normal);
    }
    Advance { volume, normal }
}

// What the volumes of a point's periods add up to.
#[tactic(auto, using(crate::proofs::Walks::sum_used))]
pub fn advance_in(h: History) -> Advance
    ensures { result ≡ advance_in h }
{
    sums_of(periods_in_use(&h))
}

// The registered advance of point p.
#[tactic(auto, using(crate::proofs::Asked::is_off, crate::proofs::Asked::is_on), unfolding(crate::specs::Pinned::Questions::advance_answer))]
pub fn advance_of(r: Register, p: u64) -> Option<Advance>
    ensures { result ≡ advance_answer r p }
{
    let h = enrolled_history(r, p)?;
    Some(advance_in(h))
}
