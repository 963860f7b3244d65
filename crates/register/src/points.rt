// All points of the register at once: brought up to a day, and a supplier's failure.
ghost use Rattle.std.specs.Prelude.{◌≡◌, map};
ghost use Rattle.rules.specs.Rejections.{any_point};
ghost use Rattle.rules.specs.Pinned.Register.{blank_point, point_at};
ghost use Rattle.point_effects.specs.Between.{caught_up};
ghost use Rattle.register.specs.Between.Calls.{brought_up, point_on, failure_fills, failed_on};

use dates::LAST_DAY;
use point_checks::view_of;
use point_effects::{catch_up, fail, fills, note};
use rules::{
    Code, Fields, History, Meter, NormalVolume, Pending, Period, Point, Reading, Register,
    Settings, Supply, SupplyKind, Volume,
};

// A point that was never enrolled.
pub(crate) fn blank_point() -> Point
    ensures { result ≡ blank_point }
{
    Point {
        fields: Fields {
            enrolled: false,
            supply: Supply {
                holder: 0,
                kind: SupplyKind::None,
                pending: Pending::Nothing,
            },
            key: 0,
            mark: 0,
            meter: Meter {
                before: 0,
                after: 0,
                code: Code::Normal,
            },
            reading: Reading { day: 0, index: 0 },
        },
        history: History {
            count: 0,
            periods: [Period {
                start: 0,
                holder: 0,
                volume: Volume(0),
                normal: NormalVolume(0),
            }; 24],
        },
    }
}

// Every point brought up to a day.
#[tactic(auto, using(crate::proofs::Sweep::swept_more, crate::proofs::Sweep::swept_all))]
fn all_caught_up(set: Settings, t: u32, ps: [Point; 32]) -> [Point; 32]
    ensures { result ≡ map (caught_up set t) ps }
{
    let mut out = ps;
    for g in out.iter_mut() {
        *g = catch_up(set, t, *g);
    }
    out
}

// Every point after a failure of s.
#[tactic(auto, using(crate::proofs::Sweep::swept_more, crate::proofs::Sweep::swept_all), unfolding(crate::specs::Between::Calls::failed_on))]
pub(crate) fn all_failed(set: Settings, t: u32, s: u64, ps: [Point; 32]) -> [Point; 32]
    ensures { result ≡ map (failed_on set t s) ps }
{
    let mut out = ps;
    for point in out.iter_mut() {
        *point = note(t, fail(set, t, s, point.fields), point.history);
    }
    out
}

// A failure of s fills one of the points.
pub(crate) fn any_filled(t: u64, s: u64, ps: [Point; 32]) -> bool
    ensures { (S : Settings) → result ≡ any_point 1 32 (λ p. failure_fills S t s (point_at p ps)) }
{
    for g in &ps {
        if fills(s, view_of(t, *g)) {
            return true;
        }
    }
    false
}

// The register brought up to a day: no work where it is there already.
#[tactic(auto, using(crate::proofs::Advanced::advanced_off, crate::proofs::Advanced::advanced_same, crate::proofs::Advanced::advanced_new))]
pub fn brought_up(today: u64, r: Register) -> Register
    ensures { result ≡ brought_up today r }
{
    if today > LAST_DAY as u64 {
        return r;
    }
    let t = today as u32;
    if r.day == t {
        return r;
    }
    let set = r.settings;
    let ps = r.points;
    let now = all_caught_up(set, t, ps);
    let mut next = r;
    next.day = t;
    next.points = now;
    next
}

// Point p as a call finds it; other points are not caught up for it.
#[tactic(auto, using(crate::proofs::Advanced::advanced_off, crate::proofs::Advanced::advanced_same, crate::proofs::Advanced::advanced_new, crate::proofs::Advanced::point_caught_up), unfolding(crate::specs::Between::Calls::point_on))]
pub(crate) fn point_on(today: u64, p: u64, r: Register) -> Point
    ensures { result ≡ point_on today p r }
{
    if p < 1 || p > 32 {
        return blank_point();
    }
    let i = (p - 1) as usize;
    let g = r.points[i];
    if today > LAST_DAY as u64 {
        return g;
    }
    let t = today as u32;
    if r.day == t {
        return g;
    }
    catch_up(r.settings, t, g)
}
