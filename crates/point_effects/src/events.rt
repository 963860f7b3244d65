// What falls due at a point, and catching up.
ghost use Rattle.std.specs.Prelude.{◌≡◌, ◌≤◌};
ghost use Rattle.rules.specs.Pinned.Register.{expiry_by, ends_before, happened};
ghost use Rattle.point_effects.specs.Between.{due_in, next_in, caught_up};

use crate::effects::UNSUPPLIED;
use crate::named_point;
use dates::LAST_DAY;
use rules::{Due, Fields, Pending, Point, Settings, Supply, SupplyKind};

// What ends a supply kind by day t, where q is pending.
#[tactic(auto, unfolding(rules::specs::Pinned::Register::expiry_by))]
fn expiry_by(set: Settings, t: u32, k: SupplyKind, q: Pending) -> Due
    requires { t ≤ 73048 }
    ensures { result ≡ expiry_by set t k q }
{
    match k {
        SupplyKind::Default(d) if d <= t => Due::Naming {
            day: d,
            supply: Supply {
                holder: set.resort,
                kind: SupplyKind::LastResort(d + u32::from(set.b)),
                pending: q,
            },
        },
        SupplyKind::LastResort(d) if d <= t => Due::Naming {
            day: d,
            supply: UNSUPPLIED,
        },
        _ => Due::Nothing,
    }
}

#[tactic(auto, unfolding(rules::specs::Pinned::Register::ends_before))]
fn ends_before(k: SupplyKind, day: u32) -> bool
    ensures { result ≡ ends_before k day }
{
    match k {
        SupplyKind::None | SupplyKind::Contract => false,
        SupplyKind::Default(d) | SupplyKind::LastResort(d) => d < day,
    }
}

// What falls due first by day t: a request and a deadline on one day, the request. Past the calendar's end, nothing.
#[tactic(auto, unfolding(crate::specs::Between::due_in, rules::specs::Pinned::Register::due_by))]
pub fn due_by(set: Settings, t: u32, k: SupplyKind, q: Pending) -> Due
    ensures { result ≡ due_in set t k q }
{
    if t > LAST_DAY {
        return Due::Nothing;
    }
    let Pending::Request(s, e) = q else {
        return expiry_by(set, t, k, Pending::Nothing);
    };
    if t < e || ends_before(k, e) {
        return expiry_by(set, t, k, q);
    }
    Due::Naming {
        day: e,
        supply: Supply {
            holder: s,
            kind: SupplyKind::Contract,
            pending: Pending::Nothing,
        },
    }
}

// The point after what fell due.
#[tactic(auto, unfolding(rules::specs::Pinned::Register::happened))]
fn happen(d: Due, g: Point) -> Point
    ensures { result ≡ happened d g }
{
    match d {
        Due::Nothing => g,
        Due::Naming { day, supply } => {
            let after = Fields { supply, ..g.fields };
            named_point(day, after, g.history)
        }
    }
}

#[tactic(auto, unfolding(crate::specs::Between::next_in))]
fn next_event(set: Settings, t: u32, g: Point) -> Point
    ensures { result ≡ next_in set t g }
{
    let now = g.fields.supply;
    happen(due_by(set, t, now.kind, now.pending), g)
}

// The point brought up to a day: two events at the most.
#[tactic(auto, unfolding(crate::specs::Between::caught_up))]
pub fn catch_up(set: Settings, t: u32, g: Point) -> Point
    ensures { result ≡ caught_up set t g }
{
    let once = next_event(set, t, g);
    next_event(set, t, once)
}
