// Number 30: a point's marks and those due.
ghost use Rattle.std.specs.Prelude.{◌≡◌, cond, ◌+◌, ◌≤◌, ltb};
ghost use Rattle.rules.specs.Rejections.{pending_due, kind_due};
ghost use Rattle.rules.specs.Pinned.Register.{view};

use point_periods::period_count;
use rules::{Pending, Point, SupplyKind, View};

// Marks that are due: pending 1, default 2, last resort 1.
fn kind_due(k: SupplyKind) -> usize
    ensures { (result ≡ kind_due k) × (result ≤ 2) }
{
    match k {
        SupplyKind::None | SupplyKind::Contract => 0,
        SupplyKind::Default(_) => 2,
        SupplyKind::LastResort(_) => 1,
    }
}

fn pending_due(q: Pending) -> usize
    ensures { (result ≡ pending_due q) × (result ≤ 1) }
{
    match q {
        Pending::Nothing => 0,
        Pending::Request(_, _) => 1,
    }
}

// What the checks see of a point on day t.
#[tactic(auto, unfolding(rules::specs::Pinned::Register::starts_on))]
pub fn view_of(t: u64, g: Point) -> View
    ensures { result ≡ view t g }
{
    let n = period_count(g.history);
    View {
        fields: g.fields,
        marks: n,
        marked: 0 < n && u64::from(g.history.periods[n - 1].start) == t,
    }
}

// 30: the marks after the call, and those due under the kind and the request that it leaves, exceed 24. A holder named
// today marks today's cell; `names` is that part of the call's effect, as it stands in the clause, and chooses no step.
pub fn is_full(v: View, names: bool, k: SupplyKind, q: Pending) -> bool
    ensures { result ≡
        ltb 24 (cond names (v.marks + cond v.marked 0 1) v.marks + (pending_due q + kind_due k)) }
{
    let due = pending_due(q) + kind_due(k);
    let new = usize::from(names && !v.marked);
    24 < v.marks.saturating_add(due + new)
}
