// When something next falls due, and what the checks see of a point brought up to a day, without its periods.
#![tactic(auto)]

mod seen;

ghost use Rattle.std.specs.Prelude.{◌≡◌};
ghost use Rattle.input_quiet.specs.Between.Quiet.{due_day, first_due, kind_ends, request_falls};

use rules::{Fields, Pending, Supply, SupplyKind};
pub use seen::view_on;

// The first day past the calendar: nothing falls due on it.
const NEVER: u32 = 73049;

fn kind_ends(k: SupplyKind) -> u32
    ensures { result ≡ kind_ends k }
{
    match k {
        SupplyKind::None => NEVER,
        SupplyKind::Contract => NEVER,
        SupplyKind::Default(d) => d,
        SupplyKind::LastResort(d) => d,
    }
}

fn request_falls(q: Pending) -> u32
    ensures { result ≡ request_falls q }
{
    match q {
        Pending::Nothing => NEVER,
        Pending::Request(_, e) => e,
    }
}

// The first day on which something falls due at a point.
pub fn due_day(s: Supply) -> u32
    ensures { result ≡ due_day s }
{
    kind_ends(s.kind).min(request_falls(s.pending))
}

// The first day on which something falls due at one of the points.
pub fn first_due(fields: &[Fields; 32]) -> u32
    ensures { result ≡ first_due fields.now }
{
    let mut first = NEVER;
    for f in fields {
        first = first.min(due_day(f.supply));
    }
    first
}
