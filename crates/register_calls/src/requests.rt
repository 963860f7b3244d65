// Requests and their cancel.
ghost use Rattle.std.specs.Prelude.{◌≡◌};
ghost use Rattle.rules.specs.Pinned.Register.{applied};
ghost use Rattle.register.specs.Between.Calls.{call_at};

use crate::apply_at;
use rules::{Outcome, PointAction, Register};

// 6. Supplier s asks for point p from day d on.
pub fn request(r: Register, today: u64, p: u64, s: u64, key: u64, d: u64) -> Outcome
    ensures { result ≡ applied r (call_at today p (PointAction.Request s key d)) }
{
    apply_at(
        r,
        today,
        p,
        PointAction::Request {
            supplier: s,
            key,
            day: d,
        },
    )
}

// 7. Supplier s cancels its request.
pub fn cancel(r: Register, today: u64, p: u64, s: u64) -> Outcome
    ensures { result ≡ applied r (call_at today p (PointAction.Cancel s)) }
{
    apply_at(r, today, p, PointAction::Cancel { supplier: s })
}
