// Readings and meter changes.
ghost use Rattle.std.specs.Prelude.{◌≡◌};
ghost use Rattle.rules.specs.Pinned.Register.{applied};
ghost use Rattle.register.specs.Between.Calls.{call_at};

use crate::apply_at;
use rules::{NewMeter, Outcome, PointAction, Register};

// 8. A reading of day d: index x, and whether it passed zero.
pub fn reading(r: Register, today: u64, p: u64, d: u64, x: u64, z: u64) -> Outcome
    ensures { result ≡ applied r (call_at today p (PointAction.Reading d x z)) }
{
    apply_at(
        r,
        today,
        p,
        PointAction::Reading {
            day: d,
            index: x,
            zero: z,
        },
    )
}

// 9. The meter is read for the last time and exchanged.
pub fn meter_change(r: Register, today: u64, p: u64, x: u64, z: u64, meter: NewMeter) -> Outcome
    ensures { result ≡ applied r (call_at today p (PointAction.MeterChange x z meter)) }
{
    apply_at(
        r,
        today,
        p,
        PointAction::MeterChange {
            index: x,
            zero: z,
            meter,
        },
    )
}
