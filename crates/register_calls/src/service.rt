// Points in and out of service, and their suspension.
ghost use Rattle.std.specs.Prelude.{◌≡◌};
ghost use Rattle.rules.specs.Pinned.Register.{applied};
ghost use Rattle.register.specs.Between.Calls.{call_at};

use crate::apply_at;
use rules::{NewMeter, Outcome, PointAction, Register};

// 3. Point p is enrolled with its meter.
pub fn enrol(r: Register, today: u64, p: u64, meter: NewMeter) -> Outcome
    ensures { result ≡ applied r (call_at today p (PointAction.Enrol meter)) }
{
    apply_at(r, today, p, PointAction::Enrol { meter })
}

// 4. Point p goes into service with supplier s.
pub fn into_service(r: Register, today: u64, p: u64, s: u64, key: u64) -> Outcome
    ensures { result ≡ applied r (call_at today p (PointAction.IntoService s key)) }
{
    apply_at(r, today, p, PointAction::IntoService { supplier: s, key })
}

// 5. Point p goes into default supply.
pub fn default_supply(r: Register, today: u64, p: u64, key: u64) -> Outcome
    ensures { result ≡ applied r (call_at today p (PointAction.DefaultSupply key)) }
{
    apply_at(r, today, p, PointAction::DefaultSupply { key })
}

// 10. Point p goes out of service.
pub fn out_of_service(r: Register, today: u64, p: u64) -> Outcome
    ensures { result ≡ applied r (call_at today p PointAction.OutOfService) }
{
    apply_at(r, today, p, PointAction::OutOfService)
}

// 11. Access is suspended, or free again.
pub fn suspend(r: Register, today: u64, p: u64, mark: u64) -> Outcome
    ensures { result ≡ applied r (call_at today p (PointAction.Suspend mark)) }
{
    apply_at(r, today, p, PointAction::Suspend { mark })
}
