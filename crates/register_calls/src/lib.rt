// The twelve calls, each over apply. The register, today and the point stand in each by themselves: the README names these calls,
// and a caller has them at hand.
#![tactic(auto)]

mod readings;
mod requests;
mod service;

ghost use Rattle.std.specs.Prelude.{◌≡◌};
ghost use Rattle.rules.specs.Pinned.Register.{applied, on};
ghost use Rattle.register.specs.Between.Calls.{call_at};

pub use readings::{meter_change, reading};
use register::apply;
pub use requests::{cancel, request};
use rules::{Action, Call, Outcome, PointAction, Register};
pub use service::{default_supply, enrol, into_service, out_of_service, suspend};

fn apply_on(r: Register, today: u64, action: Action) -> Outcome
    ensures { result ≡ applied r (on today action) }
{
    apply(r, Call { today, action })
}

pub(crate) fn apply_at(r: Register, today: u64, p: u64, a: PointAction) -> Outcome
    ensures { result ≡ applied r (call_at today p a) }
{
    apply_on(r, today, Action::At { point: p, act: a })
}

// 1. Supplier s is under contract.
pub fn contract(r: Register, today: u64, s: u64) -> Outcome
    ensures { result ≡ applied r (on today (Action.Contract s)) }
{
    apply_on(r, today, Action::Contract { supplier: s })
}

// 2. Supplier s fails.
pub fn failure(r: Register, today: u64, s: u64) -> Outcome
    ensures { result ≡ applied r (on today (Action.Failure s)) }
{
    apply_on(r, today, Action::Failure { supplier: s })
}

// 12. A new day.
pub fn day(r: Register, today: u64) -> Outcome
    ensures { result ≡ applied r (on today Action.Day) }
{
    apply_on(r, today, Action::Day)
}
