// The register: its opening, and the twelve calls as one.
#![tactic(auto)]

mod opening;
mod points;

ghost use Rattle.std.specs.Prelude.{◌≡◌};
ghost use Rattle.rules.specs.Pinned.Register.{applied, on};
ghost use Rattle.register.specs.Between.Calls.{call_at};

pub use opening::{no_register, open};
use point_answers::{Situation, answer_apart};
use point_checks::{is_accepted, view_of};
use point_effects::{note, ruling_at};
pub use points::brought_up;
use points::{all_failed, any_filled, point_on};
use rules::{Action, Answer, Call, Outcome, PointAction, Register, Rejection};

fn outcome(answer: Answer, register: Register) -> Outcome
    ensures { result ≡ record { answer = answer; register = register } }
{
    Outcome { answer, register }
}

#[tactic(auto, using(crate::proofs::Plain::plain_refused, crate::proofs::Plain::plain_accepted, crate::proofs::Plain::contract_in, point_answers::proofs::Apart::contract_apart), unfolding(rules::specs::Pinned::Register::done))]
fn contract(r: Register, today: u64, s: u64) -> Outcome
    ensures { result ≡ applied r (on today (Action.Contract s)) }
{
    let a = Action::Contract { supplier: s };
    let answer = answer_apart(r.settings, r.day, r.contracts, today, a);
    if !is_accepted(answer) {
        return outcome(answer, r);
    }
    let i = s as usize;
    let mut next = brought_up(today, r);
    next.contracts[i] = true;
    outcome(answer, next)
}

// A failure: the points are looked at only where no row before number 30 applies.
#[tactic(auto, using(crate::proofs::Failing::failure_refused, crate::proofs::Failing::failure_in, crate::proofs::Failing::failure_full, crate::proofs::Failing::failure_done))]
pub fn fail(r: Register, today: u64, s: u64) -> Outcome
    ensures { result ≡ applied r (on today (Action.Failure s)) }
{
    let a = Action::Failure { supplier: s };
    let first = answer_apart(r.settings, r.day, r.contracts, today, a);
    if !is_accepted(first) {
        return outcome(first, r);
    }
    let mut next = brought_up(today, r);
    let now = next.points;
    if any_filled(today, s, now) {
        return outcome(Answer::Refused(Rejection::PeriodsFull), r);
    }
    let i = s as usize;
    next.contracts[i] = false;
    next.points = all_failed(r.settings, today as u32, s, now);
    outcome(first, next)
}

#[tactic(auto, using(crate::proofs::AtPoint::ruling_refused, crate::proofs::AtPoint::ruling_in, crate::proofs::AtPoint::ruling_accepted))]
fn at(r: Register, today: u64, p: u64, a: PointAction) -> Outcome
    ensures { result ≡ applied r (call_at today p a) }
{
    let contracts = r.contracts;
    let g = point_on(today, p, r);
    let seen = Situation {
        settings: r.settings,
        day: r.day,
        contracts,
        today,
        point: p,
        view: view_of(today, g),
    };
    let x = ruling_at(seen, a);
    if !is_accepted(x.answer) {
        return outcome(x.answer, r);
    }
    let mut next = brought_up(today, r);
    let i = (p - 1) as usize;
    next.points[i] = note(today as u32, x.effect, g.history);
    outcome(x.answer, next)
}

#[tactic(auto, using(crate::proofs::Plain::plain_refused, crate::proofs::Plain::plain_accepted, point_answers::proofs::Apart::day_apart), unfolding(rules::specs::Pinned::Register::done))]
fn new_day(r: Register, today: u64) -> Outcome
    ensures { result ≡ applied r (on today Action.Day) }
{
    let answer = answer_apart(r.settings, r.day, r.contracts, today, Action::Day);
    if is_accepted(answer) {
        return outcome(answer, brought_up(today, r));
    }
    outcome(answer, r)
}

// One of the twelve calls: its answer and the whole register after it; a refused call leaves the register as it came.
pub fn apply(r: Register, c: Call) -> Outcome
    ensures { result ≡ applied r c }
{
    let today = c.today;
    let a = c.action;
    match a {
        Action::Contract { supplier } => contract(r, today, supplier),
        Action::Failure { supplier } => fail(r, today, supplier),
        Action::At { point, act } => at(r, today, point, act),
        Action::Day => new_day(r, today),
    }
}
