// The rows of the table for the opening and for the calls that name no point, in the order of the numbers.
#![tactic(auto, unfolding(rules::specs::Rejections::first_of, rules::specs::Rejections::rows, rules::specs::Rejections::accepted, rules::specs::Rejections::answer_to, rules::specs::Rejections::opening_answer, crate::specs::Between::failure_rows))]

ghost use Rattle.std.specs.Prelude.{◌≡◌, Bool, List, ℕ};
ghost use Rattle.rules.specs.Rejections.{first_of, answer_to, opening_answer};
ghost use Rattle.point_answers.specs.Between.{answered, failure_rows, answer_apart};

use crate::answer;
use crate::rows::refuse;
use point_checks::{is_past, no_contract, outside, sum_past};
use rules::{Action, Answer, Opening, Rejection, Settings, View};

fn opening(o: Opening) -> Result<(), Rejection>
    ensures { answered result ≡ opening_answer o }
{
    refuse(outside(0, 10, o.w), Rejection::FieldOutOfRange)?;
    refuse(outside(1, 400, o.a), Rejection::FieldOutOfRange)?;
    refuse(outside(1, 400, o.b), Rejection::FieldOutOfRange)?;
    refuse(outside(1, 99, o.default), Rejection::FieldOutOfRange)?;
    refuse(outside(1, 99, o.resort), Rejection::FieldOutOfRange)?;
    refuse(o.default == o.resort, Rejection::FieldOutOfRange)?;
    refuse(is_past(o.day), Rejection::OffTheCalendar)
}

// An opening with any numbers.
pub fn opening_answer(o: Opening) -> Answer
    ensures { result ≡ opening_answer o }
{
    answer(opening(o))
}

fn contract(day: u32, today: u64, supplier: u64) -> Result<(), Rejection>
    ensures { (S : Settings) (u : List Bool) (v : ℕ → View)
        → answered result ≡ answer_to S day u today (Action.Contract supplier) v }
{
    refuse(outside(1, 99, supplier), Rejection::FieldOutOfRange)?;
    refuse(is_past(today), Rejection::OffTheCalendar)?;
    refuse(today < u64::from(day), Rejection::DayRunsBack)
}

fn new_day(day: u32, today: u64) -> Result<(), Rejection>
    ensures { (S : Settings) (u : List Bool) (v : ℕ → View) → answered result ≡ answer_to S day u today Action.Day v }
{
    refuse(is_past(today), Rejection::OffTheCalendar)?;
    refuse(today < u64::from(day), Rejection::DayRunsBack)
}

// The rows of a failure before number 30, which looks at every point.
fn failure(
    set: Settings,
    day: u32,
    contracts: [bool; 100],
    today: u64,
    s: u64,
) -> Result<(), Rejection>
    ensures { answered result ≡ first_of (failure_rows set day contracts today s) Answer.Accepted }
{
    refuse(outside(1, 99, s), Rejection::FieldOutOfRange)?;
    refuse(sum_past(today, u64::from(set.b)), Rejection::OffTheCalendar)?;
    refuse(today < u64::from(day), Rejection::DayRunsBack)?;
    refuse(no_contract(contracts, s), Rejection::NoTransportContract)?;
    let is_protected = s == u64::from(set.default) || s == u64::from(set.resort);
    refuse(is_protected, Rejection::ProtectedSupplier)
}

// The answer to a call by the rows that look at no point.
#[tactic(auto, using(crate::proofs::Failures::failure_apart), unfolding(crate::specs::Between::answer_apart))]
pub fn answer_apart(
    set: Settings,
    day: u32,
    contracts: [bool; 100],
    today: u64,
    a: Action,
) -> Answer
    ensures { result ≡ answer_apart set day contracts today a }
{
    match a {
        Action::Contract { supplier } => answer(contract(day, today, supplier)),
        Action::Failure { supplier } => answer(failure(set, day, contracts, today, supplier)),
        Action::At { point: _, act: _ } => Answer::Accepted,
        Action::Day => answer(new_day(day, today)),
    }
}
