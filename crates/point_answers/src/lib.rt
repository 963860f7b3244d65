// The answers to calls: the rows of the table.
#![tactic(auto)]

mod calls;
mod rows;

ghost use Rattle.std.specs.Prelude.{◌≡◌, Bool, List};
ghost use Rattle.point_answers.specs.Between.{answer_at, answer_in, answered};

pub use calls::{answer_apart, opening_answer};
use rows::{
    cancel, default_supply, enrol, into_service, meter_change, out_of_service, reading, request,
    suspend,
};
use rules::{Answer, Fields, PointAction, Rejection, Settings, View};

// What an answer looks at: the settings, the register's day, who is under contract, today, the point's number, and
// what the checks see of it.
#[derive(Clone, Copy)]
pub struct Situation {
    pub settings: Settings,
    pub day: u32,
    pub contracts: [bool; 100],
    pub today: u64,
    pub point: u64,
    pub view: View,
}

// The answer that rows give.
pub(crate) fn answer(rows: Result<(), Rejection>) -> Answer
    ensures { result ≡ answered rows }
{
    match rows {
        Ok(()) => Answer::Accepted,
        Err(r) => Answer::Refused(r),
    }
}

// The answer to a reading. Most lines are readings, so it takes the numbers and the point's fields: a `Situation` would be put
// together for each, with all contracts in it.
pub fn reading_answer(day: u32, today: u64, p: u64, d: u64, x: u64, z: u64, f: Fields) -> Answer
    ensures { (S : Settings) (u : List Bool) (v : View) → v.fields ≡ f
        → result ≡ answer_at S day u today p (PointAction.Reading d x z) v }
{
    answer(reading(day, today, p, d, x, z, f))
}

// The answer to a call that names a point.
pub fn answer_at(x: Situation, a: PointAction) -> Answer
    ensures { result ≡ answer_in x a }
{
    match a {
        PointAction::Enrol { meter } => answer(enrol(x, meter)),
        PointAction::IntoService { supplier, key } => answer(into_service(x, supplier, key)),
        PointAction::DefaultSupply { key } => answer(default_supply(x, key)),
        PointAction::Request { supplier, key, day } => match request(x, supplier, key, day) {
            Ok(e) => Answer::AcceptedOn(e),
            Err(r) => Answer::Refused(r),
        },
        PointAction::Cancel { supplier } => answer(cancel(x, supplier)),
        PointAction::Reading { day, index, zero } => {
            reading_answer(x.day, x.today, x.point, day, index, zero, x.view.fields)
        }
        PointAction::MeterChange { index, zero, meter } => {
            answer(meter_change(x, index, zero, meter))
        }
        PointAction::OutOfService => answer(out_of_service(x)),
        PointAction::Suspend { mark } => answer(suspend(x, mark)),
    }
}
