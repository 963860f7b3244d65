// One point of the register: its events, what the calls that name it are answered and do, and how that is written down.
#![tactic(auto)]

mod effects;
mod events;

ghost use Rattle.std.specs.Prelude.{◌≡◌};
ghost use Rattle.rules.specs.Pinned.Register.{named as register_named};
ghost use Rattle.point_effects.specs.Between.{ruling_at, noted};

use effects::effect_of;
pub use effects::{fail, fills};
pub use events::{catch_up, due_by};
use point_answers::{Situation, answer_at};
use point_checks::is_accepted;
use point_periods::named;
use point_volumes::book;
use rules::{Answer, Effect, Fields, History, Point, PointAction};

// The answer to a call, and what it does to the point.
#[derive(Clone, Copy)]
pub struct Ruling {
    pub answer: Answer,
    pub effect: Effect,
}

// A call that names a point, of which the checks see it brought up to today. A refused call keeps the fields.
#[tactic(auto, unfolding(crate::specs::Between::ruling_at))]
pub fn ruling_at(x: Situation, a: PointAction) -> Ruling
    ensures { result ≡ ruling_at x.settings x.day x.contracts x.today x.point a x.view }
{
    let f = x.view.fields;
    let answer = answer_at(x, a);
    if is_accepted(answer) {
        return Ruling {
            answer,
            effect: effect_of(x.settings, x.today as u32, a, f),
        };
    }
    Ruling {
        answer,
        effect: Effect::Keep(f),
    }
}

// The point with the fields' holder named on a day.
fn named_point(day: u32, f: Fields, h: History) -> Point
    ensures { result ≡ record { fields = f; history = register_named day f.supply.holder h } }
{
    Point {
        fields: f,
        history: named(day, f.supply.holder, h),
    }
}

// An effect on a day, written down at a point with these periods.
#[tactic(auto, unfolding(crate::specs::Between::noted))]
pub fn note(day: u32, e: Effect, h: History) -> Point
    ensures { result ≡ noted day e h }
{
    match e {
        Effect::Keep(f) | Effect::Request(_, f) => Point {
            fields: f,
            history: h,
        },
        Effect::Name(f) | Effect::Enrol(f) => named_point(day, f, h),
        Effect::Read(s, f) => Point {
            fields: f,
            history: book(s, h),
        },
    }
}
