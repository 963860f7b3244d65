// What a message is answered, and what it changes where nothing falls due by its day: told from the tables, at the
// cost of the point that it names. The cast stands below the test that bounds its number: `try_from` would want an arm
// that no number reaches.
#![tactic(auto)]

mod answers;
mod daily;
mod deeds;
mod failures;
mod newest;

ghost use Rattle.std.specs.Prelude.{◌≡◌, ◌<◌};
ghost use Rattle.input_point.specs.Between.Answers.{place_in, place_of};

pub use answers::{Said, answer_of, failure_answer};
pub use daily::{DailyReading, daily_of};
pub use deeds::{Deed, Entry, deed_of};
pub use failures::failed_tables;
use line_messages::Message;
pub use newest::Newest;
use point_checks::outside;
use rules::Action;

fn place_in(a: Action) -> usize
    ensures { (result ≡ place_in a) × (result < 32) }
{
    let Action::At { point, .. } = a else {
        return 0;
    };
    if outside(1, 32, point) {
        return 0;
    }
    (point - 1) as usize
}

// The place of the point that a message names; the first where it names none.
pub fn place_of(m: Message) -> usize
    ensures { (result ≡ place_of m) × (result < 32) }
{
    match m {
        Message::Open(_) => 0,
        Message::Ask(c) => place_in(c.action),
        Message::Unreadable => 0,
    }
}
