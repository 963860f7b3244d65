// The answer to a message: only what it looks at is computed.
ghost use Rattle.std.specs.Prelude.{◌≡◌, cond};
ghost use Rattle.rules.specs.Rejections.{opening_answer};
ghost use Rattle.input_desk.specs.Pinned.Desk.{unreadable};
ghost use Rattle.input_point.specs.Between.Answers.{apart_said, call_said, said_by, failure_answer};

use crate::newest::Newest;
use input_quiet::view_on;
use input_tables::Tables;
use line_messages::Message;
use point_answers::{Situation, answer_apart, opening_answer};
use point_checks::is_accepted;
use point_effects::{Ruling, fills, ruling_at};
use rules::{Action, Answer, Fields, Opening, Rejection, Settings};

// The answer; of a call that names a point, with what it does there; or a failure of a supplier, which no row before
// number 30 refuses: that looks at every point.
#[derive(Clone, Copy)]
pub enum Said {
    Known(Answer),
    Ruled(Ruling),
    Fails { today: u64, supplier: u64 },
}

// A call that names no point.
fn apart_said(set: Settings, day: u32, contracts: [bool; 100], today: u64, a: Action) -> Said
    ensures { result ≡ apart_said set day contracts today a }
{
    let first = answer_apart(set, day, contracts, today, a);
    let Action::Failure { supplier } = a else {
        return Said::Known(first);
    };
    if is_accepted(first) {
        return Said::Fails { today, supplier };
    }
    Said::Known(first)
}

fn call_said(
    set: Settings,
    day: u32,
    contracts: [bool; 100],
    today: u64,
    a: Action,
    f: Fields,
    newest: &Newest,
) -> Said
    ensures { result ≡ call_said set day contracts today a f newest.now.count newest.now.period.start }
{
    let Action::At { point, act } = a else {
        return apart_said(set, day, contracts, today, a);
    };
    let x = Situation {
        settings: set,
        day,
        contracts,
        today,
        point,
        view: view_on(set, day, today, f, newest.count, newest.period.start),
    };
    Said::Ruled(ruling_at(x, act))
}

fn opening_said(ready: bool, o: Opening) -> Answer
    ensures { result ≡ cond ready unreadable (opening_answer o) }
{
    if ready {
        return Answer::Refused(Rejection::UnreadableLine);
    }
    opening_answer(o)
}

// The answer to a message, where the point that it names has the fields f and these periods.
pub fn answer_of(
    set: Settings,
    day: u32,
    contracts: [bool; 100],
    ready: bool,
    m: Message,
    f: Fields,
    newest: &Newest,
) -> Said
    ensures { result ≡ said_by set day contracts ready m f newest.now.count newest.now.period.start }
{
    match m {
        Message::Open(o) => Said::Known(opening_said(ready, o)),
        Message::Ask(c) => {
            if ready {
                let a = c.action;
                return call_said(set, day, contracts, c.today, a, f, newest);
            }
            Said::Known(Answer::Refused(Rejection::UnreadableLine))
        }
        Message::Unreadable => Said::Known(Answer::Refused(Rejection::UnreadableLine)),
    }
}

// Number 30 of a failure of s, over the points as it finds them.
pub fn failure_answer(set: Settings, day: u32, today: u64, s: u64, tables: &Tables) -> Answer
    ensures { result ≡
        failure_answer set day tables.now.fields tables.now.counts tables.now.slots today s }
{
    for i in 0..32 {
        let newest = Newest::of(tables, i);
        let start = newest.period.start;
        let v = view_on(set, day, today, tables.fields[i], newest.count, start);
        if fills(s, v) {
            return Answer::Refused(Rejection::PeriodsFull);
        }
    }
    Answer::Accepted
}
