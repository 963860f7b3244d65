// A daily reading: on the register's own day, before anything falls due, accepted, and all its days in the point's
// newest period. It stores a reading and two volumes, and nothing else. The cast stands below the rows, which bound its
// number: `try_from` would want an arm that no number reaches.
ghost use Rattle.std.specs.Prelude.{◌≡◌};
ghost use Rattle.input_point.specs.Between.Daily.{daily_read, daily_of};

use crate::newest::Newest;
use line_messages::Message;
use point_answers::reading_answer;
use point_checks::is_accepted;
use point_volumes::{book_newest, span_to};
use rules::{Action, Fields, NormalVolume, PointAction, Reading, Volume};

// What a daily reading stores: the day, the last reading from then on, and the newest period's two volumes.
#[derive(Clone, Copy)]
pub struct DailyReading {
    pub today: u32,
    pub reading: Reading,
    pub volume: Volume,
    pub normal: NormalVolume,
}

fn daily_read(
    day: u32,
    p: u64,
    d: u64,
    x: u64,
    z: u64,
    f: Fields,
    newest: &Newest,
) -> Option<DailyReading>
    ensures { result ≡ daily_read day p d x z newest.now.count f newest.now.period }
{
    let answer = reading_answer(day, u64::from(day), p, d, x, z, f);
    if !is_accepted(answer) {
        return None;
    }
    if !newest.lies_in(f.reading.day) {
        return None;
    }
    let at = d as u32;
    let booked = book_newest(span_to(f.meter, f.reading, at, x, z), newest.period);
    Some(DailyReading {
        today: day,
        reading: Reading { day: at, index: x },
        volume: booked.volume,
        normal: booked.normal,
    })
}

// What a message stores, where it is a daily reading at the point with the fields f and these periods; nothing falls
// due before the day quiet.
pub fn daily_of(
    ready: bool,
    day: u32,
    quiet: u32,
    m: Message,
    f: Fields,
    newest: &Newest,
) -> Option<DailyReading>
    ensures { result ≡ daily_of ready day quiet m newest.now.count f newest.now.period }
{
    let Message::Ask(c) = m else {
        return None;
    };
    let Action::At { point, act } = c.action else {
        return None;
    };
    let PointAction::Reading {
        day: d,
        index,
        zero,
    } = act
    else {
        return None;
    };
    if !ready {
        return None;
    }
    if c.today != u64::from(day) {
        return None;
    }
    if quiet <= day {
        return None;
    }
    daily_read(day, point, d, index, zero, f, newest)
}
