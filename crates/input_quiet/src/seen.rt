// What the checks see of a point, brought up to a day: two events at the most, told from the point's fields, the number
// of its periods and the newest one's start. The cast stands below the test that bounds its number: `try_from` would
// want an arm that no number reaches.
ghost use Rattle.std.specs.Prelude.{◌≡◌, ◌&&◌, min, eqb, ltb};
ghost use Rattle.rules.specs.Fields.{with_supply};
ghost use Rattle.input_quiet.specs.Between.Quiet.{seen, named_seen, next_seen, view_on, view_in};

use dates::LAST_DAY;
use point_effects::due_by;
use rules::{Due, Fields, Settings, Supply, View};

#[derive(Clone, Copy)]
pub(crate) struct Seen {
    pub fields: Fields,
    pub marks: usize,
    // of the newest period
    pub start: u32,
}

impl Seen {
    // The newest period starts on a day: any, for the today of a call may lie past the calendar, where no u32 of
    // input_point's `Newest::starts_on` would do.
    fn is_marked(&self, day: u64) -> bool
        ensures { result ≡ (ltb 0 self.now.marks && eqb self.now.start day) }
    {
        0 < self.marks && u64::from(self.start) == day
    }

    // A holder is named on a day, with the supply from then on.
    fn named(mut self, day: u32, supply: Supply) -> Seen
        ensures { result ≡ named_seen day (with_supply self.fields supply) self }
    {
        self.fields.supply = supply;
        if !self.is_marked(u64::from(day)) && self.marks < 24 {
            self.marks += 1;
            self.start = day;
        }
        self
    }

    // What falls due first by a day has happened.
    fn brought_up(self, set: Settings, t: u32) -> Seen
        ensures { result ≡ next_seen set t self }
    {
        let s = self.fields.supply;
        match due_by(set, t, s.kind, s.pending) {
            Due::Nothing => self,
            Due::Naming { day, supply } => self.named(day, supply),
        }
    }

    fn view(&self, today: u64) -> View
        ensures { result ≡ view_in today self.now }
    {
        View {
            fields: self.fields,
            marks: self.marks,
            marked: self.is_marked(today),
        }
    }
}

// The view of a point on a day: its fields, how many periods it has, and where the newest starts. On the register's
// own day nothing is brought up, and past the calendar's end nothing falls due.
pub fn view_on(set: Settings, day: u32, today: u64, f: Fields, count: usize, start: u32) -> View
    ensures { result ≡ view_on set day today (seen f (min count 24) start) }
{
    let x = Seen {
        fields: f,
        marks: count.min(24),
        start,
    };
    if today == u64::from(day) || u64::from(LAST_DAY) < today {
        return x.view(today);
    }
    let t = today as u32;
    let once = x.brought_up(set, t);
    let twice = once.brought_up(set, t);
    twice.view(today)
}
