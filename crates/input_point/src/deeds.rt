// What an accepted message stores, where nothing falls due by its day. Each cast stands below the test that bounds its
// number: `try_from` would want an arm that no number reaches.
ghost use Rattle.std.specs.Prelude.{◌≡◌};
ghost use Rattle.input_point.specs.declared.{deeds.Deed.Deed};
ghost use Rattle.input_point.specs.Between.Deeds.{kept_deed, naming_deed, reading_deed, effect_deed, ruled_deed};
ghost use Rattle.input_point.specs.Between.Deeds.{call_deed};
ghost use Rattle.input_point.specs.Between.Deeds.{deed_of};

use crate::answers::Said;
use crate::newest::Newest;
use line_messages::Message;
use point_periods::newest_place;
use point_volumes::book_newest;
use rules::{Action, Effect, Fields, NormalVolume, Period, Span, Volume};

// What a call stores at the point that it names: its fields, the number of its periods, and one slot.
#[derive(Clone, Copy)]
pub struct Entry {
    pub today: u32,
    pub fields: Fields,
    pub count: usize,
    pub place: usize,
    pub period: Period,
}

#[derive(Clone, Copy)]
pub enum Deed {
    Slot(Entry),
    // A reading whose days reach back behind the newest period.
    Back {
        today: u32,
        span: Span,
        fields: Fields,
    },
    // A supplier comes under contract.
    Sign {
        today: u32,
        supplier: usize,
    },
    // The day alone.
    Pass {
        today: u32,
    },
    // A supplier fails: it loses its contract, and every point may have a slot to store.
    Fail {
        today: u32,
        supplier: usize,
    },
    // All else: an opening, and a day by which something falls due.
    Whole,
}

// No slot changes.
pub(crate) fn kept_entry(t: u32, g: Fields, newest: &Newest) -> Entry
    ensures { Deed.Slot result ≡ kept_deed t g newest.now.count newest.now.period }
{
    Entry {
        today: t,
        fields: g,
        count: newest.count,
        place: newest_place(newest.count),
        period: newest.period,
    }
}

// The fields' holder is named: in the newest period where that starts today, else in a new one.
pub(crate) fn naming_entry(t: u32, g: Fields, newest: &Newest) -> Entry
    ensures { Deed.Slot result ≡ naming_deed t g newest.now.count newest.now.period }
{
    let holder = g.supply.holder;
    let n = newest.count;
    if newest.starts_on(t) {
        return Entry {
            today: t,
            fields: g,
            count: n,
            place: newest_place(n),
            period: Period {
                start: t,
                holder,
                ..newest.period
            },
        };
    }
    if n < 24 {
        return Entry {
            today: t,
            fields: g,
            count: n + 1,
            place: n,
            period: Period {
                start: t,
                holder,
                volume: Volume(0),
                normal: NormalVolume(0),
            },
        };
    }
    kept_entry(t, g, newest)
}

fn reading_deed(t: u32, s: Span, g: Fields, newest: &Newest) -> Deed
    ensures { result ≡ reading_deed t s g newest.now.count newest.now.period }
{
    if newest.lies_in(s.from) {
        let booked = Newest {
            count: newest.count,
            period: book_newest(s, newest.period),
        };
        return Deed::Slot(kept_entry(t, g, &booked));
    }
    Deed::Back {
        today: t,
        span: s,
        fields: g,
    }
}

// An effect on a point with these periods.
fn effect_deed(t: u32, e: Effect, newest: &Newest) -> Deed
    ensures { result ≡ effect_deed t e newest.now.count newest.now.period }
{
    match e {
        Effect::Keep(g) => Deed::Slot(kept_entry(t, g, newest)),
        Effect::Name(g) => Deed::Slot(naming_entry(t, g, newest)),
        Effect::Enrol(g) => Deed::Slot(naming_entry(t, g, newest)),
        Effect::Read(s, g) => reading_deed(t, s, g, newest),
        Effect::Request(_, g) => Deed::Slot(kept_entry(t, g, newest)),
    }
}

fn ruled_deed(t: u32, said: Said, newest: &Newest) -> Deed
    ensures { result ≡ ruled_deed t said newest.now.count newest.now.period }
{
    match said {
        Said::Ruled(x) => effect_deed(t, x.effect, newest),
        Said::Known(_) => Deed::Whole,
        Said::Fails { .. } => Deed::Whole,
    }
}

fn call_deed(t: u32, a: Action, said: Said, newest: &Newest) -> Deed
    ensures { result ≡ call_deed t a said newest.now.count newest.now.period }
{
    match a {
        Action::Contract { supplier } => {
            if supplier < 100 {
                return Deed::Sign {
                    today: t,
                    supplier: supplier as usize,
                };
            }
            Deed::Whole
        }
        Action::Failure { supplier } => {
            if supplier < 100 {
                return Deed::Fail {
                    today: t,
                    supplier: supplier as usize,
                };
            }
            Deed::Whole
        }
        Action::At { point: _, act: _ } => ruled_deed(t, said, newest),
        Action::Day => Deed::Pass { today: t },
    }
}

// What an accepted message stores, where nothing falls due before the day quiet, and the point that it names has these
// periods.
pub fn deed_of(quiet: u32, m: Message, said: Said, newest: &Newest) -> Deed
    ensures { result ≡ deed_of quiet m said newest.now.count newest.now.period }
{
    match m {
        Message::Open(_) => Deed::Whole,
        Message::Ask(c) => {
            if c.today < u64::from(quiet) {
                return call_deed(c.today as u32, c.action, said, newest);
            }
            Deed::Whole
        }
        Message::Unreadable => Deed::Whole,
    }
}
