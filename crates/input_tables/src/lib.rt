// The points of a register in three tables: their fields, how many periods each has, and all their slots in a row.
#![tactic(auto)]

ghost use Rattle.std.specs.Prelude.{◌≡◌, ◌<◌};
ghost use Rattle.input_tables.specs.Between.Tables.{Apart, points_of, booked_at, row_at};

use point_volumes::book;
use rules::{Fields, History, Period, Point, Span};

const POINTS: usize = 32;

const SLOTS: usize = 24;

// Slot k of the point at place i is slots[24 * i + k]. Three arrays and not one of points: a line reads and stores one
// point's fields, its count and one slot, and what it would copy of a point is 24 slots (docs/HOUSE.md).
#[derive(Clone, Copy)]
pub struct Tables {
    pub fields: [Fields; 32],
    pub counts: [usize; 32],
    pub slots: [Period; 768],
}

// The tables of a register's points.
pub fn tables_of(points: &[Point; 32]) -> Tables
    ensures { Apart points.now result }
{
    let first = points[0];
    let mut fields = [first.fields; 32];
    let mut counts = [0; 32];
    let mut slots = [first.history.periods[0]; 768];
    for i in 0..POINTS {
        let g = points[i];
        fields[i] = g.fields;
        counts[i] = g.history.count;
        slots[SLOTS * i..SLOTS * i + SLOTS].copy_from_slice(&g.history.periods);
    }
    Tables {
        fields,
        counts,
        slots,
    }
}

// The points of the tables.
pub fn points_of(tables: &Tables) -> [Point; 32]
    ensures { result ≡ points_of tables.now.fields tables.now.counts tables.now.slots }
{
    let blank = Point {
        fields: tables.fields[0],
        history: history_at(0, 0, &tables.slots),
    };
    let mut points = [blank; 32];
    for p in 0..POINTS {
        points[p] = Point {
            fields: tables.fields[p],
            history: history_at(p, tables.counts[p], &tables.slots),
        };
    }
    points
}

// The n periods of the point at place i.
fn history_at(i: usize, n: usize, slots: &[Period; 768]) -> History
    requires { i < 32 }
    ensures { result ≡ record { count = n; periods = row_at i slots.now } }
{
    let mut periods = [slots[0]; 24];
    periods.copy_from_slice(&slots[SLOTS * i..SLOTS * i + SLOTS]);
    History { count: n, periods }
}

// A reading is booked over the n periods of the point at place i.
pub fn booked_at(s: Span, i: usize, n: usize, slots: &mut [Period; 768])
    ensures { slots.new ≡ booked_at s i n slots.old }
{
    if i < POINTS {
        let booked = book(s, history_at(i, n, slots));
        slots[SLOTS * i..SLOTS * i + SLOTS].copy_from_slice(&booked.periods);
    }
}
