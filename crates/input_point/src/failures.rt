// A failure on a quiet day, stored point by point: at each its fields and one slot.
ghost use Rattle.std.specs.Prelude.{◌≡◌, map};
ghost use Rattle.point_effects.specs.Between.{failed_by};
ghost use Rattle.register.specs.Between.Calls.{failed_on};
ghost use Rattle.input_tables.specs.Between.Tables.{points_of, Apart};
ghost use Rattle.input_point.specs.declared.{deeds.Deed.Deed};
ghost use Rattle.input_point.specs.Between.Deeds.{effect_deed};

use crate::deeds::{Entry, kept_entry, naming_entry};
use crate::newest::Newest;
use input_tables::Tables;
use point_effects::fail;
use rules::{Effect, Fields, Settings};

// What a failure of s stores at a point with these periods: the last-resort supplier is named, or no slot changes. It
// has the arms of `effect_deed` but for a reading: with a second caller that function is no longer laid into the loop
// over lines, and mixed lines take 7 % more instructions (docs/HOUSE.md).
fn failed_entry(set: Settings, t: u32, s: u64, f: Fields, newest: &Newest) -> Entry
    ensures { Deed.Slot result ≡ effect_deed t (failed_by set t s f) newest.now.count newest.now.period }
{
    match fail(set, t, s, f) {
        Effect::Keep(g) => kept_entry(t, g, newest),
        Effect::Name(g) => naming_entry(t, g, newest),
        Effect::Enrol(g) => naming_entry(t, g, newest),
        Effect::Read(_, g) => kept_entry(t, g, newest),
        Effect::Request(_, g) => kept_entry(t, g, newest),
    }
}

// The tables after a failure of s.
pub fn failed_tables(set: Settings, t: u32, s: u64, mut tables: Tables) -> Tables
    ensures { Apart (map (failed_on set t s) (points_of tables.fields tables.counts tables.slots))
        result }
{
    for i in 0..32 {
        let newest = Newest::of(&tables, i);
        let x = failed_entry(set, t, s, tables.fields[i], &newest);
        tables.fields[i] = x.fields;
        tables.counts[i] = x.count;
        tables.slots[24 * i + x.place] = x.period;
    }
    tables
}
