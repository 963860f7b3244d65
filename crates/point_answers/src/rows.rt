// The rows of the table for each call that names a point, in the order of the numbers: the first that applies.
#![tactic(auto, unfolding(rules::specs::Rejections::first_of, rules::specs::Rejections::rows_at, rules::specs::Effects::effect_of, crate::specs::Between::answer_at))]

ghost use Rattle.std.specs.Prelude.{◌≡◌, Bool, List};
ghost use Rattle.rules.specs.declared.{Settings.Settings};
ghost use Rattle.rules.specs.Rejections.{◌⇒◌, last_resort_near};
ghost use Rattle.point_answers.specs.Between.{Asked, answer_at, answer_in, answered, answered_on};

use crate::Situation;
use point_checks::{
    bad_day, bad_factor, effective_day, index_disagrees, is_full, is_past, is_pending, near,
    no_contract, not_enrolled, not_meter, out_of_time, outside, sum_past, too_late,
};
use point_volumes::{full_turn, turn_of};
use rules::{Fields, NewMeter, Pending, PointAction, Rejection, SupplyKind, View};

// A row of the table: where its test holds, the call is refused.
pub(crate) fn refuse(test: bool, r: Rejection) -> Result<(), Rejection>
    ensures { Asked (test ⇒ r) result }
{
    if test { Err(r) } else { Ok(()) }
}

// Row 8, whose refusal carries a day.
fn refuse_near(x: Situation) -> Result<(), Rejection>
    ensures { Asked (last_resort_near x.settings x.today x.view.fields.supply.kind) result }
{
    let SupplyKind::Default(d) = x.view.fields.supply.kind else {
        return Ok(());
    };
    refuse(
        near(x.settings, x.today, d),
        Rejection::LastResortUnderWay(d),
    )
}

pub(crate) fn enrol(x: Situation, m: NewMeter) -> Result<(), Rejection>
    ensures { answered result ≡ answer_in x (PointAction.Enrol m) }
{
    let f = x.view.fields;
    refuse(not_meter(m), Rejection::FieldOutOfRange)?;
    refuse(bad_factor(m), Rejection::FactorOutOfRange)?;
    refuse(is_past(x.today), Rejection::OffTheCalendar)?;
    refuse(x.today < u64::from(x.day), Rejection::DayRunsBack)?;
    refuse(outside(1, 32, x.point), Rejection::FalseIdpc)?;
    refuse(f.enrolled, Rejection::AlreadyEnrolled)?;
    refuse(
        full_turn(m.before, m.after) <= m.index,
        Rejection::IndexDisagrees,
    )
}

pub(crate) fn into_service(x: Situation, s: u64, key: u64) -> Result<(), Rejection>
    ensures { answered result ≡ answer_in x (PointAction.IntoService s key) }
{
    let f = x.view.fields;
    refuse(
        outside(1, 99, s) || outside(1, 999999999, key),
        Rejection::FieldOutOfRange,
    )?;
    refuse(is_past(x.today), Rejection::OffTheCalendar)?;
    refuse(x.today < u64::from(x.day), Rejection::DayRunsBack)?;
    refuse(no_contract(x.contracts, s), Rejection::NoTransportContract)?;
    refuse(not_enrolled(x.point, f.enrolled), Rejection::FalseIdpc)?;
    refuse(0 < f.supply.holder, Rejection::AlreadyServed)?;
    let full = is_full(x.view, true, SupplyKind::Contract, f.supply.pending);
    refuse(full, Rejection::PeriodsFull)
}

pub(crate) fn default_supply(x: Situation, key: u64) -> Result<(), Rejection>
    ensures { answered result ≡ answer_in x (PointAction.DefaultSupply key) }
{
    let f = x.view.fields;
    let days = u64::from(x.settings.a) + u64::from(x.settings.b);
    refuse(outside(1, 999999999, key), Rejection::FieldOutOfRange)?;
    refuse(sum_past(x.today, days), Rejection::OffTheCalendar)?;
    refuse(x.today < u64::from(x.day), Rejection::DayRunsBack)?;
    refuse(not_enrolled(x.point, f.enrolled), Rejection::FalseIdpc)?;
    refuse(0 < f.supply.holder, Rejection::AlreadyServed)?;
    // Number 30 does not look at the deadline's day.
    let full = is_full(x.view, true, SupplyKind::Default(0), f.supply.pending);
    refuse(full, Rejection::PeriodsFull)
}

// The day that an accepted request takes effect.
pub(crate) fn request(x: Situation, s: u64, key: u64, day: u64) -> Result<u32, Rejection>
    ensures { answered_on result ≡ answer_in x (PointAction.Request s key day) }
{
    let f = x.view.fields;
    let now = f.supply;
    refuse(
        outside(1, 99, s) || outside(1, 999999999, key),
        Rejection::FieldOutOfRange,
    )?;
    refuse(is_past(x.today) || is_past(day), Rejection::OffTheCalendar)?;
    refuse(x.today < u64::from(x.day), Rejection::DayRunsBack)?;
    refuse(no_contract(x.contracts, s), Rejection::NoTransportContract)?;
    refuse(not_enrolled(x.point, f.enrolled), Rejection::FalseIdpc)?;
    refuse(
        bad_day(x.settings, x.today, day),
        Rejection::DateIncompatible,
    )?;
    refuse(key != u64::from(f.key), Rejection::NameDiffers)?;
    refuse(is_pending(now.pending), Rejection::OtherRequest)?;
    refuse(now.holder == 0, Rejection::NoPerimeter)?;
    refuse(f.mark == 1, Rejection::AccessSuspended)?;
    refuse_near(x)?;
    // Number 30 does not look at who asked, nor for when.
    let full = is_full(x.view, false, now.kind, Pending::Request(0, 0));
    refuse(full, Rejection::PeriodsFull)?;
    Ok(effective_day(x.settings, x.today, day))
}

pub(crate) fn cancel(x: Situation, s: u64) -> Result<(), Rejection>
    ensures { answered result ≡ answer_in x (PointAction.Cancel s) }
{
    let f = x.view.fields;
    refuse(outside(1, 99, s), Rejection::FieldOutOfRange)?;
    refuse(is_past(x.today), Rejection::OffTheCalendar)?;
    refuse(x.today < u64::from(x.day), Rejection::DayRunsBack)?;
    refuse(not_enrolled(x.point, f.enrolled), Rejection::FalseIdpc)?;
    let Pending::Request(by, _) = f.supply.pending else {
        return Err(Rejection::NothingPending);
    };
    refuse(u64::from(by) != s, Rejection::NothingPending)?;
    refuse(
        too_late(x.settings, x.today, f.supply.pending),
        Rejection::TooLate,
    )
}

// A reading's rows look at the point's fields alone.
pub(crate) fn reading(
    day: u32,
    today: u64,
    p: u64,
    d: u64,
    x: u64,
    z: u64,
    f: Fields,
) -> Result<(), Rejection>
    ensures { (S : Settings) (u : List Bool) (v : View) → v.fields ≡ f
        → answered result ≡ answer_at S day u today p (PointAction.Reading d x z) v }
{
    refuse(outside(0, 1, z), Rejection::FieldOutOfRange)?;
    refuse(is_past(today) || is_past(d), Rejection::OffTheCalendar)?;
    refuse(today < u64::from(day), Rejection::DayRunsBack)?;
    refuse(not_enrolled(p, f.enrolled), Rejection::FalseIdpc)?;
    let last = f.reading;
    refuse(out_of_time(today, d, last.day), Rejection::ReadingOutOfTime)?;
    let disagrees = index_disagrees(turn_of(f.meter), last.index, x, z);
    refuse(disagrees, Rejection::IndexDisagrees)
}

pub(crate) fn meter_change(
    x: Situation,
    index: u64,
    zero: u64,
    m: NewMeter,
) -> Result<(), Rejection>
    ensures { answered result ≡ answer_in x (PointAction.MeterChange index zero m) }
{
    let f = x.view.fields;
    let last = f.reading;
    refuse(
        outside(0, 1, zero) || not_meter(m),
        Rejection::FieldOutOfRange,
    )?;
    refuse(bad_factor(m), Rejection::FactorOutOfRange)?;
    refuse(is_past(x.today), Rejection::OffTheCalendar)?;
    refuse(x.today < u64::from(x.day), Rejection::DayRunsBack)?;
    refuse(not_enrolled(x.point, f.enrolled), Rejection::FalseIdpc)?;
    refuse(
        out_of_time(x.today, x.today, last.day),
        Rejection::ReadingOutOfTime,
    )?;
    let disagrees = index_disagrees(turn_of(f.meter), last.index, index, zero);
    refuse(
        disagrees || full_turn(m.before, m.after) <= m.index,
        Rejection::IndexDisagrees,
    )
}

pub(crate) fn out_of_service(x: Situation) -> Result<(), Rejection>
    ensures { answered result ≡ answer_in x PointAction.OutOfService }
{
    let f = x.view.fields;
    refuse(is_past(x.today), Rejection::OffTheCalendar)?;
    refuse(x.today < u64::from(x.day), Rejection::DayRunsBack)?;
    refuse(not_enrolled(x.point, f.enrolled), Rejection::FalseIdpc)?;
    refuse(f.supply.holder == 0, Rejection::NoPerimeter)?;
    let full = is_full(x.view, true, SupplyKind::None, Pending::Nothing);
    refuse(full, Rejection::PeriodsFull)
}

pub(crate) fn suspend(x: Situation, mark: u64) -> Result<(), Rejection>
    ensures { answered result ≡ answer_in x (PointAction.Suspend mark) }
{
    let f = x.view.fields;
    refuse(outside(0, 1, mark), Rejection::FieldOutOfRange)?;
    refuse(is_past(x.today), Rejection::OffTheCalendar)?;
    refuse(x.today < u64::from(x.day), Rejection::DayRunsBack)?;
    refuse(not_enrolled(x.point, f.enrolled), Rejection::FalseIdpc)
}
