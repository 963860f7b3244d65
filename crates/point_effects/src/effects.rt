// What accepted calls and failures do to a point's fields.
ghost use Rattle.std.specs.Prelude.{◌≡◌, true, false, ◌&&◌, ℕ, ◌≤◌, ◌<◌};
ghost use Rattle.rules.specs.Effects.{dropped as effects_dropped, effective_day, effect_of, failed as effects_failed};
ghost use Rattle.rules.specs.Fields.{code_of, fitted as fields_fitted, fields, reading as fields_reading, supply, unsupplied};
ghost use Rattle.rules.specs.Fields.{with_supply, with_pending, with_key, with_reading};
ghost use Rattle.rules.specs.Rejections.{touches, is_full};
ghost use Rattle.rules.specs.Volumes.{turn_of, span_to};
ghost use Rattle.point_effects.specs.Between.{Accepted, failed_by};

use dates::LAST_DAY;
use point_checks::{effective_day, is_by, is_full};
use point_volumes::span_to;
use rules::{
    Code, Effect, Fields, Meter, NewMeter, Pending, PointAction, Reading, Settings, Supply,
    SupplyKind, View,
};

// No holder but the operator's account, nothing running, nothing pending.
pub(crate) const UNSUPPLIED: Supply = Supply {
    holder: 0,
    kind: SupplyKind::None,
    pending: Pending::Nothing,
};

// The same fields with another pending request.
fn with_pending(f: Fields, q: Pending) -> Fields
    ensures { result ≡ with_pending f q }
{
    Fields {
        supply: Supply {
            pending: q,
            ..f.supply
        },
        ..f
    }
}

fn code_of(code: u64, factor: u64) -> Code
    requires { factor ≤ 99999 }
    ensures { result ≡ code_of code factor }
{
    match code {
        1 => Code::Cubic(factor as u32),
        _ => Code::Normal,
    }
}

// The meter that a call brings.
fn fitted(m: NewMeter) -> Meter
    requires { (m.before ≤ 8) × (m.after ≤ 3) × (m.factor ≤ 99999) }
    ensures { result ≡ fields_fitted m }
{
    Meter {
        before: m.before as u8,
        after: m.after as u8,
        code: code_of(m.code, m.factor),
    }
}

fn enrol(t: u32, m: NewMeter) -> Effect
    requires { (m.before ≤ 8) × (m.after ≤ 3) × (m.factor ≤ 99999) }
    ensures { result ≡ Effect.Enrol (fields true unsupplied 0 0 (fields_fitted m) (fields_reading t m.index)) }
{
    Effect::Enrol(Fields {
        enrolled: true,
        supply: UNSUPPLIED,
        key: 0,
        mark: 0,
        meter: fitted(m),
        reading: Reading {
            day: t,
            index: m.index,
        },
    })
}

// A holder is named under a kind of supply, and the key is stored.
fn served(f: Fields, s: u8, k: SupplyKind, key: u64) -> Effect
    requires { key ≤ 999999999 }
    ensures { result ≡ Effect.Name (with_key (with_supply f (supply s k f.supply.pending)) key) }
{
    Effect::Name(Fields {
        supply: Supply {
            holder: s,
            kind: k,
            ..f.supply
        },
        key: key as u32,
        ..f
    })
}

fn request(set: Settings, t: u32, s: u64, r: u64, f: Fields) -> Effect
    requires { (s ≤ 99) × (effective_day set t r ≤ 73048) }
    ensures { result ≡
        Effect.Request (effective_day set t r) (with_pending f (Pending.Request s (effective_day set t r))) }
{
    let e = effective_day(set, u64::from(t), r);
    Effect::Request(e, with_pending(f, Pending::Request(s as u8, e)))
}

// A reading of x on day d, and the meter and the last reading from then on.
#[tactic(auto, using(point_volumes::proofs::Readings::read_span))]
fn read(f: Fields, d: u32, x: u64, z: u64, m: Meter, now: Reading) -> Effect
    requires { (x < turn_of f.meter) × (z ≤ 1) }
    ensures { result ≡ Effect.Read (span_to f d x z) (with_reading f m now) }
{
    let after = Fields {
        meter: m,
        reading: now,
        ..f
    };
    Effect::Read(span_to(f.meter, f.reading, d, x, z), after)
}

// What an accepted call does to the point that it names.
#[tactic(auto, unfolding(rules::specs::Effects::effect_of))]
pub(crate) fn effect_of(set: Settings, t: u32, a: PointAction, f: Fields) -> Effect
    requires { Accepted set t a f }
    ensures { result ≡ effect_of set t a f }
{
    match a {
        PointAction::Enrol { meter } => enrol(t, meter),
        PointAction::IntoService { supplier, key } => {
            served(f, supplier as u8, SupplyKind::Contract, key)
        }
        PointAction::DefaultSupply { key } => {
            let end = t + u32::from(set.a);
            served(f, set.default, SupplyKind::Default(end), key)
        }
        PointAction::Request {
            supplier,
            key: _,
            day,
        } => request(set, t, supplier, day, f),
        PointAction::Cancel { supplier: _ } => Effect::Keep(with_pending(f, Pending::Nothing)),
        PointAction::Reading { day, index, zero } => {
            let now = Reading {
                day: day as u32,
                index,
            };
            read(f, now.day, index, zero, f.meter, now)
        }
        PointAction::MeterChange { index, zero, meter } => {
            let now = Reading {
                day: t,
                index: meter.index,
            };
            read(f, t, index, zero, fitted(meter), now)
        }
        PointAction::OutOfService => Effect::Name(Fields {
            supply: UNSUPPLIED,
            ..f
        }),
        PointAction::Suspend { mark } => Effect::Keep(Fields {
            mark: mark as u8,
            ..f
        }),
    }
}

// The request that is left when those of s are dropped.
fn dropped(s: u64, q: Pending) -> Pending
    ensures { result ≡ effects_dropped s q }
{
    match q {
        Pending::Request(by, _) if u64::from(by) == s => Pending::Nothing,
        _ => q,
    }
}

// Number 30 of a failure of s, at one point: s holds it or has a request there, and its marks and those due exceed 24.
#[tactic(auto, unfolding(rules::specs::Effects::failed))]
pub fn fills(s: u64, v: View) -> bool
    ensures { (S : Settings) (t : ℕ)
        → result ≡ (touches s v.fields && is_full v (effects_failed S t s v.fields)) }
{
    let now = v.fields.supply;
    let left = dropped(s, now.pending);
    if u64::from(now.holder) == s {
        // Number 30 does not look at the deadline's day.
        return is_full(v, true, SupplyKind::LastResort(0), left);
    }
    is_by(s, now.pending) && is_full(v, false, now.kind, left)
}

// What a failure of s does to any point.
#[tactic(auto, unfolding(crate::specs::Between::failed_by, rules::specs::Effects::failed))]
pub fn fail(set: Settings, t: u32, s: u64, f: Fields) -> Effect
    ensures { result ≡ failed_by set t s f }
{
    if t > LAST_DAY {
        return Effect::Keep(f);
    }
    let left = dropped(s, f.supply.pending);
    if u64::from(f.supply.holder) == s {
        let after = Supply {
            holder: set.resort,
            kind: SupplyKind::LastResort(t + u32::from(set.b)),
            pending: left,
        };
        return Effect::Name(Fields { supply: after, ..f });
    }
    Effect::Keep(with_pending(f, left))
}
