// Booking: a period gets what a reading has given before its end, less what it had given before its start.
ghost use Rattle.std.specs.Prelude.{◌≡◌, ◌+◌, ◌-◌, ◌*◌, ◌/◌, ◌%◌, ◌^◌, ◌≤◌, true, false, MatchOption, length};
ghost use Rattle.rules.specs.Volumes.{given as volumes_given};
ghost use Rattle.rules.specs.Pinned.Register.{booked_period, booked_slots};
ghost use Rattle.point_volumes.specs.Between.{most_volume, Fair, is_fair, booked_if_fair, booked_newest};

use dates::LAST_DAY;
use point_periods::period_count;
use rules::{History, NormalVolume, Period, Span, Thousandths, Volume};

// The one way to normal cubic metres: by a factor in ten-thousandths.
fn converted(v: Volume, factor: u64) -> NormalVolume
    requires { (v.0 ≤ most_volume) × (factor ≤ 99999) }
    ensures { result.0 ≡ v.0 * factor / 10000 }
{
    NormalVolume(v.0 * factor / 10000)
}

// A volume v of either kind, and what was given from one day to another: at is given before the first, upto before the
// second. The sum wraps.
fn grown<V: Thousandths>(v: V, at: V, upto: V) -> V
    ensures { V.amount result ≡ (V.amount v + (V.amount upto - V.amount at)) % 2 ^ 64 }
{
    let given = upto.thousandths().saturating_sub(at.thousandths());
    V::from_thousandths(v.thousandths().wrapping_add(given))
}

// A fair reading: what it gives is computed without overflow.
#[derive(Clone, Copy)]
struct FairSpan {
    span: Span,
    ghost fair: { Fair span },
}

impl FairSpan {
    // A reading, where it is fair.
    #[tactic(auto, using(crate::proofs::Fairness::fair))]
    fn of(s: Span) -> Option<FairSpan>
        ensures { MatchOption result (is_fair s ≡ false) (λ f. (f.span ≡ s) × (is_fair s ≡ true)) }
    {
        if is_fair(s) {
            Some(FairSpan { span: s })
        } else {
            None
        }
    }

    // What a reading has given before a day, as the wheels count.
    #[tactic(auto, using(crate::proofs::Given::given_none, crate::proofs::Given::given_all, crate::proofs::Given::given_part, crate::proofs::Given::part_most))]
    fn given(self, day: u32) -> Volume
        ensures { (result.0 ≡ volumes_given self.span day) × (result.0 ≤ most_volume) }
    {
        let s = self.span;
        if day <= s.from {
            return Volume(0);
        }
        if s.to <= day {
            return Volume(s.advance * s.unit);
        }
        Volume(s.advance * u64::from(day - s.from) / u64::from(s.to - s.from) * s.unit)
    }

    // A period that ends before day end gets its days' volumes.
    #[tactic(auto, unfolding(rules::specs::Pinned::Register::booked_period, rules::specs::Volumes::normal_given))]
    fn booked_period(self, end: u32, q: Period) -> Period
        ensures { result ≡ booked_period self.span end q }
    {
        let at = self.given(q.start);
        let upto = self.given(end);
        let normal_at = converted(at, self.span.factor);
        let normal_upto = converted(upto, self.span.factor);
        Period {
            volume: grown(q.volume, at, upto),
            normal: grown(q.normal, normal_at, normal_upto),
            ..q
        }
    }

    // The periods, the newest first, down to the one that holds the reading's first day.
    fn book_slots(self, ps: &mut [Period])
        ensures { ps.new ≡ booked_slots self.span self.span.to (length ps.old) ps.old }
    {
        let mut end = self.span.to;
        for i in (0..ps.len()).rev() {
            let q = ps[i];
            ps[i] = self.booked_period(end, q);
            if q.start <= self.span.from {
                return;
            }
            end = q.start;
        }
    }
}

fn is_fair(s: Span) -> bool
    ensures { result ≡ is_fair s }
{
    s.from < s.to
        && s.to <= LAST_DAY
        && s.unit <= 1000
        && s.factor <= 99999
        && s.advance <= 200000000000
        && s.advance * s.unit <= 200000000000
}

// A reading is booked over the periods.
#[tactic(auto, using(crate::proofs::Slots::slots_used), unfolding(crate::specs::Between::booked_if_fair, rules::specs::Pinned::Register::booked))]
pub fn book(s: Span, h: History) -> History
    ensures { result ≡ booked_if_fair s h }
{
    let Some(fair) = FairSpan::of(s) else {
        return h;
    };
    let n = period_count(h);
    let mut periods = h.periods;
    fair.book_slots(&mut periods[..n]);
    History { periods, ..h }
}

// A reading whose days all lie in the newest period is booked on that period alone.
#[tactic(auto, unfolding(crate::specs::Between::booked_newest))]
pub fn book_newest(s: Span, q: Period) -> Period
    ensures { result ≡ booked_newest s q }
{
    let Some(fair) = FairSpan::of(s) else {
        return q;
    };
    fair.booked_period(s.to, q)
}
