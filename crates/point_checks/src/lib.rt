// The conditions of the table of rejection codes, for any numbers.
#![tactic(auto)]

mod days;
mod marks;

ghost use Rattle.std.specs.Prelude.{◌≡◌, not, ◌&&◌, ◌||◌, eqb, leb, ltb};
ghost use Rattle.rules.specs.Answers.{is_accepted};
ghost use Rattle.rules.specs.Rejections.{outside as rejections_outside, not_wheels, not_meter, bad_factor};
ghost use Rattle.rules.specs.Rejections.{not_point, no_contract};
ghost use Rattle.rules.specs.Rejections.{is_pending, is_by};

pub use days::{bad_day, effective_day, is_past, near, out_of_time, sum_past, too_late};
pub use marks::{is_full, view_of};
use rules::{Answer, NewMeter, Pending};

pub fn is_accepted(a: Answer) -> bool
    ensures { result ≡ is_accepted a }
{
    matches!(a, Answer::Accepted | Answer::AcceptedOn(_))
}

// n is not lo to hi.
pub fn outside(lo: u64, hi: u64, n: u64) -> bool
    ensures { result ≡ rejections_outside lo hi n }
{
    !(lo..=hi).contains(&n)
}

// 22: the wheels of a meter are out of range.
fn not_wheels(before: u64, after: u64) -> bool
    ensures { result ≡ not_wheels before after }
{
    outside(1, 8, before) || outside(0, 3, after)
}

// 22: the wheels or the code of a meter.
pub fn not_meter(m: NewMeter) -> bool
    ensures { result ≡ not_meter m }
{
    not_wheels(m.before, m.after) || outside(1, 2, m.code)
}

// 40: the factor is out of range where cubic metres are counted, or not 0 where normal ones are.
pub fn bad_factor(m: NewMeter) -> bool
    ensures { result ≡ bad_factor m }
{
    match m.code {
        1 => outside(1, 99999, m.factor),
        2 => m.factor != 0,
        _ => false,
    }
}

// 1: s is not under contract.
pub fn no_contract(contracts: [bool; 100], s: u64) -> bool
    ensures { result ≡ no_contract contracts s }
{
    contracts.get(s as usize) != Some(&true)
}

// 2: no point, or not enrolled.
pub fn not_enrolled(p: u64, enrolled: bool) -> bool
    ensures { result ≡ (not_point p || not enrolled) }
{
    outside(1, 32, p) || !enrolled
}

// 5: a request is pending.
pub fn is_pending(q: Pending) -> bool
    ensures { result ≡ is_pending q }
{
    matches!(q, Pending::Request(_, _))
}

// 25: the pending request is by s.
pub fn is_by(s: u64, q: Pending) -> bool
    ensures { result ≡ is_by s q }
{
    let Pending::Request(by, _) = q else {
        return false;
    };
    u64::from(by) == s
}

// 28: the index is no index of the wheels, or it and the zero mark do not go with the last one.
pub fn index_disagrees(turn: u64, last: u64, x: u64, z: u64) -> bool
    ensures { result ≡ (leb turn x || (eqb z 0 && ltb x last) || (eqb z 1 && not (ltb x last))) }
{
    turn <= x
        || match z {
            0 => x < last,
            1 => last <= x,
            _ => false,
        }
}
