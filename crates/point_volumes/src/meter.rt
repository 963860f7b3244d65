// Meters: the full turn, the unit and the factor.
ghost use Rattle.std.specs.Prelude.{◌≡◌, ◌^◌, ◌≤◌, min};
ghost use Rattle.rules.specs.Volumes.{full_turn, turn_of, unit_of, factor_of};

use rules::{Code, Meter};

// A match: `10_u64.pow(n as u32)` is a loop and takes 6 ns where this takes 2 to 3, and each reading asks three times.
fn power(n: u64) -> u64
    requires { n ≤ 11 }
    ensures { result ≡ 10 ^ n }
{
    match n {
        0 => 1,
        1 => 10,
        2 => 100,
        3 => 1000,
        4 => 10000,
        5 => 100000,
        6 => 1000000,
        7 => 10000000,
        8 => 100000000,
        9 => 1000000000,
        10 => 10000000000,
        _ => 100000000000,
    }
}

// 10^w, with w the wheels before and after the comma, any numbers of them.
#[tactic(auto, unfolding(rules::specs::Volumes::full_turn))]
pub fn full_turn(before: u64, after: u64) -> u64
    ensures { result ≡ full_turn before after }
{
    power(before.min(8) + after.min(3))
}

// The full turn of a meter.
pub fn turn_of(m: Meter) -> u64
    ensures { result ≡ turn_of m }
{
    full_turn(u64::from(m.before), u64::from(m.after))
}

// U, in thousandths.
#[tactic(auto, unfolding(rules::specs::Volumes::unit_of))]
pub(crate) fn unit_of(m: Meter) -> u64
    ensures { result ≡ unit_of m }
{
    power(3_u64.saturating_sub(u64::from(m.after)))
}

// The factor in ten-thousandths, as with 10,000 where the meter counts normal cubic metres.
#[tactic(auto, unfolding(rules::specs::Volumes::factor_of))]
pub(crate) fn factor_of(c: Code) -> u64
    ensures { result ≡ factor_of c }
{
    match c {
        Code::Cubic(factor) => u64::from(factor).min(99999),
        Code::Normal => 10000,
    }
}
