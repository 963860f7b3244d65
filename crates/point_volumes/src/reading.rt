// What a reading advances.
ghost use Rattle.std.specs.Prelude.{◌≡◌, ◌<◌, ◌≤◌};
ghost use Rattle.rules.specs.Volumes.{advance_of};
ghost use Rattle.point_volumes.specs.Between.{advance_read, span_read};

use crate::meter::{factor_of, turn_of, unit_of};
use rules::{Meter, Reading, Span};

// V: what the wheels have advanced from the last index to x; z marks that they passed zero.
#[tactic(auto, unfolding(rules::specs::Volumes::advance_of))]
fn advance(last: u64, x: u64, z: u64, turn: u64) -> u64
    requires { (x < turn) × (z ≤ 1) × (turn ≤ 100000000000) }
    ensures { result ≡ advance_of last x z turn }
{
    (x + z * turn).saturating_sub(last)
}

// V, of any numbers: nothing where the wheels do not have the index.
fn advance_read(last: u64, x: u64, z: u64, turn: u64) -> u64
    requires { turn ≤ 100000000000 }
    ensures { result ≡ advance_read last x z turn }
{
    if x < turn && z <= 1 {
        return advance(last, x, z, turn);
    }
    0
}

// A reading of x on day d with meter m, from the last reading on; of an index that the wheels do not have, nothing.
#[tactic(auto, using(rules::proofs::Meters::turn_most), unfolding(crate::specs::Between::span_read))]
pub fn span_to(m: Meter, last: Reading, d: u32, x: u64, z: u64) -> Span
    ensures { result ≡ span_read m last d x z }
{
    let turn = turn_of(m);
    Span {
        from: last.day,
        to: d,
        advance: advance_read(last.index, x, z, turn),
        unit: unit_of(m),
        factor: factor_of(m.code),
    }
}
