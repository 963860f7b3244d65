// Opening a register.
ghost use Rattle.std.specs.Prelude.{◌≡◌, true, set as listn_set, replicate};
ghost use Rattle.rules.specs.Opening.{settings_of, first_contracts};
ghost use Rattle.rules.specs.Pinned.Register.{blank_point, register};
ghost use Rattle.register.specs.Pinned.Opens.{InRange, no_register, opened_over};

use crate::points::blank_point;
use point_answers::opening_answer;
use point_checks::is_accepted;
use rules::{Opening, Outcome, Register, Settings};

// The settings of an opening whose numbers are in range.
fn settings_of(o: Opening) -> Settings
    requires { InRange o }
    ensures { result ≡ settings_of o }
{
    Settings {
        w: o.w as u8,
        a: o.a as u16,
        b: o.b as u16,
        default: o.default as u8,
        resort: o.resort as u8,
    }
}

// The suppliers under contract from the start.
#[tactic(auto, unfolding(rules::specs::Opening::first_contracts))]
fn first_contracts(set: Settings) -> [bool; 100]
    ensures { result ≡ first_contracts set }
{
    let d = set.default as usize;
    let l = set.resort as usize;
    signed(l, signed(d, [false; 100]))
}

fn signed(i: usize, u: [bool; 100]) -> [bool; 100]
    ensures { result ≡ listn_set u i true }
{
    let mut out = u;
    if i < 100 {
        out[i] = true;
    }
    out
}

// A newly opened register: no point is enrolled.
fn new_register(set: Settings, day: u32) -> Register
    ensures { result ≡ register set day (first_contracts set) (replicate 32 blank_point) }
{
    let contracts = first_contracts(set);
    let blank = blank_point();
    Register {
        settings: set,
        day,
        contracts,
        points: [blank; 32],
    }
}

// What stands where no register is open.
#[tactic(auto, unfolding(crate::specs::Pinned::Opens::no_register))]
pub fn no_register() -> Register
    ensures { result ≡ no_register }
{
    let blank = blank_point();
    Register {
        settings: Settings {
            w: 0,
            a: 0,
            b: 0,
            default: 0,
            resort: 0,
        },
        day: 0,
        contracts: [false; 100],
        points: [blank; 32],
    }
}

// An opening with any numbers: its answer, and the register after it. A refused one opens none: the register stays as
// it came.
#[tactic(auto, using(crate::proofs::Opens::opening_in_range), unfolding(crate::specs::Pinned::Opens::opened_over, rules::specs::Pinned::Register::opened))]
pub fn open(r: Register, o: Opening) -> Outcome
    ensures { result ≡ opened_over r o }
{
    let answer = opening_answer(o);
    if is_accepted(answer) {
        let set = settings_of(o);
        let fresh = new_register(set, o.day as u32);
        return Outcome {
            answer,
            register: fresh,
        };
    }
    Outcome {
        answer,
        register: r,
    }
}
