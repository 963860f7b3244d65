// Reads the lines of standard input as `registre` does, and then answers the question that its words ask. Working days
// between two dates are told at once: nothing is read for them.
// Other words get the usage line on standard error before anything is read. A read that fails, and an input that is not
// taken to its end, end the run with a word on standard error and without an answer.
#![tactic(auto)]

mod every;

use ask_lines::{put_reply, put_working};
use ask_words::{Asked, Question, asked_by, put_unopened, put_usage};
use input_pieces::desk_of;
use rules::Register;
use standard_input::{InputError, read_all};
use std::env::FillError;
use std::io::Input;
use std::rt::Env;

// What failed, on standard error. No Display of InputError: `registre` says it in words of its own, which may not change.
fn tell(rt: &impl Eprint, error: InputError) {
    let _ = match error {
        InputError::Unread(e) => eprintln!(rt; "ask: reading the input: {e}"),
        InputError::Unwritten(e) => eprintln!(rt; "ask: writing the answer: {e}"),
        InputError::Untaken => eprintln!(rt; "ask: the input was not taken to its end"),
    };
}

// `registre` has the same: shared, it would be a public function, and no clause can say what is written.
pub(crate) fn write_out(rt: &impl Print, text: &[u8]) -> Result<(), InputError> {
    rt.write_all(text).map_err(InputError::Unwritten)
}

// How many words the program was started with, its own name among them: `env::args` would take the heap.
fn arg_count(rt: &impl Env) -> usize {
    for i in 0..usize::MAX {
        if let Err(FillError::NotPresent) = rt.arg(i, &mut []) {
            return i;
        }
    }
    usize::MAX
}

// What the words behind the program's name ask for. A word that is missing is read as one of no bytes, and so is one of
// more than 16: it is none that there is.
fn asked(rt: &impl Env) -> Option<Asked> {
    let mut word = [0u8; 16];
    let mut first = [0u8; 16];
    let mut second = [0u8; 16];
    let mut third = [0u8; 16];
    let count = arg_count(rt).checked_sub(1)?;
    let a = rt.arg(1, &mut word).unwrap_or(0);
    let b = rt.arg(2, &mut first).unwrap_or(0);
    let c = rt.arg(3, &mut second).unwrap_or(0);
    let d = rt.arg(4, &mut third).unwrap_or(0);
    asked_by(count, &word[..a], &first[..b], &second[..c], &third[..d])
}

fn answer_one(rt: &impl Print, r: Register, q: Question) -> Result<(), InputError> {
    let mut out = [0u8; 128];
    let n = put_reply(&mut out, 0, r, q);
    write_out(rt, &out[..n])
}

fn answer_working(rt: &impl Print, first: u64, second: u64) -> Result<(), InputError> {
    let mut out = [0u8; 128];
    let n = put_working(&mut out, 0, first, second);
    write_out(rt, &out[..n])
}

// Where no register is open.
fn tell_unopened(rt: &impl Print) -> Result<(), InputError> {
    let mut out = [0u8; 128];
    let n = put_unopened(&mut out, 0);
    write_out(rt, &out[..n])
}

// The register that the input comes to; none where none is open.
fn register_read(rt: &(impl Input + Print)) -> Result<Option<Register>, InputError> {
    let d = desk_of(read_all(rt, false)?);
    if !d.ready {
        return Ok(None);
    }
    Ok(Some(d.register))
}

// The register is read in one place: each place takes the stack of a whole input's session.
fn answer(rt: &(impl Input + Print), asked: Asked) -> Result<(), InputError> {
    if let Asked::Working { first, second } = asked {
        return answer_working(rt, first, second);
    }
    let Some(r) = register_read(rt)? else {
        return tell_unopened(rt);
    };
    match asked {
        Asked::One(q) => answer_one(rt, r, q),
        Asked::All => every::answer_all(rt, r),
        // Told above, before anything is read.
        Asked::Working { .. } => Ok(()),
    }
}

// On standard error.
fn tell_usage(to: &impl Print) {
    let mut out = [0u8; 128];
    let n = put_usage(&mut out, 0);
    let _ = to.write_all(&out[..n]);
}

fn main(rt: HostRuntime) {
    let Some(question) = asked(&rt) else {
        tell_usage(&rt.stderr());
        return;
    };
    if let Err(error) = answer(&rt, question) {
        tell(&rt, error);
    }
}
