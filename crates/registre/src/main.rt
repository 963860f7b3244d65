// Reads standard input, hands the bytes on, writes what comes back. A word on the command line gets the usage line.
// A read or a write that fails, and an input that is not taken to its end, end the run with a word on standard error
// and without closing lines: they stand for a whole input.
#![tactic(auto)]

use input_pieces::Session;
use standard_input::{InputError, read_all};
use std::env::FillError;
use std::io::Input;
use std::rt::Env;

// What failed, on standard error. No Display of InputError: `ask` says it in words of its own, which may not change.
fn tell(rt: &impl Eprint, error: InputError) {
    let _ = match error {
        InputError::Unread(e) => eprintln!(rt; "registre: reading the input: {e}"),
        InputError::Unwritten(e) => eprintln!(rt; "registre: writing the answers: {e}"),
        InputError::Untaken => eprintln!(rt; "registre: the input was not taken to its end"),
    };
}

// `ask` has the same: shared, it would be a public function, and no clause can say what is written.
fn write_out(rt: &impl Print, text: &[u8]) -> Result<(), InputError> {
    rt.write_all(text).map_err(InputError::Unwritten)
}

// The closing lines, point by point as far as each call came.
fn write_closing(rt: &(impl Print + Eprint), s: Session) -> Result<(), InputError> {
    let mut out = [0u8; 65536];
    let mut from: usize = 0;
    // No `for`: the call tells where the next one begins.
    while from < 32 {
        let listed = input_whole::close(s, from, &mut out);
        let n = listed.written;
        write_out(rt, &out[..n])?;
        let next = listed.next;
        if next <= from {
            let _ = eprintln!(rt; "registre: the closing lines were not written to their end");
            return Ok(());
        }
        from = next;
    }
    Ok(())
}

// Whether a word stands behind the program's name.
fn has_words(rt: &impl Env) -> bool {
    !matches!(rt.arg(1, &mut []), Err(FillError::NotPresent))
}

fn run(rt: &(impl Input + Print + Eprint)) -> Result<(), InputError> {
    let s = read_all(rt, true)?;
    write_closing(rt, s)
}

fn main(rt: HostRuntime) {
    if has_words(&rt) {
        let _ = eprintln!(rt; "registre: reads standard input and takes no words");
        return;
    }
    if let Err(error) = run(&rt) {
        tell(&rt, error);
    }
}
