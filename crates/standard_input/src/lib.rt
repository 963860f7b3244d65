// Standard input, read to its end: what is read is handed in piece by piece, and the answer lines are written or not.
// No contract can say what is read or written; whatever it is, a session that is handed out has come to the end of an
// input (specs/Reached).
#![tactic(auto)]

ghost use Rattle.std.specs.Prelude.{◌≡◌, length, IfOk};
ghost use Rattle.standard_input.specs.Reached.{ReadAll, Finished};

use input_pieces::Session;
use std::io;
use std::io::{Input, Read};

// Why an input was not read to its end. A read or a write that failed leaves its error.
#[derive(Clone, Copy)]
pub enum InputError {
    Unread(io::Error),
    Unwritten(io::Error),
    // Not all of the input was taken.
    Untaken,
}

// Reads to the end, the last line without its line feed too. Where show, the answer lines are written.
#[tactic(auto, using(crate::proofs::Leads::leads_last))]
pub fn read_all(rt: &(impl Input + Print), show: bool) -> Result<Session, InputError>
    ensures { ReadAll result }
{
    let mut reader = rt.reader();
    let mut input = [0u8; 65536];
    let mut out = answer_buffer();
    let mut s = input_whole::start();
    // What is read and not yet taken stands from `from` to `end`: the memory is fixed, and a BufReader takes the heap.
    let mut from: usize = 0;
    let mut end: usize = 0;
    // A proved loop has to end, and nothing says that the input does: no run uses up so many turns.
    for _ in 0..u64::MAX {
        if from == end {
            let got = reader.read(&mut input).map_err(InputError::Unread)?;
            if got == 0 {
                return finished(rt, show, s);
            }
            from = 0;
            end = got;
            continue;
        }
        let f = input_pieces::feed(s, &input[from..end], &mut out);
        let taken = f.taken;
        if taken == 0 {
            break;
        }
        let n = f.written;
        shown(rt, show, &out[..n])?;
        s = f.session;
        from += taken;
    }
    Err(InputError::Untaken)
}

// The session behind the last line, if it lacks its line feed.
fn finished(rt: &impl Print, show: bool, s: Session) -> Result<Session, InputError>
    ensures { IfOk result (Finished s) }
{
    let mut out = [0u8; 4096];
    let f = input_whole::finish(s, &mut out);
    let n = f.written;
    shown(rt, show, &out[..n])?;
    let last = f.session;
    let part = last.part;
    if part.len > 0 {
        return Err(InputError::Untaken);
    }
    Ok(last)
}

fn shown(rt: &impl Print, show: bool, text: &[u8]) -> Result<(), InputError> {
    if show {
        rt.write_all(text).map_err(InputError::Unwritten)?;
    }
    Ok(())
}

// Room for the answers of 65,536 lines of 24 bytes. The contract gives only the length.
fn answer_buffer() -> [u8; 1572864]
    ensures { 1572864 ≡ length result }
{
    [0; 1572864]
}
