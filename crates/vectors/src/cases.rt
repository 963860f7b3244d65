// The stored cases, one by one.
use crate::tally::Tally;
use crate::{files, ways};
use std::rt::Files;

// All cases that list.txt names, one to a line.
pub(crate) fn all(rt: &(impl Files + Print)) -> Tally {
    let mut t = Tally::default();
    let mut buffer = [0u8; 65536];
    match files::read(rt, b"list", b".txt", &mut buffer) {
        Ok(list) => of_list(rt, list, &mut t),
        Err(part) => {
            of_list(rt, part, &mut t);
            t.unread(rt, b"list", b".txt");
        }
    }
    t
}

fn of_list(rt: &(impl Files + Print), list: &[u8], t: &mut Tally) {
    for line in list.split_inclusive(|b| *b == b'\n') {
        case(rt, line.strip_suffix(b"\n").unwrap_or(line), t);
    }
}

// A case by its name: both its files have to be there.
fn case(rt: &(impl Files + Print), name: &[u8], t: &mut Tally) {
    let mut buffer = [0u8; 65536];
    let Ok(input) = files::read(rt, name, b".in", &mut buffer) else {
        return t.unread(rt, name, b".in");
    };
    let mut buffer = [0u8; 65536];
    let Ok(output) = files::read(rt, name, b".out", &mut buffer) else {
        return t.unread(rt, name, b".out");
    };
    compared(rt, name, input, output, t);
}

// A case in each of the four ways.
fn compared(rt: &impl Print, name: &[u8], input: &[u8], output: &[u8], t: &mut Tally) {
    t.count(input.len(), output.len());
    let whole = ways::with_all_room(input, input.len(), output);
    t.judge(rt, name, " in one piece", whole);
    let bytes = ways::with_all_room(input, 1, output);
    t.judge(rt, name, " byte by byte", bytes);
    let sevens = ways::with_little_room(input, 7, output);
    t.judge(rt, name, " in sevens", sevens);
    let twos = ways::with_little_room(input, input.len(), output);
    t.judge(rt, name, " two answers a time", twos);
}
