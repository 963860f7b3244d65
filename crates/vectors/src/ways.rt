// An input through `start`, `feed`, `finish` and `close`, cut in four ways.
use crate::agreed::Agreed;
use input_pieces::Session;

// So many bytes of what is left at a time, with room for all.
pub(crate) fn with_all_room<'a>(input: &[u8], piece: usize, expected: &'a [u8]) -> Agreed<'a> {
    let mut out = [0u8; 65536];
    let mut a = Agreed::nothing_yet(expected);
    let s = answered(input, piece, &mut out, &mut a);
    closed(s, &mut out, &mut a);
    a
}

// The same with room for two answers, and at the end for the lines of one point: two lines are taken, and the rest of a
// piece is handed in again.
pub(crate) fn with_little_room<'a>(input: &[u8], piece: usize, expected: &'a [u8]) -> Agreed<'a> {
    let mut answers = [0u8; 48];
    let mut lines = [0u8; 1443];
    let mut a = Agreed::nothing_yet(expected);
    let s = answered(input, piece, &mut answers, &mut a);
    closed(s, &mut lines, &mut a);
    a
}

// The answers to all lines. A piece of which nothing is taken is a difference: the input would never end.
fn answered(input: &[u8], piece: usize, out: &mut [u8], a: &mut Agreed<'_>) -> Session {
    let mut s = input_whole::start();
    let mut rest = input;
    while !rest.is_empty() {
        let n = piece.min(rest.len());
        let f = input_pieces::feed(s, &rest[..n], out);
        s = f.session;
        let w = f.written;
        a.then(&out[..w]);
        let taken = f.taken;
        if taken == 0 {
            a.fail();
            return s;
        }
        a.hand_in_again(n - taken);
        rest = &rest[taken..];
    }
    last_line(s, out, a)
}

// The answer to a last line without its line feed.
fn last_line(s: Session, out: &mut [u8], a: &mut Agreed<'_>) -> Session {
    let f = input_whole::finish(s, out);
    let w = f.written;
    a.then(&out[..w]);
    f.session
}

// The closing lines. A call that lists no point is a difference: they would never end.
fn closed(s: Session, out: &mut [u8], a: &mut Agreed<'_>) {
    let mut from: usize = 0;
    // No `for`: the call tells where the next one begins.
    while from < 32 {
        let listed = input_whole::close(s, from, out);
        let w = listed.written;
        a.then(&out[..w]);
        if listed.next <= from {
            return a.fail();
        }
        from = listed.next;
    }
}
