// A whole input: before it, and at its end; and what `input_pieces` hands on for it, beside the day book
// (specs/Transcript).
#![tactic(auto)]

ghost use Rattle.input_pieces.specs.Pinned.Session.{desk_of, FedBy};
ghost use Rattle.input_whole.specs.Pinned.Ends.{Started, missing_feed, ClosedFrom};

use input_lines::nothing_begun;
use input_pieces::{Fed, Session, desk_of, feed};
use input_tables::tables_of;
use line_listing::{Listed, put_listing};
use register::no_register;

// Before any input: no register is open.
pub fn start() -> Session
    ensures { Started result }
{
    let r = no_register();
    Session {
        ready: false,
        settings: r.settings,
        day: r.day,
        contracts: r.contracts,
        tables: tables_of(&r.points),
        part: nothing_begun(),
    }
}

// At the end of the input: a last line without its line feed is answered as if it had one.
pub fn finish(s: Session, out: &mut [u8]) -> Fed
    ensures { FedBy s (missing_feed s) out.old out.new result }
{
    let n = s.part.len.min(1);
    feed(s, &b"\n"[..n], out)
}

// The closing lines, where those of the first points are written already: as many points as there is room for, and
// how far it came.
pub fn close(s: Session, from: usize, out: &mut [u8]) -> Listed
    ensures { ClosedFrom (desk_of s) from out.old out.new result }
{
    if !s.ready {
        return Listed {
            next: 32,
            written: 0,
        };
    }
    put_listing(desk_of(s).register, from, out)
}
