// The closing lines of a register: for each enrolled point, rising, its periods and its total.
#![tactic(auto)]

ghost use Rattle.std.specs.Prelude.{◌≡◌, ◌+◌, ◌-◌, ◌*◌, ◌≤◌, ◌<◌, length};
ghost use Rattle.line_text.specs.Between.Appending.{AppendedWithin};
ghost use Rattle.line_answers.specs.Answers.{period_line};
ghost use Rattle.line_listing.specs.Pinned.Listing.{point_lines};
ghost use Rattle.line_listing.specs.Pinned.Pieces.{taken, ListedFrom, lines_behind};

use line_answers::{put_period, put_total};
use point_periods::periods_in_use;
use questions::advance_in;
use rules::{Period, Point, Register};

// The most bytes that the lines of one point take: 24 periods of at most 58 bytes, and a total of at most 51.
const ROOM: usize = 1443;

// What a call has done: the points before next are listed, and the text has so many bytes.
#[derive(Clone, Copy)]
pub struct Listed {
    pub next: usize,
    pub written: usize,
}

// The lines of the points behind the first ones, from the start of out on: of as many points as surely fit.
pub fn put_listing(r: Register, from: usize, out: &mut [u8]) -> Listed
    ensures { ListedFrom r from out.old out.new result }
{
    let n = taken_from(from, out.len());
    let written = put_points(out, r.points, from, n);
    Listed {
        next: from + n,
        written,
    }
}

// How many points a call takes.
fn taken_from(from: usize, room: usize) -> usize
    ensures { result ≡ taken from room }
{
    32usize.saturating_sub(from).min(room / ROOM)
}

// The lines of n points behind the first ones, from the start of out on.
fn put_points(out: &mut [u8], points: [Point; 32], from: usize, n: usize) -> usize
    requires { (n ≤ 32 - from) × (n * 1443 ≤ length out.old) }
    ensures { AppendedWithin (n * 1443) 0 (lines_behind from n points) out.old out.new result }
{
    let mut at = 0;
    for i in 0..n {
        at = put_point(out, at, (from + i) as u64 + 1, points[from + i]);
    }
    at
}

// The lines of point p: none where it is not enrolled.
fn put_point(out: &mut [u8], at: usize, p: u64, g: Point) -> usize
    requires { (p < 100) × (at + 1443 ≤ length out.old) }
    ensures { AppendedWithin 1443 at (point_lines p g) out.old out.new result }
{
    if !g.fields.enrolled {
        return at;
    }
    let mut end = at;
    for &q in periods_in_use(&g.history) {
        end = put_line(out, end, p, q);
    }
    let total = advance_in(g.history);
    put_total(out, end, p, total.volume, total.normal)
}

// One period's line, which has at most 58 bytes.
fn put_line(out: &mut [u8], at: usize, p: u64, q: Period) -> usize
    requires { p < 100 }
    ensures { AppendedWithin 58 at (period_line p q) out.old out.new result }
{
    put_period(out, at, p, q)
}
