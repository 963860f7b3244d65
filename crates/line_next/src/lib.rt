// Reading the next line of a buffer, without looking for its end first.
#![tactic(auto)]

ghost use Rattle.std.specs.Prelude.{◌≡◌, ◌+◌, ◌≤◌, ◌==◌, ◌||◌, length, drop, position};
ghost use Rattle.line_next.specs.Between.NextLine.{feed_first, stop_at, next_line};

use input_lines::line_end;
use line_fields::{KnownDate, MOST_FIELDS, read_fields};
use line_kinds::{Kind, kind_named, row_of};
use line_messages::{LineMessage, Message, message_of, read_line};

// What the next line says, with its kind, the position of its end, and the last date read.
#[derive(Clone, Copy)]
pub struct NextLine {
    pub read: LineMessage,
    pub end: usize,
    pub known: KnownDate,
}

// The line that begins at a position: up to its line feed, or to the buffer's end.
pub fn next_line(buf: &[u8], from: usize, last: KnownDate) -> NextLine
    ensures { result ≡ next_line last buf.now from }
{
    if buf.len() < from {
        let none = LineMessage {
            kind: Kind::Unknown,
            message: Message::Unreadable,
        };
        return NextLine {
            read: none,
            end: from,
            known: last,
        };
    }
    let word_end = word_end_from(buf, from);
    let kind = kind_named(&buf[from..word_end]);
    let shape = row_of(kind).shape;
    let mut known = last;
    let mut values = [0; MOST_FIELDS];
    if let Ok(fields_end) = read_fields(buf, word_end, shape, &mut known, &mut values) {
        if is_feed(buf, fields_end) {
            let message = message_of(kind, values);
            return NextLine {
                read: LineMessage { kind, message },
                end: fields_end,
                known,
            };
        }
    }
    let end = line_end(buf, from);
    let read = read_line(&buf[from..end]);
    NextLine { read, end, known }
}

// A line feed stands at a position.
fn is_feed(buf: &[u8], at: usize) -> bool
    ensures { result ≡ feed_first (drop at buf.now) }
{
    matches!(buf.get(at), Some(b'\n'))
}

// The end of the first word from a position on: a `;`, a line feed, or the buffer's end.
fn word_end_from(buf: &[u8], from: usize) -> usize
    requires { from ≤ length buf.now }
    ensures { (result ≡ from + stop_at (drop from buf.now)) × (result ≤ length buf.now) }
{
    let rest = &buf[from..];
    from + first_stop(rest).unwrap_or(rest.len())
}

// The place of the first `;` or line feed.
fn first_stop(bytes: &[u8]) -> Option<usize>
    ensures { result ≡ position (λ c. c == 59 || c == 10) bytes.now }
{
    bytes.iter().position(|c| *c == b';' || *c == b'\n')
}
