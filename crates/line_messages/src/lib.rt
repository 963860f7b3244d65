// Message lines: what a line says, and reading one.
#![tactic(auto)]

ghost use Rattle.std.specs.Prelude.{◌≡◌, ◌≤◌, ◌==◌, length, position};
ghost use Rattle.line_messages.specs.Pinned.Messages.{ask, ask_at, message_of};
ghost use Rattle.line_messages.specs.Pinned.Reading.{word_end, read_line};
ghost use Rattle.line_messages.specs.Between.Values.{line_message};

use line_fields::{MOST_FIELDS, first_known, read_fields};
use line_kinds::{Kind, kind_named, row_of};
use line_text::LONGEST_LINE;
use rules::{Action, Call, NewMeter, Opening, PointAction};

// What a line says: an opening, one of the twelve calls, or nothing that can be read. Unreadable is a case and no None:
// `OneLine` says of which lines it is the message.
#[derive(Clone, Copy)]
pub enum Message {
    Open(Opening),
    Ask(Call),
    Unreadable,
}

// What a line says, with its kind: Unknown for one that cannot be read.
#[derive(Clone, Copy)]
pub struct LineMessage {
    pub kind: Kind,
    pub message: Message,
}

// A message's kind and the values of its fields; the places past its fields hold 0.
#[derive(Clone, Copy)]
pub struct Values {
    pub kind: Kind,
    pub values: [u64; MOST_FIELDS],
}

// What a line says, without its line feed.
pub fn read_line(line: &[u8]) -> LineMessage
    ensures { result ≡ line_message (read_line line.now) }
{
    if LONGEST_LINE < line.len() {
        return unreadable();
    }
    let end = word_end(line);
    let kind = kind_named(&line[..end]);
    let shape = row_of(kind).shape;
    let mut known = first_known();
    let mut values = [0; MOST_FIELDS];
    let Ok(end) = read_fields(line, end, shape, &mut known, &mut values) else {
        return unreadable();
    };
    if end < line.len() {
        return unreadable();
    }
    let message = message_of(kind, values);
    LineMessage { kind, message }
}

fn unreadable() -> LineMessage
    ensures { result ≡ line_message Message.Unreadable }
{
    LineMessage {
        kind: Kind::Unknown,
        message: Message::Unreadable,
    }
}

// The end of a line's first word: its first `;`, or its end.
fn word_end(line: &[u8]) -> usize
    ensures { (result ≡ word_end line.now) × (result ≤ length line.now) }
{
    first_separator(line).unwrap_or(line.len())
}

// The place of a line's first `;`.
fn first_separator(line: &[u8]) -> Option<usize>
    ensures { result ≡ position (λ c. c == 59) line.now }
{
    line.iter().position(|c| *c == b';')
}

// What a line of a kind with these values says.
pub fn message_of(kind: Kind, v: [u64; MOST_FIELDS]) -> Message
    ensures { result ≡ message_of kind v }
{
    let [today, a, b, c, d, e, f, g, h] = v;
    match kind {
        Kind::Set => Message::Open(Opening {
            day: today,
            w: a,
            a: b,
            b: c,
            default: d,
            resort: e,
        }),
        Kind::Ctr => asks(today, Action::Contract { supplier: a }),
        Kind::Def => asks(today, Action::Failure { supplier: a }),
        Kind::Enr => asks_at(
            today,
            a,
            PointAction::Enrol {
                meter: NewMeter {
                    before: b,
                    after: c,
                    index: d,
                    code: e,
                    factor: f,
                },
            },
        ),
        Kind::Demmespc => asks_at(
            today,
            a,
            PointAction::IntoService {
                supplier: b,
                key: c,
            },
        ),
        Kind::I => asks_at(today, a, PointAction::DefaultSupply { key: b }),
        Kind::Demcf => asks_at(
            today,
            a,
            PointAction::Request {
                supplier: b,
                key: c,
                day: d,
            },
        ),
        Kind::Adc => asks_at(today, a, PointAction::Cancel { supplier: b }),
        Kind::Ri => asks_at(
            today,
            a,
            PointAction::Reading {
                day: b,
                index: c,
                zero: d,
            },
        ),
        Kind::Cdt => asks_at(
            today,
            a,
            PointAction::MeterChange {
                index: b,
                zero: c,
                meter: NewMeter {
                    before: d,
                    after: e,
                    index: f,
                    code: g,
                    factor: h,
                },
            },
        ),
        Kind::Demmhs => asks_at(today, a, PointAction::OutOfService),
        Kind::Sus => asks_at(today, a, PointAction::Suspend { mark: b }),
        Kind::Jour => asks(today, Action::Day),
        Kind::Unknown => Message::Unreadable,
    }
}

fn asks(today: u64, action: Action) -> Message
    ensures { result ≡ ask today action }
{
    Message::Ask(Call { today, action })
}

fn asks_at(today: u64, point: u64, act: PointAction) -> Message
    ensures { result ≡ ask_at today point act }
{
    asks(today, Action::At { point, act })
}
