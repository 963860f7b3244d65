// The lines that answer questions.
#![tactic(auto)]

ghost use Rattle.std.specs.Prelude.{◌≡◌, ◌+◌, ◌≤◌, length};
ghost use Rattle.line_text.specs.Between.Appending.{Appended};
ghost use Rattle.ask_lines.specs.Between.{written, Adds, Holds, no_line};
ghost use Rattle.ask_lines.specs.Lines.{field, date_field, end_field, one, two, volumes, ok_view, refusal};
ghost use Rattle.ask_lines.specs.Lines.{holder_reply, period_reply, advance_reply, view_reply, working_reply};
ghost use Rattle.ask_lines.specs.Lines.{reply};
ghost use Rattle.questions_supplier.specs.Pinned.Own.{refusal_number};
ghost use Rattle.working_count.specs.Question.{working_answer};

use ask_words::Question;
use line_text::write::{put_byte, put_day, put_number, put_word};
use questions::{Advance, HolderAnswer, advance_of, holder_of, period_of};
use questions_supplier::{OwnPeriod, ViewRefusal, own_period_of};
use rules::{NormalVolume, Period, Register, Volume};
use working_count::working_of;

// The number of a question that is answered with None: an enum for this one number would say no more than the Option does.
const OFF_RANGE: u64 = 22;

// The line that answers a question.
#[tactic(auto, using(crate::proofs::Written::holds_is))]
pub fn put_reply(out: &mut [u8], at: usize, r: Register, q: Question) -> usize
    ensures { Appended at (reply r q) out.old out.new result }
{
    put_line(out, at, answer(r, q))
}

// The line that tells how many working days lie between two days.
#[tactic(auto, using(crate::proofs::Written::holds_is))]
pub fn put_working(out: &mut [u8], at: usize, first: u64, second: u64) -> usize
    ensures { Appended at (working_reply (working_answer first second)) out.old out.new result }
{
    put_line(out, at, count_line(working_of(first, second)))
}

fn put_line(out: &mut [u8], at: usize, line: Line) -> usize
    requires { line.len ≤ length line.text }
    ensures { Appended at (written line) out.old out.new result }
{
    put_word(out, at, &line.text[..line.len])
}

// The answer to a question.
#[tactic(auto, unfolding(crate::specs::Lines::reply))]
fn answer(r: Register, q: Question) -> Line
    ensures { Holds (reply r q) result }
{
    match q {
        Question::Holder { point, day } => holder_line(holder_of(r, point, day)),
        Question::Period { point, number } => period_line(period_of(r, point, number)),
        Question::Advance { point } => advance_line(advance_of(r, point)),
        Question::View {
            supplier,
            point,
            number,
        } => view_line(own_period_of(r, supplier, point, number)),
    }
}

#[tactic(auto, unfolding(crate::specs::Lines::holder_reply))]
fn holder_line(answer: HolderAnswer) -> Line
    ensures { Holds (holder_reply answer) result }
{
    let held = answer.held;
    match held {
        Some(s) => two_numbers(b"ok;", u64::from(s), answer.probes),
        None => two_numbers(b"refused;", OFF_RANGE, answer.probes),
    }
}

#[tactic(auto, unfolding(crate::specs::Lines::period_reply))]
fn period_line(answer: Option<Period>) -> Line
    ensures { Holds (period_reply answer) result }
{
    let Some(q) = answer else {
        return refusal(OFF_RANGE);
    };
    let mut line = begun(b"ok;");
    line.date(u64::from(q.start), b';');
    line.field(u64::from(q.holder), b';');
    line.volumes(q.volume, q.normal);
    line
}

#[tactic(auto, unfolding(crate::specs::Lines::advance_reply))]
fn advance_line(answer: Option<Advance>) -> Line
    ensures { Holds (advance_reply answer) result }
{
    let Some(a) = answer else {
        return refusal(OFF_RANGE);
    };
    let mut line = begun(b"ok;");
    line.volumes(a.volume, a.normal);
    line
}

#[tactic(auto, unfolding(crate::specs::Lines::view_reply))]
fn view_line(answer: Result<OwnPeriod, ViewRefusal>) -> Line
    ensures { Holds (view_reply answer) result }
{
    match answer {
        Ok(q) => own_line(q),
        Err(e) => refusal(number_of(e)),
    }
}

// The number of a refused view.
fn number_of(e: ViewRefusal) -> u64
    ensures { result ≡ refusal_number e }
{
    match e {
        ViewRefusal::OffRange => OFF_RANGE,
        ViewRefusal::OutOfPerimeter => 41,
    }
}

// `ok;`, a period's start and end as dates, and its volumes.
fn own_line(q: OwnPeriod) -> Line
    ensures { Holds (ok_view q) result }
{
    let mut line = begun(b"ok;");
    line.date(u64::from(q.start), b';');
    line.end(q.end, b';');
    line.volumes(q.volume, q.normal);
    line
}

#[tactic(auto, unfolding(crate::specs::Lines::working_reply))]
fn count_line(answer: Option<u32>) -> Line
    ensures { Holds (working_reply answer) result }
{
    match answer {
        Some(n) => one_number(b"ok;", u64::from(n)),
        None => refusal(OFF_RANGE),
    }
}

// `refused;` and a number.
fn refusal(n: u64) -> Line
    ensures { Holds (refusal n) result }
{
    one_number(b"refused;", n)
}

// A word of at most 8 bytes and a number.
fn one_number(word: &[u8], v: u64) -> Line
    requires { length word.now ≤ 8 }
    ensures { Holds (one word.now v 10) result }
{
    let mut line = begun(word);
    line.field(v, b'\n');
    line
}

// A word of at most 8 bytes and two numbers.
fn two_numbers(word: &[u8], v: u64, w: u64) -> Line
    requires { length word.now ≤ 8 }
    ensures { Holds (two word.now v w) result }
{
    let mut line = begun(word);
    line.field(v, b';');
    line.field(w, b'\n');
    line
}

// A line as it is written: the first len bytes of the text, which has room for the longest answer. Memory is fixed, so
// the length stands beside the text.
#[derive(Clone, Copy)]
struct Line {
    text: [u8; 75],
    len: usize,
}

// A line that begins with a word.
fn begun(word: &[u8]) -> Line
    requires { length word.now ≤ 8 }
    ensures { Adds 8 word.now no_line result }
{
    let mut text = [0u8; 75];
    let len = put_word(&mut text, 0, word);
    Line { text, len }
}

impl Line {
    // The two volumes that end a line.
    fn volumes(&mut self, volume: Volume, normal: NormalVolume)
        requires { self.old.len + 42 ≤ length self.old.text }
        ensures { Adds 42 (volumes volume normal) self.old self.new }
    {
        self.field(volume.0, b';');
        self.field(normal.0, b'\n');
    }

    // A number, which has at most 20 digits, and the byte behind it.
    fn field(&mut self, v: u64, end: u8)
        requires { self.old.len + 21 ≤ length self.old.text }
        ensures { Adds 21 (field v end) self.old self.new }
    {
        let next = put_number(&mut self.text, self.len, v);
        self.len = put_byte(&mut self.text, next, end);
    }

    // A day's date and the byte behind it.
    fn date(&mut self, day: u64, end: u8)
        requires { self.old.len + 9 ≤ length self.old.text }
        ensures { Adds 9 (date_field day end) self.old self.new }
    {
        let next = put_day(&mut self.text, self.len, day);
        self.len = put_byte(&mut self.text, next, end);
    }

    // Where a period ends, and the byte behind it: `-` where it is open.
    fn end(&mut self, when: Option<u32>, end: u8)
        requires { self.old.len + 9 ≤ length self.old.text }
        ensures { Adds 9 (end_field when end) self.old self.new }
    {
        let Some(day) = when else {
            let next = put_byte(&mut self.text, self.len, b'-');
            self.len = put_byte(&mut self.text, next, end);
            return;
        };
        self.date(u64::from(day), end);
    }
}
