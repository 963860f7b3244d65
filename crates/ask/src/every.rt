// `ask all`, for tests: every question inside and just off its range, for the points 0 to 33, each in front of its
// answer. Nothing is proved of the text but that it is written safely and ends.
ghost use Rattle.std.specs.Prelude.{◌≤◌, length};

use crate::write_out;
use ask_lines::put_reply;
use ask_words::Question;
use line_text::write::{put_byte, put_number, put_word};
use questions::period_of;
use questions_supplier::own_period_of;
use rules::Register;
use standard_input::InputError;

// The most bytes that a line takes.
const ROOM: usize = 128;

// The register that is asked, and the text of which the first len bytes wait to be written. Memory is fixed, so the length
// stands beside the text.
#[derive(Clone, Copy)]
struct Interview {
    r: Register,
    text: [u8; 65536],
    len: usize,
    ghost within: { len ≤ length text },
}

pub(crate) fn answer_all(rt: &impl Print, r: Register) -> Result<(), InputError> {
    let text = [0u8; 65536];
    let mut all = Interview { r, text, len: 0 };
    for p in 0..34 {
        all.ask_point(rt, p)?;
    }
    all.flush(rt)
}

impl Interview {
    // The advance; of an enrolled point period n for n from 0 to one past its count, then the holder on each day from the
    // day before its first period to the day after the register's, and then the suppliers' views.
    fn ask_point(&mut self, rt: &impl Print, p: u64) -> Result<(), InputError> {
        self.ask(rt, Question::Advance { point: p })?;
        let Some(first) = period_of(self.r, p, 1) else {
            return self.ask_other_point(rt, p);
        };
        self.ask_periods(rt, p)?;
        self.ask_days(rt, p, first.start as u64)?;
        for s in 0..101 {
            self.ask_views(rt, s, p)?;
        }
        Ok(())
    }

    // Of any other point the holder on the register's day, period 1, and the views of the suppliers 0 and 1.
    fn ask_other_point(&mut self, rt: &impl Print, p: u64) -> Result<(), InputError> {
        let day = self.r.day as u64;
        self.ask(rt, Question::Holder { point: p, day })?;
        self.ask(
            rt,
            Question::Period {
                point: p,
                number: 1,
            },
        )?;
        self.ask(rt, view(0, p, 1))?;
        self.ask(rt, view(1, p, 1))
    }

    fn ask_periods(&mut self, rt: &impl Print, p: u64) -> Result<(), InputError> {
        for n in 0..26 {
            self.ask(
                rt,
                Question::Period {
                    point: p,
                    number: n,
                },
            )?;
            if n > 0 && period_of(self.r, p, n).is_none() {
                break;
            }
        }
        Ok(())
    }

    fn ask_days(&mut self, rt: &impl Print, p: u64, first: u64) -> Result<(), InputError> {
        for day in first.saturating_sub(1)..self.r.day as u64 + 2 {
            self.ask(rt, Question::Holder { point: p, day })?;
        }
        Ok(())
    }

    // A supplier's view n for n from 0 to one past the count of its periods.
    fn ask_views(&mut self, rt: &impl Print, s: u64, p: u64) -> Result<(), InputError> {
        for n in 0..26 {
            self.ask(rt, view(s, p, n))?;
            if n > 0 && own_period_of(self.r, s, p, n).is_err() {
                break;
            }
        }
        Ok(())
    }

    // One question more; what waits is written where another line may find no room.
    fn ask(&mut self, rt: &impl Print, q: Question) -> Result<(), InputError> {
        let at = put_question(&mut self.text, self.len, q);
        self.len = put_reply(&mut self.text, at, self.r, q);
        if self.text.len() - self.len < ROOM {
            return self.flush(rt);
        }
        Ok(())
    }

    // Nothing waits any more.
    fn flush(&mut self, rt: &impl Print) -> Result<(), InputError> {
        write_out(rt, &self.text[..self.len])?;
        self.len = 0;
        Ok(())
    }
}

fn view(supplier: u64, point: u64, number: u64) -> Question {
    Question::View {
        supplier,
        point,
        number,
    }
}

// `holder;P;DAY;`, `period;P;N;`, `advance;P;`, `view;S;P;N;`, the day by its number.
fn put_question(out: &mut [u8], at: usize, q: Question) -> usize
    requires { at ≤ length out.old }
    ensures { result ≤ length out.new }
{
    match q {
        Question::Holder { point, day } => put_values(out, at, b"holder;", &[point, day]),
        Question::Period { point, number } => put_values(out, at, b"period;", &[point, number]),
        Question::Advance { point } => put_values(out, at, b"advance;", &[point]),
        Question::View {
            supplier,
            point,
            number,
        } => put_values(out, at, b"view;", &[supplier, point, number]),
    }
}

// A word, and numbers each with `;` behind it.
fn put_values(out: &mut [u8], at: usize, word: &[u8], values: &[u64]) -> usize
    requires { at ≤ length out.old }
    ensures { result ≤ length out.new }
{
    let mut end = put_word(out, at, word);
    for v in values {
        end = put_number(out, end, *v);
        end = put_byte(out, end, b';');
    }
    end
}
