// The lines of a piece, answered one by one. The points stay in their tables: a line costs what it looks at and what it
// stores; the whole register is put together only for an opening and where something falls due.
ghost use Rattle.std.specs.Prelude.{◌≡◌, ◌*◌, ◌≤◌, length, map};
ghost use Rattle.input_lines.specs.Lines.{feeds};
ghost use Rattle.line_answers.specs.Answers.{longest_answer};
ghost use Rattle.input_point.specs.Between.Answers.{settled, failure_answer};
ghost use Rattle.register.specs.Between.Calls.{failed_on};
ghost use Rattle.input_desk.specs.Pinned.Desk.{desk_after};
ghost use Rattle.input_pieces.specs.Pinned.Session.{desk_of as session_desk, run_from, RunTo, WholeMessage};
ghost use Rattle.input_pieces.specs.Between.Pieces.{Calm, Told};
ghost use Rattle.input_tables.specs.Between.Tables.{points_of, Apart, Sized};

use crate::{Session, desk_of};
use input_desk::after;
use input_lines::Begun;
use input_point::{
    Deed, Newest, Said, answer_of, daily_of, deed_of, failed_tables, failure_answer, place_of,
};
use input_quiet::{due_day, first_due};
use input_tables::{Tables, booked_at, tables_of};
use line_answers::put_answer;
use line_fields::first_known;
use line_messages::{LineMessage, Message, read_line};
use line_next::next_line;
use point_checks::is_accepted;
use point_periods::newest_place;
use rules::{Answer, Period, Settings};

// The message of a line, which next_line has read; with the part of it that had come before, if there is one.
fn whole_message(part: &Begun, read: LineMessage, line: &[u8]) -> LineMessage
    ensures { WholeMessage part.now line.now read result }
{
    if part.len == 0 {
        return read;
    }
    let whole = part.append(line);
    read_line(whole.held())
}

impl Session {
    // The answer in what was said: that of a failure looks at every point.
    fn settled(&self, said: Said) -> Answer
        ensures { result ≡
            settled (failure_answer self.now.settings self.now.day self.now.tables.fields
            self.now.tables.counts self.now.tables.slots) said }
    {
        match said {
            Said::Known(a) => a,
            Said::Ruled(x) => x.answer,
            Said::Fails { today, supplier } => {
                failure_answer(self.settings, self.day, today, supplier, &self.tables)
            }
        }
    }

    // Goes on by the desk's answer to a message: the whole register is put together and taken apart again. A function of
    // its own, as `fail_all` is: a call pays for the room of all its locals, and those of `answer` are paid for each line.
    fn go_by_the_desk(&mut self, m: Message)
        ensures after { session_desk self.new ≡ desk_after (session_desk self.old) m }
        ensures sized { Sized self.new.tables.fields self.new.tables.counts self.new.tables.slots }
        ensures part { self.new.part ≡ self.old.part }
    {
        let next = after(desk_of(*self), m);
        let r = next.register;
        self.ready = next.ready;
        self.settings = r.settings;
        self.day = r.day;
        self.contracts = r.contracts;
        self.tables = tables_of(&r.points);
    }

    // Answers a message, and stores what it changes where it is accepted: before the day quiet, on which something may
    // fall due, that is one point's fields and one slot, a contract, or the day alone; at a failure it is that of every
    // point.
    fn answer(&mut self, m: Message, quiet: &mut u32) -> Answer
        requires { Calm self.old quiet.old }
        ensures { Told self.old m result self.new quiet.new }
    {
        let i = place_of(m);
        let n = self.tables.counts[i];
        let k = newest_place(n);
        let f = self.tables.fields[i];
        // No function of input_tables: it would ask for i < 32, and no public function asks anything (docs/HOUSE.md).
        let newest = Newest {
            count: n,
            period: self.tables.slots[24 * i + k],
        };
        if let Some(x) = daily_of(self.ready, self.day, *quiet, m, f, &newest) {
            self.day = x.today;
            self.tables.fields[i].reading = x.reading;
            self.tables.slots[24 * i + k] = Period {
                volume: x.volume,
                normal: x.normal,
                ..newest.period
            };
            return Answer::Accepted;
        }
        let said = answer_of(
            self.settings,
            self.day,
            self.contracts,
            self.ready,
            m,
            f,
            &newest,
        );
        let answer = self.settled(said);
        if !is_accepted(answer) {
            return answer;
        }
        match deed_of(*quiet, m, said, &newest) {
            Deed::Slot(x) => {
                self.day = x.today;
                self.tables.fields[i] = x.fields;
                self.tables.counts[i] = x.count;
                self.tables.slots[24 * i + x.place] = x.period;
                *quiet = (*quiet).min(due_day(x.fields.supply));
            }
            Deed::Back {
                today,
                span,
                fields,
            } => {
                self.day = today;
                self.tables.fields[i] = fields;
                booked_at(span, i, n, &mut self.tables.slots);
                *quiet = (*quiet).min(due_day(fields.supply));
            }
            Deed::Sign { today, supplier } => {
                self.day = today;
                self.contracts[supplier] = true;
            }
            Deed::Pass { today } => self.day = today,
            Deed::Fail { today, supplier } => {
                self.day = today;
                self.contracts[supplier] = false;
                fail_all(&mut self.tables, self.settings, today, supplier as u64);
                *quiet = first_due(&self.tables.fields);
            }
            Deed::Whole => {
                self.go_by_the_desk(m);
                *quiet = first_due(&self.tables.fields);
            }
        }
        answer
    }
}

// The tables after a failure of s.
fn fail_all(tables: &mut Tables, set: Settings, t: u32, s: u64)
    ensures { Apart (map (failed_on set t s)
        (points_of tables.old.fields tables.old.counts tables.old.slots)) tables.new }
{
    *tables = failed_tables(set, t, s, *tables);
}

// Answers the lines that end in a piece, keeps what stands behind the last, and says how many bytes were written.
pub(crate) fn answer_lines(session: &mut Session, piece: &[u8], out: &mut [u8]) -> usize
    requires room { longest_answer * feeds piece.now ≤ length out.old }
    requires sized { Sized session.old.tables.fields session.old.tables.counts session.old.tables.slots }
    ensures { RunTo (run_from session.old piece.now) out.old out.new session.new result }
{
    let mut quiet = first_due(&session.tables.fields);
    let mut known = first_known();
    let mut at: usize = 0;
    let mut written: usize = 0;
    // A while, for no index is counted: each line begins where the one before it has ended.
    while at < piece.len() {
        let line = next_line(piece, at, known);
        if piece.len() <= line.end {
            break;
        }
        let whole = whole_message(&session.part, line.read, &piece[at..line.end]);
        known = line.known;
        at = line.end + 1;
        session.part.len = 0;
        let answer = session.answer(whole.message, &mut quiet);
        written = put_answer(out, written, whole.kind, answer);
    }
    session.part = session.part.append(&piece[at..]);
    written
}
