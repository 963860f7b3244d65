// The lines that are written: answers, and the closing lines with periods and totals. Each ends with a line feed.
#![tactic(auto)]

ghost use Rattle.std.specs.Prelude.{◌≡◌, ◌+◌, ◌≤◌, [], ◌∷◌, length, MatchOption};
ghost use Rattle.std.proofs.Math.Option.{none, some};
ghost use Rattle.line_text.specs.Between.Appending.{Appended};
ghost use Rattle.line_text.specs.Decimal.{decimal};
ghost use Rattle.line_kinds.specs.Kinds.{word as kinds_word};
ghost use Rattle.rules.specs.Answers.{is_accepted, number, number_of as rejection_number, date};
ghost use Rattle.line_answers.specs.Answers.{shown_kind, verdict, date_shown, answer_line};
ghost use Rattle.line_answers.specs.Answers.{volumes_shown, period_line, total_line};

use line_kinds::{Kind, put_kind, row_of};
use line_text::write::{digit_count, has_room, put_byte, put_day, put_number, put_word};
use rules::{Answer, NormalVolume, Period, Rejection, Volume};

// The most bytes that an answer line has.
pub const LONGEST_ANSWER: usize = 24;

// The answer to a line of a kind.
pub fn put_answer(out: &mut [u8], at: usize, kind: Kind, answer: Answer) -> usize
    ensures { Appended at (answer_line kind answer) out.old out.new result }
{
    let n = number_of(answer);
    let shown = shown_kind(kind, answer);
    if !has_room(out, at, answer_size(shown, n)) {
        return at;
    }
    let verdict_at = put_kind(out, at, shown);
    let number_at = put_verdict(out, verdict_at, answer);
    let number_end = put_number(out, number_at, u64::from(n));
    let date_at = put_byte(out, number_end, b';');
    let date_end = put_date(out, date_at, answer);
    put_byte(out, date_end, b'\n')
}

// A point's supplier period.
pub fn put_period(out: &mut [u8], at: usize, point: u64, period: Period) -> usize
    ensures { Appended at (period_line point period) out.old out.new result }
{
    if !has_room(out, at, period_size(point, period)) {
        return at;
    }
    let holder = u64::from(period.holder);
    let volume = period.volume;
    let point_end = put_number(out, at, point);
    let start_at = put_byte(out, point_end, b';');
    let start_end = put_day(out, start_at, u64::from(period.start));
    let holder_at = put_byte(out, start_end, b';');
    let volumes_at = put_number(out, holder_at, holder);
    put_volumes(out, volumes_at, volume, period.normal)
}

// A point's registered advance, as the wheels count it and in normal cubic metres.
pub fn put_total(
    out: &mut [u8],
    at: usize,
    point: u64,
    advance: Volume,
    normal: NormalVolume,
) -> usize
    ensures { Appended at (total_line point advance normal) out.old out.new result }
{
    if !has_room(out, at, total_size(point, advance, normal)) {
        return at;
    }
    let point_at = put_word(out, at, b"total;");
    let volumes_at = put_number(out, point_at, point);
    put_volumes(out, volumes_at, advance, normal)
}

// The two volumes that end a closing line, each behind its `;`.
fn put_volumes(out: &mut [u8], at: usize, volume: Volume, normal: NormalVolume) -> usize
    requires { at + length (volumes_shown volume normal) ≤ length out.old }
    ensures { Appended at (volumes_shown volume normal) out.old out.new result }
{
    let volume_at = put_byte(out, at, b';');
    let volume_end = put_number(out, volume_at, volume.0);
    let normal_at = put_byte(out, volume_end, b';');
    let normal_end = put_number(out, normal_at, normal.0);
    put_byte(out, normal_end, b'\n')
}

// The lengths of the lines; that of an answer's by the kind and the number that it shows.
fn answer_size(shown: Kind, n: u8) -> usize
    ensures { result ≡ length (kinds_word shown) + length (decimal n []) + 13 }
{
    row_of(shown).word.len() + digit_count(u64::from(n)) + 13
}

fn period_size(point: u64, period: Period) -> usize
    ensures { result ≡ length (period_line point period) }
{
    let holder = u64::from(period.holder);
    digit_count(point) + digit_count(holder) + volumes_size(period.volume, period.normal) + 10
}

fn total_size(point: u64, advance: Volume, normal: NormalVolume) -> usize
    ensures { result ≡ length (total_line point advance normal) }
{
    digit_count(point) + volumes_size(advance, normal) + 6
}

fn volumes_size(volume: Volume, normal: NormalVolume) -> usize
    ensures { (result ≡ length (volumes_shown volume normal)) × (result ≤ 43) }
{
    digit_count(volume.0) + digit_count(normal.0) + 3
}

// The number of an answer, 0 if accepted.
fn number_of(answer: Answer) -> u8
    ensures { result ≡ number answer }
{
    match answer {
        Answer::Accepted | Answer::AcceptedOn(_) => 0,
        Answer::Refused(rejection) => table_number(rejection),
    }
}

// The number of a refusal: the table's, or the one given by itself. A `From` would be the same match, and stand in `rules`, which has the definition.
fn table_number(rejection: Rejection) -> u8
    ensures { result ≡ rejection_number rejection }
{
    match rejection {
        Rejection::NoTransportContract => 1,
        Rejection::FalseIdpc => 2,
        Rejection::DateIncompatible => 3,
        Rejection::NameDiffers => 4,
        Rejection::OtherRequest => 5,
        Rejection::NoPerimeter => 6,
        Rejection::AccessSuspended => 7,
        Rejection::LastResortUnderWay(_) => 8,
        Rejection::OffTheCalendar => 20,
        Rejection::DayRunsBack => 21,
        Rejection::FieldOutOfRange => 22,
        Rejection::AlreadyEnrolled => 23,
        Rejection::AlreadyServed => 24,
        Rejection::NothingPending => 25,
        Rejection::TooLate => 26,
        Rejection::ReadingOutOfTime => 27,
        Rejection::IndexDisagrees => 28,
        Rejection::ProtectedSupplier => 29,
        Rejection::PeriodsFull => 30,
        Rejection::UnreadableLine => 31,
        Rejection::FactorOutOfRange => 40,
        Rejection::Number(n) => n,
    }
}

// The kind that an answer line shows.
fn shown_kind(kind: Kind, answer: Answer) -> Kind
    ensures { result ≡ shown_kind kind (number answer) }
{
    match answer {
        Answer::Refused(Rejection::UnreadableLine | Rejection::Number(31)) => Kind::Unknown,
        _ => kind,
    }
}

// `;1;` for an accepted call, `;0;` for a refused one.
fn put_verdict(out: &mut [u8], at: usize, answer: Answer) -> usize
    ensures { Appended at (59 ∷ verdict (is_accepted answer) ∷ 59 ∷ []) out.old out.new result }
{
    let verdict = match answer {
        Answer::Accepted | Answer::AcceptedOn(_) => b'1',
        Answer::Refused(_) => b'0',
    };
    put_word(out, at, &[b';', verdict, b';'])
}

// The date that an answer carries, 00000000 where it carries none.
fn put_date(out: &mut [u8], at: usize, answer: Answer) -> usize
    ensures { Appended at (date_shown (date answer) []) out.old out.new result }
{
    match day_of(answer) {
        Some(day) => put_day(out, at, u64::from(day)),
        None => put_word(out, at, b"00000000"),
    }
}

// The day that an answer carries.
fn day_of(answer: Answer) -> Option<u32>
    ensures { MatchOption result (date answer ≡ none) (λ day. date answer ≡ some day) }
{
    match answer {
        Answer::AcceptedOn(day) => Some(day),
        Answer::Refused(Rejection::LastResortUnderWay(day)) => Some(day),
        _ => None,
    }
}
