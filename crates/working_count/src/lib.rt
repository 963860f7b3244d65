// Working days between two days, counted by the ones under masks of the years' words; and the question that tells it.
#![tactic(auto)]

ghost use Rattle.std.specs.Prelude.{◌≡◌, ◌-◌, ◌≤◌, ◌<◌};
ghost use Rattle.std.specs.Int.Bits.{bit_and};
ghost use Rattle.std.specs.Int.Count.{ones};
ghost use Rattle.dates.specs.Between.Years.{InYear};
ghost use Rattle.holidays.specs.Working.{working_from, working_between};
ghost use Rattle.year_words.specs.Bits.{mask as bits_mask};
ghost use Rattle.working_count.specs.Question.{working_answer};
ghost use Rattle.working_count.specs.Between.Parts.{Counted};

use dates::{CalendarYear, LAST_DAY};

// How many working days lie strictly between two days of the calendar, the first not after the second.
#[tactic(auto, unfolding(crate::specs::Question::working_answer))]
pub fn working_of(a: u64, b: u64) -> Option<u32>
    ensures { result ≡ working_answer a b }
{
    if b < a || u64::from(LAST_DAY) < b {
        return None;
    }
    Some(working_between(a, b))
}

// The working days strictly between two days, whatever the two.
#[tactic(auto, using(holidays::proofs::Counting::between_none), unfolding(holidays::specs::Working::working_between))]
pub fn working_between(a: u64, b: u64) -> u32
    ensures { result ≡ working_between a b }
{
    if b <= a {
        return 0;
    }
    count(a + 1, b)
}

// The working days from a first day to the day before an end. The loop goes on by parts of its own finding, which no
// range of the library does.
#[tactic(auto, using(crate::proofs::Counting::most, crate::proofs::Counting::part_step, crate::proofs::Counting::none_left))]
fn count(first: u64, end: u64) -> u32
    ensures { result ≡ working_from first (end - first) }
{
    let mut sum: u32 = 0;
    let mut d = first;
    while d < end {
        let p = next_part(d, end);
        sum += p.count;
        d = p.next;
    }
    sum
}

// Some of the days from d on: the day after them, and how many of them are working days.
#[derive(Clone, Copy)]
struct Part {
    next: u64,
    count: u32,
}

// The next part of a count; past the calendar, where no day is worked, all that is left.
#[tactic(auto, using(dates::proofs::InYear::year_past, crate::proofs::Counting::rest_past))]
fn next_part(d: u64, end: u64) -> Part
    requires { d < end }
    ensures { Counted d end result.next result.count }
{
    match dates::year_of(d) {
        Some(y) => part_in(y, d, end),
        None => Part {
            next: end,
            count: 0,
        },
    }
}

// The days of a year from d to the end of its word, of the year or of the count, whichever comes first.
#[tactic(auto, using(crate::proofs::Parts::word_in))]
fn part_in(y: CalendarYear, d: u64, end: u64) -> Part
    requires { InYear d y × (d < end) }
    ensures { Counted d end result.next result.count }
{
    let i = d - u64::from(y.start);
    let lo = i % 64;
    let first = d - lo;
    let hi = (end.min(u64::from(y.end)) - first).min(64);
    let words = year_words::words(y.index);
    let word = words[(i / 64) as usize];
    Part {
        next: first + hi,
        count: ones_under(word, lo as u32, hi as u32),
    }
}

// The ones among the bits lo to hi - 1 of a word.
fn ones_under(word: u64, lo: u32, hi: u32) -> u32
    requires { (lo < hi) × (hi ≤ 64) }
    ensures { (result ≡ ones (bit_and word (bits_mask lo hi))) × (result ≤ 64) }
{
    (word & mask(lo, hi)).count_ones()
}

// The bits lo to hi - 1.
#[tactic(auto, using(crate::proofs::Masks::some, crate::proofs::Masks::less, crate::proofs::Masks::mask_is))]
fn mask(lo: u32, hi: u32) -> u64
    requires { (lo < hi) × (hi ≤ 64) }
    ensures { result ≡ bits_mask lo hi }
{
    let below_hi = u64::MAX >> (64 - hi);
    let below_lo = (1u64 << lo) - 1;
    below_hi - below_lo
}
