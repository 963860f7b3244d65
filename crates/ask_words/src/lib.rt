// What a program's words ask for, and what is written where they get no answer.
#![tactic(auto)]

ghost use Rattle.std.specs.Prelude.{◌≡◌};
ghost use Rattle.line_text.specs.Between.Appending.{Appended};
ghost use Rattle.ask_words.specs.Asked.{number_value, date_value, any_date_value};
ghost use Rattle.ask_words.specs.Between.Whole.{whole_of};
ghost use Rattle.ask_words.specs.Asked.{by_one, by_two, by_three, by_four, asked_by, usage, unopened};

use dates::LAST_DAY;
use line_text::write::put_word;
use line_values::{date_at, number_at};

// A question to the register, with any numbers.
#[derive(Clone, Copy)]
pub enum Question {
    Holder {
        point: u64,
        day: u64,
    },
    Period {
        point: u64,
        number: u64,
    },
    Advance {
        point: u64,
    },
    View {
        supplier: u64,
        point: u64,
        number: u64,
    },
}

// What words ask for: one question to the register, all of them, or the working days between two days.
#[derive(Clone, Copy)]
pub enum Asked {
    One(Question),
    All,
    Working { first: u64, second: u64 },
}

// What count words ask for, of which these are the first four; none where they ask for nothing that there is.
#[tactic(auto, unfolding(crate::specs::Asked::asked_by))]
pub fn asked_by(
    count: usize,
    word: &[u8],
    first: &[u8],
    second: &[u8],
    third: &[u8],
) -> Option<Asked>
    ensures { result ≡ asked_by count word.now first.now second.now third.now }
{
    match count {
        1 => by_one(word),
        2 => by_two(word, first),
        3 => by_three(word, first, second),
        4 => by_four(word, first, second, third),
        _ => None,
    }
}

// What is written for words that ask nothing.
#[tactic(auto, unfolding(crate::specs::Asked::usage))]
pub fn put_usage(out: &mut [u8], at: usize) -> usize
    ensures { Appended at usage out.old out.new result }
{
    put_word(
        out,
        at,
        b"usage: ask holder P DATE | ask period P N | ask advance P | ask view S P N | ask working DATE DATE | ask all\n",
    )
}

// What is written where no register is open.
#[tactic(auto, unfolding(crate::specs::Asked::unopened))]
pub fn put_unopened(out: &mut [u8], at: usize) -> usize
    ensures { Appended at unopened out.old out.new result }
{
    put_word(out, at, b"unopened\n")
}

#[tactic(auto, using(line_values::proofs::Steps::pointwise_is), unfolding(crate::specs::Asked::by_one))]
fn by_one(word: &[u8]) -> Option<Asked>
    ensures { result ≡ by_one word.now }
{
    if word == b"all".as_slice() {
        return Some(Asked::All);
    }
    None
}

#[tactic(auto, using(line_values::proofs::Steps::pointwise_is), unfolding(crate::specs::Asked::by_two))]
fn by_two(word: &[u8], first: &[u8]) -> Option<Asked>
    ensures { result ≡ by_two word.now first.now }
{
    if word == b"advance".as_slice() {
        let point = number_value(first)?;
        return Some(Asked::One(Question::Advance { point }));
    }
    None
}

#[tactic(auto, using(line_values::proofs::Steps::pointwise_is), unfolding(crate::specs::Asked::by_three))]
fn by_three(word: &[u8], first: &[u8], second: &[u8]) -> Option<Asked>
    ensures { result ≡ by_three word.now first.now second.now }
{
    if word == b"holder".as_slice() {
        let point = number_value(first)?;
        let day = date_value(second)?;
        return Some(Asked::One(Question::Holder { point, day }));
    }
    if word == b"period".as_slice() {
        let point = number_value(first)?;
        let number = number_value(second)?;
        return Some(Asked::One(Question::Period { point, number }));
    }
    if word == b"working".as_slice() {
        let a = any_date_value(first)?;
        let b = any_date_value(second)?;
        return Some(Asked::Working {
            first: a,
            second: b,
        });
    }
    None
}

#[tactic(auto, using(line_values::proofs::Steps::pointwise_is), unfolding(crate::specs::Asked::by_four))]
fn by_four(word: &[u8], first: &[u8], second: &[u8], third: &[u8]) -> Option<Asked>
    ensures { result ≡ by_four word.now first.now second.now third.now }
{
    if word == b"view".as_slice() {
        let supplier = number_value(first)?;
        let point = number_value(second)?;
        let number = number_value(third)?;
        return Some(Asked::One(Question::View {
            supplier,
            point,
            number,
        }));
    }
    None
}

// A word that is a number, 1 to 12 digits, no leading zero but 0 itself.
#[tactic(auto, using(crate::proofs::Values::whole_value, line_values::proofs::Places::number_leaves), unfolding(crate::specs::Asked::number_value))]
fn number_value(word: &[u8]) -> Option<u64>
    ensures { result ≡ number_value word.now }
{
    whole(word.len(), number_at(word, 0))
}

// A word that is a date of the calendar, aaaammjj; its value is the day.
#[tactic(auto, using(crate::proofs::Values::whole_value, line_values::proofs::Places::day_leaves), unfolding(crate::specs::Asked::date_value))]
fn date_value(word: &[u8]) -> Option<u64>
    ensures { result ≡ date_value word.now }
{
    whole(word.len(), date_at(word, 0))
}

// A word of eight digits; its value is the day, or the first day past the calendar where it is no date of it.
#[tactic(auto, unfolding(crate::specs::Asked::any_date_value))]
fn any_date_value(word: &[u8]) -> Option<u64>
    ensures { result ≡ any_date_value word.now }
{
    if let Some(day) = date_value(word) {
        return Some(day);
    }
    if word.len() != 8 {
        return None;
    }
    number_value(word)?;
    Some(LAST_DAY as u64 + 1)
}

// What was read, where nothing follows it.
fn whole(len: usize, read: Option<(u64, usize)>) -> Option<u64>
    ensures { result ≡ whole_of len read }
{
    let (v, next) = read?;
    if next < len {
        return None;
    }
    Some(v)
}
