// The dated examples of the documents that need no register, on the calendar's code. Those that do are the cases in
// dated/.
use crate::between;
use crate::tally::Tally;
use dates::day_of;
use holidays::{easter_day, working_days};

pub(crate) fn all(rt: &impl Print) -> Tally {
    let mut t = Tally::default();
    leap_days(rt, &mut t);
    moving_days(rt, &mut t);
    three_months(rt, &mut t);
    days_to_cancel(rt, &mut t);
    ninths_of_may(rt, &mut t);
    between::all(rt, &mut t);
    t
}

// 29 February 2020 is 7,364; there is no 29 February 2100.
fn leap_days(rt: &impl Print, t: &mut Tally) {
    t.tell(
        rt,
        "day of 29 February 2020: ",
        day_of(2020, 2, 29),
        Some(7364),
    );
    t.tell(
        rt,
        "day of 28 February 2100: ",
        day_of(2100, 2, 28),
        Some(36_583),
    );
    t.tell(rt, "day of 29 February 2100: ", day_of(2100, 2, 29), None);
}

// Easter 2021 is 4 April, day 7,764. In 2008 Ascension is 1 May.
fn moving_days(rt: &impl Print, t: &mut Tally) {
    t.tell(rt, "day of 4 April 2021: ", day_of(2021, 4, 4), Some(7764));
    t.tell(rt, "day of Easter 2021: ", easter_day(2021), Some(7764));
    let ascension = easter_day(2008).map(|easter| easter.wrapping_add(39));
    t.tell(rt, "day of Ascension 2008: ", ascension, day_of(2008, 5, 1));
}

// 1 June 2021 is 7,822; 1 September, three months after it, is 7,914. Three months after 30 November 2021 is
// 28 February 2022.
fn three_months(rt: &impl Print, t: &mut Tally) {
    let june = day_of(2021, 6, 1);
    let november = day_of(2021, 11, 30);
    t.tell(rt, "day of 1 June 2021: ", june, Some(7822));
    t.tell(
        rt,
        "day of 1 September 2021: ",
        day_of(2021, 9, 1),
        Some(7914),
    );
    t.tell(
        rt,
        "three months after 1 June 2021: ",
        three_months_after(june),
        Some(7914),
    );
    let february = day_of(2022, 2, 28);
    t.tell(
        rt,
        "three months after 30 November 2021: ",
        three_months_after(november),
        february,
    );
}

// Before 25 May 2021 two working days lie after 19 May, and fewer after 20 May, as 24 May is Whit Monday.
fn days_to_cancel(rt: &impl Print, t: &mut Tally) {
    let last = day_of(2021, 5, 24);
    let early = worked(day_of(2021, 5, 20), last);
    let late = worked(day_of(2021, 5, 21), last);
    t.tell(
        rt,
        "working days after 19 May and before 25 May 2021: ",
        early,
        Some(2),
    );
    t.tell(
        rt,
        "working days after 20 May and before 25 May 2021: ",
        late,
        Some(1),
    );
}

// Document 02, F-2: 9 May is a holiday from 2019 on; in 2013 it is Ascension.
fn ninths_of_may(rt: &impl Print, t: &mut Tally) {
    t.tell(
        rt,
        "working days on 9 May 2013: ",
        ninth_of_may(2013),
        Some(0),
    );
    t.tell(
        rt,
        "working days on 9 May 2016: ",
        ninth_of_may(2016),
        Some(1),
    );
    t.tell(
        rt,
        "working days on 9 May 2018: ",
        ninth_of_may(2018),
        Some(1),
    );
    t.tell(
        rt,
        "working days on 9 May 2019: ",
        ninth_of_may(2019),
        Some(0),
    );
}

fn ninth_of_may(year: u64) -> Option<u32> {
    let day = day_of(year, 5, 9);
    worked(day, day)
}

// The working days from a first to a last day, both counted.
fn worked(first: Option<u32>, last: Option<u32>) -> Option<u32> {
    Some(working_days(u64::from(first?), u64::from(last?)))
}

fn three_months_after(day: Option<u32>) -> Option<u32> {
    day.map(|n| dates::three_months_after(u64::from(n)))
}
