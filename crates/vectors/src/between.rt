// Document 02, F-5: working days strictly between two days, on the code that counts them by words.
use crate::tally::Tally;
use working_count::working_of;

// Two days and their count, or none where the question is refused.
const EXAMPLES: [(u64, u64, Option<u32>); 13] = [
    (7809, 7815, Some(2)), // 19 and 25 May 2021
    (7810, 7815, Some(1)), // 20 and 25 May 2021
    (7815, 7815, Some(0)), // a day and itself
    (7815, 7816, Some(0)), // a day and the next
    (8035, 8039, Some(1)), // 31 December 2021 and 4 January 2022
    (7669, 7675, Some(2)), // 30 December 2020 and 5 January 2021
    (8824, 8826, Some(1)), // 28 February and 1 March 2024
    (36_888, 36_893, Some(2)), // 30 December 2100 and 4 January 2101
    (73_041, 73_048, Some(2)), // 24 and 31 December 2199
    (0, 73_048, Some(50_455)), // the whole calendar
    (7810, 7809, None), // out of order
    (0, 73_049, None), // off the calendar
    (73_049, 73_049, None), // both of them
];

pub(crate) fn all(rt: &impl Print, t: &mut Tally) {
    for (a, b, expected) in EXAMPLES {
        let _ = print!(rt; "days {a} and {b}, ");
        t.tell(
            rt,
            "working days between them: ",
            working_of(a, b),
            expected,
        );
    }
}
