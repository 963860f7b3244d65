// Compares the calendar's code with outside data, walks all its days and dates both ways, and holds the count of
// working days by words against the walk.
//
// easter.txt has Easter Sunday of the years 2000 to 2199, luxembourg-holidays.txt the legal holidays of those years,
// each a date aaaammjj to a line. Every difference is a line of its own, before the count of what was compared.
#![tactic(auto)]

mod compare;
mod counts;
mod tally;
mod text;
mod walk;

use std::fs;
use std::rt::Files;
use stored_files::read_full;
use tally::Tally;

fn main(rt: HostRuntime) {
    easter_sundays(&rt);
    holidays(&rt);
    report(&rt, "days to dates and back: ", walk::days(&rt));
    report(&rt, "dates to days and back: ", walk::dates(&rt));
    working_days(&rt);
}

fn working_days(rt: &impl Print) {
    let from_first = counts::from_the_first_day(rt);
    report(rt, "working days from the first day on: ", from_first);
    report(rt, "working days within 21 days: ", counts::of_21_days(rt));
    let years = counts::of_up_to_three_years(rt);
    report(rt, "working days within up to three years: ", years);
}

fn report(rt: &impl Print, label: &str, t: Tally) {
    let _ = println!(rt; "{label}{t}");
}

// A file to be read; one that cannot be is named on standard error.
fn opened<R: Files + Eprint>(rt: &R, path: &str) -> Option<R::File> {
    match fs::open(rt, path) {
        Ok(file) => Some(file),
        Err(e) => {
            let _ = eprintln!(rt; "{path}: {e}");
            None
        }
    }
}

fn easter_sundays(rt: &(impl Files + Print + Eprint)) {
    let Some(mut file) = opened(rt, "easter.txt") else {
        return;
    };
    let mut list = [0u8; 65536];
    let n = read_full(&mut file, &mut list);
    report(
        rt,
        "Easter Sundays: ",
        compare::easter_sundays(rt, &list[..n]),
    );
}

fn holidays(rt: &(impl Files + Print + Eprint)) {
    let Some(mut file) = opened(rt, "luxembourg-holidays.txt") else {
        return;
    };
    let mut list = [0u8; 65536];
    let n = read_full(&mut file, &mut list);
    let listed = compare::holidays_of_the_file(rt, &list[..n]);
    report(rt, "holidays of the file: ", listed);
    let found = compare::holidays_of_the_code(rt, &list[..n]);
    report(rt, "holidays of the code: ", found);
}
