// Counts working days between two days that lie so many days apart, again and again, by the years' words or by the walk
// day by day, and prints the sum of the counts: `count_bench words DAYS TIMES`, `count_bench walk DAYS TIMES`.
// bench/working times it.
#![tactic(auto)]

ghost use Rattle.std.specs.Prelude.{◌<◌, ◌≤◌};

use dates::LAST_DAY;
use holidays::working_days;
use line_values::number_at;
use std::rt::Env;
use working_count::working_between;

fn main(rt: HostRuntime) {
    let mut word = [0u8; 8];
    let len = rt.arg(1, &mut word).unwrap_or(0);
    let way = &word[..len];
    let days = number(&rt, 2);
    let times = number(&rt, 3);
    if !(1..=u64::from(LAST_DAY)).contains(&days) {
        return tell_usage(&rt);
    }
    if way == b"words".as_slice() {
        tell(&rt, total(working_between, days, times));
    } else if way == b"walk".as_slice() {
        tell(&rt, total(by_walk, days, times));
    } else {
        tell_usage(&rt);
    }
}

// The number that a word is; 0 where it is none, where the word is missing or longer than the room for it.
fn number(rt: &impl Env, i: usize) -> u64 {
    let mut word = [0u8; 16];
    let len = rt.arg(i, &mut word).unwrap_or(0);
    number_at(&word[..len], 0).map_or(0, |found| found.0)
}

fn tell(rt: &impl Print, sum: u64) {
    let _ = println!(rt; "{sum}");
}

fn tell_usage(rt: &impl Eprint) {
    let _ = rt.eprintln("usage: count_bench words DAYS TIMES | count_bench walk DAYS TIMES");
}

// So many counts, added up: they begin on all days in turn. Each counts the working days strictly between two days.
fn total<F: Fn(u64, u64) -> u32>(count: F, days: u64, times: u64) -> u64
    requires days { (1 ≤ days) × (days ≤ 73048) }
    requires counts { (a b : _) → a < b → F.pre count a b }
{
    let first_days = LAST_DAY as u64 + 1 - days;
    let mut sum: u64 = 0;
    for i in 0..times {
        let a = i % first_days;
        sum = sum.wrapping_add(u64::from(count(a, a + days)));
    }
    sum
}

fn by_walk(a: u64, b: u64) -> u32
    requires { a < b }
{
    working_days(a + 1, b - 1)
}
