// Runs stored inputs through the library that `registre` is built on, each in four ways, and compares what is written
// with the stored output, byte for byte; then the documents' dated examples on the calendar's code.
//
// list.txt names the cases: NAME.in is an input, NAME.out what has to be written for it. Every difference is a line of
// its own, and so is a file that is missing or longer than the room for it.
#![tactic(auto)]

mod agreed;
mod between;
mod cases;
mod dated;
mod files;
mod tally;
mod ways;

fn main(rt: HostRuntime) {
    cases::all(&rt).report_cases(&rt);
    dated::all(&rt).report_examples(&rt);
}
