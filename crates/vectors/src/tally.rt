// What comparing came to, counted and printed.
use crate::agreed::Agreed;
use std::fmt;

// How many were compared, how many differences there are, how many bytes of input and of output were compared, and how
// often the rest of a piece was handed in again.
#[derive(Clone, Copy, Default)]
pub(crate) struct Tally {
    compared: u64,
    different: u64,
    input: u64,
    output: u64,
    again: u64,
}

impl Tally {
    // One more was compared.
    pub(crate) fn count(&mut self, input: usize, output: usize) {
        self.compared = self.compared.wrapping_add(1);
        self.input = self.input.wrapping_add(input as u64);
        self.output = self.output.wrapping_add(output as u64);
    }

    fn count_difference(&mut self) {
        self.different = self.different.wrapping_add(1);
    }

    // A file that cannot be compared.
    pub(crate) fn unread(&mut self, rt: &impl Print, name: &[u8], ending: &[u8]) {
        let _ = rt.write_all(name);
        let _ = rt.write_all(ending);
        let _ = print!(rt; ": missing, or longer than the room for it\n");
        self.count_difference();
    }

    // What one way of running a case came to: a difference is printed where it is found.
    pub(crate) fn judge(&mut self, rt: &impl Print, name: &[u8], way: &str, a: Agreed<'_>) {
        self.again = self.again.wrapping_add(a.again());
        if let Err(same) = a.at_end() {
            let _ = rt.write_all(name);
            let byte = (same as u64).wrapping_add(1);
            let _ = println!(rt; "{way}: differs at byte {byte}");
            self.count_difference();
        }
    }

    // What the code says, where a document gives a number; another one is printed beside it.
    pub(crate) fn tell(
        &mut self,
        rt: &impl Print,
        what: &str,
        n: Option<u32>,
        expected: Option<u32>,
    ) {
        self.count(0, 0);
        if n == expected {
            let _ = println!(rt; "{what}{}", Told(n));
        } else {
            let _ = println!(rt; "{what}{}, and by the document {}", Told(n), Told(expected));
            self.count_difference();
        }
    }

    pub(crate) fn report_cases(&self, rt: &impl Print) {
        let _ = println!(rt;
            "{} cases ({} bytes of input, {} of output), 4 ways each: {} differences",
            self.compared, self.input, self.output, self.different
        );
        let _ = println!(rt;
            "the rest of a piece was handed in again {} times",
            self.again
        );
    }

    pub(crate) fn report_examples(&self, rt: &impl Print) {
        let _ = println!(rt;
            "{} dated examples of the calendar: {} differences",
            self.compared, self.different
        );
    }
}

// A number, or that there is none.
#[derive(Clone, Copy)]
struct Told(Option<u32>);

impl fmt::Display for Told {
    fn fmt<W: fmt::Write>(&self, f: &mut fmt::Formatter<W>) -> fmt::Result {
        match self.0 {
            Some(n) => write!(f, "{n}"),
            None => write!(f, "none"),
        }
    }
}
