// What comparing came to, counted and printed.
use std::fmt;
use std::ops::RangeInclusive;

// What comparing one item came to; one that is no case of what is compared counts as nothing.
#[derive(Clone, Copy)]
pub(crate) enum Outcome {
    Same,
    Different,
    Nothing,
}

impl Outcome {
    // A difference is printed where it is found, as a label and a number.
    pub(crate) fn of(rt: &impl Print, is_same: bool, label: &str, n: u64) -> Outcome {
        if is_same {
            return Outcome::Same;
        }
        let _ = println!(rt; "{label}{n}");
        Outcome::Different
    }
}

#[derive(Clone, Copy, Default)]
pub(crate) struct Tally {
    pub compared: u64,
    pub different: u64,
}

impl Tally {
    // What comparing at each of some days or numbers comes to.
    pub(crate) fn over<F: FnMut(u64) -> Outcome>(
        range: RangeInclusive<u64>,
        mut compare: F,
    ) -> Tally
        requires { F.IsAlwaysCallable compare }
    {
        let mut t = Tally::default();
        for n in range {
            t.count(compare(n));
        }
        t
    }

    pub(crate) fn count(&mut self, o: Outcome) {
        match o {
            Outcome::Same => self.compared = self.compared.wrapping_add(1),
            Outcome::Different => {
                self.compared = self.compared.wrapping_add(1);
                self.different = self.different.wrapping_add(1);
            }
            Outcome::Nothing => (),
        }
    }
}

// How many were compared and how many of them differ.
impl fmt::Display for Tally {
    fn fmt<W: fmt::Write>(&self, f: &mut fmt::Formatter<W>) -> fmt::Result {
        write!(
            f,
            "{} compared, {} different",
            self.compared, self.different
        )
    }
}
