// Whether what is written, piece by piece, is what has to be written.

#[derive(Clone, Copy)]
pub(crate) struct Agreed<'a> {
    expected: &'a [u8],
    // What has still to be written; as an error, what has not been where something else was. Nothing further is
    // compared behind that.
    left: Result<&'a [u8], &'a [u8]>,
    // How often the rest of a piece was handed in again.
    again: u64,
}

impl<'a> Agreed<'a> {
    // Before anything is written.
    pub(crate) fn nothing_yet(expected: &'a [u8]) -> Agreed<'a> {
        Agreed {
            expected,
            left: Ok(expected),
            again: 0,
        }
    }

    // A text more is written.
    pub(crate) fn then(&mut self, text: &[u8]) {
        let Ok(left) = self.left else {
            return;
        };
        let same = left.iter().zip(text).take_while(|(a, b)| a == b).count();
        let rest = left.get(same..).unwrap_or(&[]);
        self.left = if same == text.len() {
            Ok(rest)
        } else {
            Err(rest)
        };
    }

    // From here on it is not the same.
    pub(crate) fn fail(&mut self) {
        if let Ok(left) = self.left {
            self.left = Err(left);
        }
    }

    // Of a piece so many bytes are left to be handed in again.
    pub(crate) fn hand_in_again(&mut self, n: usize) {
        if n > 0 {
            self.again = self.again.wrapping_add(1);
        }
    }

    pub(crate) fn again(&self) -> u64 {
        self.again
    }

    // Nothing more is written: nothing may be missing. Where it is not the same, how many bytes are.
    pub(crate) fn at_end(&self) -> Result<(), usize> {
        match self.left {
            Ok([]) => Ok(()),
            Ok(left) | Err(left) => Err(self.expected.len().wrapping_sub(left.len())),
        }
    }
}
