// Lines out of an input that comes in pieces.
#![tactic(auto)]

ghost use Rattle.std.specs.Prelude.{◌≡◌, [], ◌++◌, ◌+◌, drop, position, ◌==◌};
ghost use Rattle.input_lines.specs.Between.Feeds.{until_feed, fitting as lines_fitting};
ghost use Rattle.input_lines.specs.Between.Begun.{kept_bytes, capped, kept, begun_of};

use line_text::LONGEST_LINE;
use line_text::write::put_word;

// How many bytes are kept of a line that has not ended yet: one more than a line may have is enough to know that it is
// too long.
pub const KEPT: usize = LONGEST_LINE + 1;

// The start of a line that has not ended yet: its first len bytes. A length beside an array, since memory is fixed and
// nothing is allocated.
#[derive(Clone, Copy)]
pub struct Begun {
    pub len: usize,
    pub bytes: [u8; KEPT],
}

impl Begun {
    // The bytes that it holds; a length past KEPT counts as KEPT.
    pub fn held(&self) -> &[u8]
        ensures { result.now ≡ kept self.now }
    {
        &self.bytes[..self.len.min(KEPT)]
    }

    // The start of a line, and what has come after it.
    pub fn append(&self, more: &[u8]) -> Begun
        ensures { result ≡ begun_of (capped (kept self.now ++ more.now)) }
    {
        let held = self.held();
        let added = &more[..more.len().min(KEPT - held.len())];
        let mut bytes = [0; KEPT];
        let mid = put_word(&mut bytes, 0, held);
        let end = put_word(&mut bytes, mid, added);
        Begun { len: end, bytes }
    }
}

// No line has begun.
pub fn nothing_begun() -> Begun
    ensures { result ≡ begun_of [] }
{
    Begun {
        len: 0,
        bytes: [0; KEPT],
    }
}

// Where the line ends that goes through position at: its line feed, or the end of the piece.
pub fn line_end(piece: &[u8], at: usize) -> usize
    ensures { result ≡ at + until_feed (drop at piece.now) }
{
    if piece.len() < at {
        return at;
    }
    let rest = &piece[at..];
    at + first_feed(rest).unwrap_or(rest.len())
}

// The place of the first line feed.
fn first_feed(bytes: &[u8]) -> Option<usize>
    ensures { result ≡ position (λ b. b == 10) bytes.now }
{
    bytes.iter().position(|b| *b == b'\n')
}

// How many of the first bytes have no more than n line feeds.
#[tactic(auto, using(crate::proofs::Feeds::fitting_all, crate::proofs::Feeds::fitting_over, crate::proofs::Feeds::fitting_le))]
pub fn fitting(piece: &[u8], n: usize) -> usize
    ensures { result ≡ lines_fitting n piece.now }
{
    if piece.len() <= n {
        return piece.len();
    }
    let mut left = n;
    for (i, b) in piece.iter().enumerate() {
        if *b == b'\n' {
            if left == 0 {
                return i;
            }
            left -= 1;
        }
    }
    piece.len()
}
