// The kinds of message lines: one row for each, its word and the fields that stand behind it. The words are compared
// when a line is read and copied when one is written.
#![tactic(auto)]

ghost use Rattle.std.specs.Prelude.{◌≡◌};
ghost use Rattle.line_fields.specs.Between.Shapes.{shape};
ghost use Rattle.line_text.specs.Between.Appending.{Appended};
ghost use Rattle.line_kinds.specs.Kinds.{shape_of, word as kinds_word};
ghost use Rattle.line_kinds.specs.Pinned.Naming.{kind_in, kind_named};

use line_fields::Shape;
use line_text::write::put_word;

// The kind of a line, named by the word it begins with; Unknown is printed for a line that is unreadable.
#[derive(Clone, Copy)]
pub enum Kind {
    Set,
    Ctr,
    Def,
    Enr,
    Demmespc,
    I,
    Demcf,
    Adc,
    Ri,
    Cdt,
    Demmhs,
    Sus,
    Jour,
    Unknown,
}

// A kind's word, and the fields behind it.
#[derive(Clone, Copy)]
pub struct KindRow {
    pub word: &'static [u8],
    pub shape: Shape,
}

// The row of each kind: its word, how many fields stand behind it, and which of them is a date beside today, the first;
// 0 where none is.
pub fn row_of(kind: Kind) -> KindRow
    ensures word { result.word.now ≡ kinds_word kind }
    ensures shape { result.shape ≡ shape_of kind }
{
    match kind {
        Kind::Set => row(b"set", 6, 0),
        Kind::Ctr => row(b"ctr", 2, 0),
        Kind::Def => row(b"def", 2, 0),
        Kind::Enr => row(b"enr", 7, 0),
        Kind::Demmespc => row(b"demmespc", 4, 0),
        Kind::I => row(b"i", 3, 0),
        Kind::Demcf => row(b"demcf", 5, 4),
        Kind::Adc => row(b"adc", 3, 0),
        Kind::Ri => row(b"ri", 5, 2),
        Kind::Cdt => row(b"cdt", 9, 0),
        Kind::Demmhs => row(b"demmhs", 2, 0),
        Kind::Sus => row(b"sus", 3, 0),
        Kind::Jour => row(b"jour", 1, 0),
        Kind::Unknown => row(b"?", 0, 0),
    }
}

fn row(word: &'static [u8], count: usize, second: usize) -> KindRow
    ensures word { result.word.now ≡ word.now }
    ensures shape { result.shape ≡ shape count second }
{
    KindRow {
        word,
        shape: Shape { count, second },
    }
}

// The kind that a word names: only a word of the same length can be it.
pub fn kind_named(w: &[u8]) -> Kind
    ensures { result ≡ kind_named w.now }
{
    match w.len() {
        1 => kind_among(w, &[Kind::I]),
        2 => kind_among(w, &[Kind::Ri]),
        3 => kind_among(
            w,
            &[
                Kind::Set,
                Kind::Ctr,
                Kind::Def,
                Kind::Enr,
                Kind::Adc,
                Kind::Cdt,
                Kind::Sus,
            ],
        ),
        4 => kind_among(w, &[Kind::Jour]),
        5 => kind_among(w, &[Kind::Demcf]),
        6 => kind_among(w, &[Kind::Demmhs]),
        8 => kind_among(w, &[Kind::Demmespc]),
        _ => Kind::Unknown,
    }
}

// The first of these kinds that has this word.
fn kind_among(w: &[u8], kinds: &[Kind]) -> Kind
    ensures { result ≡ kind_in kinds.now w.now }
{
    for &kind in kinds {
        if w == row_of(kind).word {
            return kind;
        }
    }
    Kind::Unknown
}

// Puts the word of a kind.
pub fn put_kind(out: &mut [u8], at: usize, kind: Kind) -> usize
    ensures { Appended at (kinds_word kind) out.old out.new result }
{
    put_word(out, at, row_of(kind).word)
}
