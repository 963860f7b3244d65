// Pieces of an input are handed in, answer lines come out, and the session stands for the desk that the lines have
// brought it to.
#![tactic(auto)]

mod pieces;

ghost use Rattle.std.specs.Prelude.{◌≡◌};
ghost use Rattle.input_pieces.specs.Pinned.Session.{desk_of, FedBy};

use input_desk::Desk;
use input_lines::{Begun, fitting};
use input_tables::{Tables, points_of};
use line_answers::LONGEST_ANSWER;
use rules::{Register, Settings};

// The register, with its points in tables, whether it is open, and the start of the line that is under way. A flag and
// no Option: the tables stand in fixed memory before an opening too, and `Started` (input_whole) says what they hold.
#[derive(Clone, Copy)]
pub struct Session {
    pub ready: bool,
    pub settings: Settings,
    pub day: u32,
    pub contracts: [bool; 100],
    pub tables: Tables,
    pub part: Begun,
}

// The session after a piece, how many bytes of the piece were taken, and how many were written.
#[derive(Clone, Copy)]
pub struct Fed {
    pub session: Session,
    pub taken: usize,
    pub written: usize,
}

// The desk that a session stands for.
pub fn desk_of(s: Session) -> Desk
    ensures { result ≡ desk_of s }
{
    Desk {
        ready: s.ready,
        register: Register {
            settings: s.settings,
            day: s.day,
            contracts: s.contracts,
            points: points_of(&s.tables),
        },
    }
}

// Answers every line that ends in the piece, in order, and keeps the start of the next. With too little room for the
// answers it takes fewer bytes.
pub fn feed(s: Session, piece: &[u8], out: &mut [u8]) -> Fed
    ensures { FedBy s piece.now out.old out.new result }
{
    let mut session = s;
    let taken = fitting(piece, out.len() / LONGEST_ANSWER);
    let written = pieces::answer_lines(&mut session, &piece[..taken], out);
    Fed {
        session,
        taken,
        written,
    }
}
