// What a message is answered, and what it changes, before and after the register is opened (specs/Desk).
#![tactic(auto)]

ghost use Rattle.std.specs.Prelude.{◌≡◌};
ghost use Rattle.input_desk.specs.Pinned.Desk.{desk_after};

use line_messages::Message;
use point_checks::is_accepted;
use register::{apply, open};
use rules::Register;

// The register, once a set has opened it; before that the register is not looked at. A flag and not an Option, since
// `start_desk` and `desk_after`, under the theorem `every_desk` (input_whole), say the register of an unopened one too.
#[derive(Clone, Copy)]
pub struct Desk {
    pub ready: bool,
    pub register: Register,
}

// The desk after a message.
pub fn after(d: Desk, m: Message) -> Desk
    ensures { result ≡ desk_after d m }
{
    match m {
        Message::Open(o) => {
            if d.ready {
                return d;
            }
            let x = open(d.register, o);
            let opened = is_accepted(x.answer);
            Desk {
                ready: opened,
                register: x.register,
            }
        }
        Message::Ask(c) => {
            if !d.ready {
                return d;
            }
            Desk {
                ready: true,
                register: apply(d.register, c).register,
            }
        }
        Message::Unreadable => d,
    }
}
