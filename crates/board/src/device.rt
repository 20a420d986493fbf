// What a board works on while it obeys: its memory, and its session.
ghost use Rattle.std.specs.Prelude.{◌≡◌};
ghost use Rattle.rules.specs.Board.{boot};
ghost use Rattle.rules.specs.declared.Session.TheVariants.{Closed};
ghost use Rattle.board.specs.Outcomes.{works};

use crate::boot::boot_of;
use memory::Memory;
use rules::{Boot, Session};
use std::marker::Model;

mod erase;
mod obey;
mod power;
mod take;

#[derive(Drop)]
pub(crate) struct Device<M: Memory> {
    memory: M,
    session: Session,
}

impl<M: Memory> Model for Device<M> {
    ghost use Rattle.board.specs.Outcomes.{Working, works};

    ghost Value = { Working };

    ghost view = { λ d. works (M.meaning d.memory) d.session };
}

impl<M: Memory> Device<M> {
    // A memory, with no session.
    pub(crate) fn new(memory: M) -> Device<M>
        ensures { result ≡ works (M.Memory.meaning memory) Closed }
    {
        Device {
            memory,
            session: Session::Closed,
        }
    }

    // What a boot question finds.
    pub(crate) fn boot(&mut self) -> Boot
        ensures same { self.new ≡ self.old }
        ensures value { result ≡ boot self.old.memory.contents }
    {
        boot_of(&mut self.memory)
    }

    // The memory, taken out.
    pub(crate) fn into_memory(self) -> M
        ensures { M.Memory.meaning result ≡ self.memory }
    {
        self.memory
    }
}
