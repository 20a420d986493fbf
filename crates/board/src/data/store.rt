// Storing judged contents, which uses them up.
ghost use Rattle.std.specs.Prelude.{◌≡◌, ℕ, List, IfOk};
ghost use Rattle.memory.specs.Meaning.{Performs};
ghost use Rattle.rules.specs.Board.{closing_steps, data_steps, opening_steps, session_after};
ghost use Rattle.board.specs.Outcomes.{done};
ghost use Rattle.board.specs.States.{judged_in, packet_with, stored_packet};

use super::{Judged, Opened, Stored};
use crate::work::WORK;
use fault::Fault;
use memory::{Memory, store_data};
use rules::Session;

impl Opened {
    // The first step of a first packet.
    fn open_update<M: Memory>(&self, memory: &mut M) -> Result<(), Fault>
        ensures { (bs : List ℕ) → Performs (opening_steps (packet_with self.now bs)) (M.meaning memory.old) (M.meaning memory.new) result }
    {
        if self.pn == 1 {
            return memory.set_version(self.ver, true);
        }
        Ok(())
    }

    // The last step of a last packet. Not one function with `open_update`: condition and mark would be its parameters, and no line be saved.
    fn close_update<M: Memory>(&self, memory: &mut M) -> Result<(), Fault>
        ensures { (bs : List ℕ) → Performs (closing_steps (packet_with self.now bs)) (M.meaning memory.old) (M.meaning memory.new) result }
    {
        if self.pn == self.np {
            return memory.set_version(self.ver, false);
        }
        Ok(())
    }
}

impl Judged {
    // Makes the storing steps of the packet, whose data lie in the work buffer. Memory and work buffer stay two parameters: the one is the board's,
    // the other its caller's.
    fn make_steps<M: Memory>(&self, memory: &mut M, work: &[u8; WORK]) -> Result<(), Fault>
        ensures { Performs (data_steps (judged_in self.now work.now)) (M.meaning memory.old) (M.meaning memory.new) result }
    {
        let opened = &self.opened;
        let end = opened.place + opened.count;
        opened.open_update(memory)?;
        store_data(memory, opened.address, &work[opened.place..end])?;
        opened.close_update(memory)
    }

    // Stores the packet.
    pub(crate) fn store<M: Memory>(self, memory: &mut M, work: &[u8; WORK]) -> Result<Stored, Fault>
        ensures steps { Performs (data_steps (judged_in self work.now)) (M.meaning memory.old) (M.meaning memory.new) (done result) }
        ensures stored { IfOk result (λ s. (s.pn ≡ self.opened.pn) × (s.np ≡ self.opened.np)) }
    {
        self.make_steps(memory, work)?;
        Ok(Stored {
            pn: self.opened.pn,
            np: self.opened.np,
        })
    }
}

impl Stored {
    // The session after the packet.
    pub(crate) fn session(self) -> Session
        ensures { result ≡ session_after (stored_packet self) }
    {
        if self.pn == self.np {
            Session::Closed
        } else {
            Session::Expects(self.pn + 1, self.np)
        }
    }
}
