// A mass erase, which ends the session.
ghost use Rattle.std.specs.Prelude.{◌≡◌};
ghost use Rattle.rules.specs.Board.{enact};
ghost use Rattle.rules.specs.Board.Deed.{erases};
ghost use Rattle.board.specs.Outcomes.{lit, packet_outcome};

use super::Device;
use fault::Fault;
use memory::{Memory, mass_erase};
use rules::Session;

impl<M: Memory> Device<M> {
    pub(super) fn erase(&mut self) -> Result<(), Fault>
        ensures { packet_outcome self.new result ≡ enact erases (lit self.old) }
    {
        self.session = Session::Closed;
        mass_erase(&mut self.memory)
    }
}
