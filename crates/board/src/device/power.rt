// The power of a device: the one place where its memory's supply is set.
ghost use Rattle.std.specs.Prelude.{◌≡◌};
ghost use Rattle.memory.specs.Meaning.{with_supply};
ghost use Rattle.rules.specs.declared.Session.TheVariants.{Closed};
ghost use Rattle.board.specs.Outcomes.{works};

use super::Device;
use memory::{Powered, Supply};
use rules::Session;

impl<M: Powered> Device<M> {
    // The power comes on, with a supply; no session is left.
    pub(crate) fn power_up(&mut self, supply: Supply)
        ensures { self.new ≡ works (with_supply supply self.old.memory) Closed }
    {
        self.memory.set_supply(supply);
        self.session = Session::Closed;
    }
}
