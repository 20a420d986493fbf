// The supply: how many storing steps will still be kept.
ghost use Rattle.std.specs.Prelude.{◌≡◌, if◌then◌else◌};
ghost use Rattle.fault.specs.Checks.{check};
ghost use Rattle.fault.specs.declared.Fault.TheVariants.{Dark};
ghost use Rattle.memory.specs.Supply.{lit, spent};

use fault::Fault;

// An enum of its own, since None of an Option<u32> would read as no supply.
#[derive(Clone, Copy)]
pub enum Supply {
    NoEnd,
    Steps(u32),
}

impl Supply {
    // Whether one more step will be kept.
    pub(crate) fn lit(&self) -> bool
        ensures { result ≡ lit self.now }
    {
        match *self {
            Supply::NoEnd => true,
            Supply::Steps(left) => 0 < left,
        }
    }

    // What is left after one step.
    pub(crate) fn spent(&self) -> Supply
        ensures { result ≡ spent self.now }
    {
        match *self {
            Supply::NoEnd => Supply::NoEnd,
            Supply::Steps(left) => Supply::Steps(left.saturating_sub(1)),
        }
    }

    // Takes one step off; refuses where none is left.
    pub(crate) fn spend(&mut self) -> Result<(), Fault>
        ensures after { self.new ≡ (if lit self.old then spent self.old else self.old) }
        ensures value { result ≡ check (lit self.old) Dark }
    {
        if !self.lit() {
            return Err(Fault::Dark);
        }
        *self = self.spent();
        Ok(())
    }
}
