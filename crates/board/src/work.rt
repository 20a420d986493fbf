// A guard over the work buffer: wipes it when it goes out of scope, on every way out.
ghost use Rattle.std.specs.Prelude.{◌≡◌};
ghost use Rattle.board.specs.Wiped.{zeros};

// How many bytes of the work buffer a call needs.
pub(crate) const WORK: usize = 266;

pub(crate) struct Guard<'a> {
    pub(crate) bytes: &'a mut [u8; WORK],
}

#[tactic(auto, unfolding(crate::specs::Wiped::zeros))]
impl Drop for Guard<'_> {
    fn drop(self)
        ensures { self.exit.0.now ≡ zeros }
    {
        self.bytes.fill(0);
        let Guard { bytes: _ } = self;
    }
}
