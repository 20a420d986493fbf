// How many cuts were made, and how many of them booted a half program.
ghost use Rattle.std.specs.Prelude.{◌≡◌};
ghost use Rattle.sweep.specs.Counts.{both};

#[derive(Clone, Copy)]
pub struct Counts {
    pub cuts: u32,
    pub half: u32,
}

impl Counts {
    // Those of two sweeps.
    pub fn and(self, more: Counts) -> Counts
        ensures { result ≡ both self more }
    {
        Counts {
            cuts: self.cuts.saturating_add(more.cuts),
            half: self.half.saturating_add(more.half),
        }
    }
}
