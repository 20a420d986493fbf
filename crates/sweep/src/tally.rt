// What was said at the cuts, counted, with the first step and the last at which it was said.
ghost use Rattle.std.specs.Prelude.{◌≡◌};
ghost use Rattle.sweep.specs.Tallies.{noted, tallied, said_never, said_nothing};

use fault::Fault;
use rules::Boot;

// At how many cuts something was said, and at which step first and last; 0 where it never was.
#[derive(Clone, Copy)]
pub struct Said {
    pub count: u32,
    pub first: u32,
    pub last: u32,
}

impl Said {
    pub fn never() -> Said
        ensures { result ≡ said_never }
    {
        Said {
            count: 0,
            first: 0,
            last: 0,
        }
    }

    // It was said at one step more.
    pub fn note(&mut self, step: u32)
        ensures { self.new ≡ noted step self.old }
    {
        if self.count == 0 {
            self.first = step;
        }
        self.last = step;
        self.count = self.count.saturating_add(1);
    }
}

// Each answer to a boot question.
#[derive(Clone, Copy)]
pub struct Tally {
    pub application: Said,
    pub blank: Said,
    pub unfinished: Said,
    pub refused: Said,
}

impl Tally {
    pub fn empty() -> Tally
        ensures { result ≡ said_nothing }
    {
        Tally {
            application: Said::never(),
            blank: Said::never(),
            unfinished: Said::never(),
            refused: Said::never(),
        }
    }

    // What was said at a step; none where the question was refused.
    pub fn note(&mut self, said: Option<Boot>, step: u32)
        ensures { self.new ≡ tallied said step self.old }
    {
        match said {
            Some(Boot::Application) => self.application.note(step),
            Some(Boot::Blank) => self.blank.note(step),
            Some(Boot::Unfinished) => self.unfinished.note(step),
            None => self.refused.note(step),
        }
    }
}
