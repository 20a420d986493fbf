// A receiver that waits for a frame.
ghost use Rattle.std.specs.Prelude.{◌≡◌};
ghost use Rattle.rules.specs.Receiver.Receiver.{idle};
ghost use Rattle.board.specs.Reading.{receiver_of};
ghost use Rattle.board.specs.Whole.{receiver_whole};

use super::{Progress, Receiver};
use buffer::Buffer;

impl Receiver {
    pub(crate) fn idle() -> Receiver
        ensures idle { receiver_of result ≡ idle }
        ensures whole { receiver_whole result ≡ result }
    {
        Receiver {
            progress: Progress::Idle,
            core: Buffer::new(),
        }
    }

    // Makes it idle, as a silence does.
    pub(crate) fn clear(&mut self)
        ensures { receiver_of self.new ≡ idle }
    {
        *self = Receiver::idle();
    }
}
