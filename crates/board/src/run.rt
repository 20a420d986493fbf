// Runs of calls.
ghost use Rattle.std.specs.Prelude.{◌≡◌, vec_items};
ghost use Rattle.rules.specs.Board.{step};
ghost use Rattle.board.specs.Answers.{call_of};
ghost use Rattle.board.specs.Running.{Ran};

use crate::answer::Answer;
use crate::board::Board;
use crate::reply::REPLY;
use crate::work::WORK;
use cipher::PacketCipher;
use memory::Powered;
use rules::Event;
use std::alloc::{AllocError, Global};

impl<M: Powered, C: PacketCipher> Board<M, C> {
    // One call, with buffers of the lengths that the event names, cut to what any call needs.
    fn call(&mut self, event: Event, work: &mut [u8; WORK], reply: &mut [u8; REPLY]) -> Answer
        ensures { call_of self.new result ≡ step C.cipher self.old event }
    {
        match event {
            Event::Byte(byte, reply_length, work_length) => {
                let n = reply_length.min(REPLY);
                let k = work_length.min(WORK);
                let answer = self.byte(byte, &mut work[..k], &mut reply[..n]);
                Answer::of_byte(answer, reply)
            }
            Event::Silence => Answer::plain(self.silence()),
            Event::Question => Answer::of_boot(self.boot()),
            Event::PowerUp(supply) => {
                self.power_up(supply);
                Answer::plain(Ok(()))
            }
        }
    }

    // Makes the calls of a list, each with what it is given. Without memory for the answers nothing happens.
    pub fn run(&mut self, heap: Global, events: &[Event]) -> Result<Vec<Answer>, AllocError>
        ensures { Ran vec_items C.cipher self.old events.now self.new result }
    {
        let mut answers = Vec::with_capacity(heap, events.len())?;
        let mut work = [0; WORK];
        let mut reply = [0; REPLY];
        for event in events {
            let answer = self.call(*event, &mut work, &mut reply);
            answers.push_reserved(answer);
        }
        Ok(answers)
    }
}
