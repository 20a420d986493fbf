// The four calls of a board. Each leaves and answers what the rules' step says.
ghost use Rattle.std.specs.Prelude.{◌≡◌, ◌≤◌, false, length};
ghost use Rattle.wire.specs.Frame.{over};
ghost use Rattle.rules.specs.Board.{quiet, step};
ghost use Rattle.rules.specs.declared.Event.TheVariants.{Byte, Silence, Question, PowerUp};
ghost use Rattle.board.specs.Outcomes.{went_dark};
ghost use Rattle.board.specs.Answers.{boot_answer, byte_answer, call_of, plain_answer};
ghost use Rattle.board.specs.Buffers.{power_checked, work_after};
ghost use Rattle.board.specs.Sending.{on_byte, outcome_of, replied};
ghost use Rattle.board.specs.Wiped.{zeros};

use crate::answer::ByteAnswer;
use crate::board::Board;
use crate::reply::{REPLY, Reply};
use crate::work::{Guard, WORK};
use cipher::PacketCipher;
use fault::Fault;
use memory::{Memory, Powered, Supply};
use rules::Boot;

// Whether a call went dark.
fn went_dark(done: &Result<Reply, Fault>) -> bool
    ensures { result ≡ went_dark done.now }
{
    matches!(done, Err(Fault::Dark))
}

// Writes what is sent into the reply buffer.
fn answered(done: Result<Reply, Fault>, reply: &mut [u8; REPLY]) -> ByteAnswer
    ensures answer { byte_answer result reply.new ≡ replied done }
    ensures reply { reply.new ≡ over (replied done).sent reply.old }
    ensures bound { result.sent ≤ 11 }
{
    match done {
        Ok(what) => ByteAnswer {
            refusal: None,
            sent: what.write(reply),
        },
        Err(fault) => ByteAnswer {
            refusal: Some(fault),
            sent: Reply::to_refusal(&fault).write(reply),
        },
    }
}

impl<M: Memory, C: PacketCipher> Board<M, C> {
    // A board that is not dark reads a byte.
    fn hear(&mut self, byte: u8, work: &mut [u8; WORK]) -> Result<Reply, Fault>
        requires { self.old.dark ≡ false }
        ensures { outcome_of self.new result ≡ on_byte C.cipher self.old byte }
    {
        match self.receiver.byte(byte)? {
            None => Ok(Reply::Nothing),
            Some(core) => self.device.obey::<C>(core, work),
        }
    }

    // A byte arrives, with buffers that are long enough. Refuses on a dark board.
    fn take_byte(&mut self, byte: u8, work: &mut [u8; WORK], reply: &mut [u8; REPLY]) -> ByteAnswer
        ensures call { call_of self.new (byte_answer result reply.new) ≡ step C.cipher self.old (Byte byte 11 266) }
        ensures reply { reply.new ≡ over (step C.cipher self.old (Byte byte 11 266)).answer.sent reply.old }
        ensures work { work.new ≡ zeros }
        ensures bound { result.sent ≤ 11 }
    {
        let guard = Guard { bytes: work };
        if self.dark {
            return ByteAnswer::refused(Fault::Dark);
        }
        let done = self.hear(byte, guard.bytes);
        self.dark = went_dark(&done);
        answered(done, reply)
    }

    // A byte arrives. Refuses a reply buffer under 11 bytes, then a work buffer under 266, then on a dark board.
    pub fn byte(&mut self, byte: u8, work: &mut [u8], reply: &mut [u8]) -> ByteAnswer
        ensures call { call_of self.new (byte_answer result reply.new) ≡ step C.cipher self.old (Byte byte (length reply.old) (length work.old)) }
        ensures reply { reply.new ≡ over (step C.cipher self.old (Byte byte (length reply.old) (length work.old))).answer.sent reply.old }
        ensures work { work.new ≡ work_after (length reply.old) work.old }
        ensures bound { (result.sent ≤ 11) × (result.sent ≤ length reply.old) }
    {
        let Some(reply) = reply.first_chunk_mut::<REPLY>() else {
            return ByteAnswer::refused(Fault::ReplyShort);
        };
        let Some(work) = work.first_chunk_mut::<WORK>() else {
            return ByteAnswer::refused(Fault::WorkShort);
        };
        self.take_byte(byte, work, reply)
    }

    // Refuses on a dark board.
    fn check_power(&self) -> Result<(), Fault>
        ensures { result ≡ power_checked self.now.dark }
    {
        if self.dark {
            return Err(Fault::Dark);
        }
        Ok(())
    }

    // The wire falls silent.
    pub fn silence(&mut self) -> Result<(), Fault>
        ensures { call_of self.new (plain_answer result) ≡ step C.cipher self.old Silence }
    {
        self.check_power()?;
        self.receiver.clear();
        Ok(())
    }

    // The boot question.
    pub fn boot(&mut self) -> Result<Boot, Fault>
        ensures { call_of self.new (boot_answer result) ≡ step C.cipher self.old Question }
    {
        self.check_power()?;
        Ok(self.device.boot())
    }
}

impl<M: Powered, C: PacketCipher> Board<M, C> {
    // The power comes on, with a supply.
    pub fn power_up(&mut self, supply: Supply)
        ensures { call_of self.new quiet ≡ step C.cipher self.old (PowerUp supply) }
    {
        self.device.power_up(supply);
        self.receiver.clear();
        self.dark = false;
    }
}
