// The parts of an answer, and answers made from what the calls return.
ghost use Rattle.std.specs.Prelude.{◌≡◌, ◌≤◌, length};
ghost use Rattle.board.specs.Answers.{boot_answer, byte_answer, plain_answer, refused_byte};

use super::{Answer, ByteAnswer};
use crate::reply::REPLY;
use buffer::Buffer;
use fault::Fault;
use rules::Boot;

impl ByteAnswer {
    // A refusal that sends nothing.
    pub(crate) fn refused(fault: Fault) -> ByteAnswer
        ensures { result ≡ refused_byte fault }
    {
        ByteAnswer {
            refusal: Some(fault),
            sent: 0,
        }
    }
}

impl Answer {
    pub fn refusal(&self) -> Option<Fault>
        ensures { result ≡ self.now.refusal }
    {
        self.refusal
    }

    pub fn boot(&self) -> Option<Boot>
        ensures { result ≡ self.now.said }
    {
        self.boot
    }

    pub fn sent(&self) -> &[u8]
        ensures bytes { result.now ≡ self.now.sent }
        ensures bound { length result.now ≤ 11 }
    {
        self.sent.as_slice()
    }

    // Of a byte call, with the reply buffer that it left.
    pub(crate) fn of_byte(answer: ByteAnswer, reply: &[u8; REPLY]) -> Answer
        ensures { result ≡ byte_answer answer reply.now }
    {
        Answer {
            refusal: answer.refusal,
            sent: Buffer::front(reply, answer.sent),
            boot: None,
        }
    }

    // Of a call that sends and says nothing.
    pub(crate) fn plain(answer: Result<(), Fault>) -> Answer
        ensures { result ≡ plain_answer answer }
    {
        Answer {
            refusal: answer.err(),
            sent: Buffer::new(),
            boot: None,
        }
    }

    // Of a boot question.
    pub(crate) fn of_boot(answer: Result<Boot, Fault>) -> Answer
        ensures { result ≡ boot_answer answer }
    {
        match answer {
            Ok(boot) => Answer {
                refusal: None,
                sent: Buffer::new(),
                boot: Some(boot),
            },
            Err(fault) => Answer::plain(Err(fault)),
        }
    }
}
