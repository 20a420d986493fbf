// What is sent: the answers of a core command that was obeyed, and what refusals show.
ghost use Rattle.std.specs.Prelude.{◌≡◌, ◌+◌, ◌≤◌, length};
ghost use Rattle.wire.specs.Frame.{over};
ghost use Rattle.rules.specs.Commands.{acknowledged};
ghost use Rattle.board.specs.Outcomes.{refused_sends};
ghost use Rattle.board.specs.Sending.{sent_of};

use fault::Fault;
use wire::frame::write_frame;

// How many bytes of the reply buffer a call needs: the longest reply is the version's.
pub(crate) const REPLY: usize = 11;

#[derive(Clone, Copy)]
pub(crate) enum Reply {
    // Nothing at all.
    Nothing,
    // One byte, the number of a refused frame.
    Number(u8),
    // What the version query is answered with.
    Version,
    // Done or taken.
    Done,
    // A packet is refused.
    Refused,
    // An unknown command.
    Unknown,
}

impl Reply {
    // What a refused byte shows. No `From`, since a refused boot question shows nothing.
    pub(crate) fn to_refusal(fault: &Fault) -> Reply
        ensures { sent_of result ≡ refused_sends fault.now }
    {
        match fault {
            Fault::Dark => Reply::Nothing,
            Fault::UnknownCommand(_) => Reply::Unknown,
            Fault::NoHeader(_) | Fault::BadChecksum(_) | Fault::NoLength | Fault::TooLong(_) =>
                Reply::Number(fault.number()),
            Fault::ReplyShort
            | Fault::WorkShort
            | Fault::ImageSize
            | Fault::DataCount
            | Fault::OutputShort
            | Fault::OutsideMap
            | Fault::BadLine
            | Fault::PacketLength(_)
            | Fault::BadIv(_)
            | Fault::NotOpened
            | Fault::BadNumber(_)
            | Fault::MayNotOpen(_)
            | Fault::OutOfTurn(_)
            | Fault::OutsideArea(_)
            | Fault::BadKeyType(_)
            | Fault::OldKey(_) => Reply::Refused,
        }
    }

    // Writes it at the front of the reply buffer, and says how many bytes it has.
    pub(crate) fn write(self, reply: &mut [u8; REPLY]) -> usize
        ensures reply { reply.new ≡ over (sent_of self) reply.old }
        ensures count { result ≡ length (sent_of self) }
        ensures bound { result ≤ 11 }
    {
        match self {
            Reply::Nothing => 0,
            Reply::Number(number) => {
                reply[0] = number;
                1
            }
            Reply::Version => acknowledge(reply, &[0x3A, 0x00, 0x58, 0x56, 0xB5]),
            Reply::Done => acknowledge(reply, &[0x3B, 0x00]),
            Reply::Refused => acknowledge(reply, &[0x3B, 0x05]),
            Reply::Unknown => acknowledge(reply, &[0x3B, 0x07]),
        }
    }
}

// Writes the byte 0x00, and the frame of a core command behind it.
fn acknowledge(reply: &mut [u8; REPLY], core: &[u8]) -> usize
    requires { (1 ≤ length core.now) × (length core.now ≤ 5) }
    ensures reply { reply.new ≡ over (acknowledged core.now) reply.old }
    ensures count { result ≡ length core.now + 6 }
{
    reply[0] = 0;
    write_frame(&mut reply[1..], core).map_or(0, |n| 1 + n)
}
