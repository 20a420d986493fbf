// A core command that has arrived. Only the receiver makes one, and it moves: what opens it or obeys it uses it up.
ghost use Rattle.std.specs.Prelude.{◌≡◌, ◌<◌, ◌≤◌, length};
ghost use Rattle.rules.specs.Commands.{alone, command};

use buffer::Buffer;
use rules::Command;

#[derive(Drop)]
pub(crate) struct CoreCommand {
    pub(super) buffer: Buffer<299>,
    ghost sized: { (0 < length buffer) × (length buffer ≤ 299) },
}

// The command of a byte with nothing behind it.
fn alone(byte: u8) -> Command
    ensures { result ≡ alone byte }
{
    match byte {
        0x15 => Command::MassErase,
        0x19 => Command::Version,
        0x25 => Command::Reset,
        _ => Command::Unknown(byte),
    }
}

impl CoreCommand {
    ghost use Rattle.board.specs.Whole.{core_whole};

    // Its bytes, of which there are 1 to 299; it has no other field.
    pub(crate) fn bytes(&self) -> &[u8]
        ensures bytes { result.now ≡ self.now.buffer }
        ensures sized { (0 < length self.now.buffer) × (length self.now.buffer ≤ 299) }
        ensures whole { core_whole self.now ≡ self.now }
    {
        self.buffer.as_slice()
    }

    pub(crate) fn command(&self) -> Command
        ensures { result ≡ command self.now.buffer }
    {
        match self.bytes() {
            [] => Command::Unknown(0),
            [0x30, ..] => Command::Data,
            [0x31, ..] => Command::Key,
            [byte] => alone(*byte),
            [byte, ..] => Command::Unknown(*byte),
        }
    }
}
