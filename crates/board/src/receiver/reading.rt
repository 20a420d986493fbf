// What one byte more makes of a receiver.
ghost use Rattle.std.specs.Prelude.{◌≡◌};
ghost use Rattle.rules.specs.Receiver.{read};
ghost use Rattle.board.specs.Reading.{left_by, answer_by, handed, receiver_of};

use super::core_command::CoreCommand;
use super::{Progress, Receiver};
use fault::Fault;
use wire::checksum::checksum;

impl Receiver {
    // Reads one byte more. The core command is there with the last byte of a good frame, and leaves the receiver.
    pub(crate) fn byte(&mut self, b: u8) -> Result<Option<CoreCommand>, Fault>
        ensures after { receiver_of self.new ≡ left_by (read (receiver_of self.old) b) }
        ensures value { handed result ≡ answer_by (read (receiver_of self.old) b) }
    {
        match (self.progress, b) {
            (Progress::Idle, 0x80) => self.progress = Progress::LengthLow,
            (Progress::Idle, other) => return Err(Fault::NoHeader(other)),
            (Progress::LengthLow, low) => self.progress = Progress::LengthHigh(low),
            (Progress::LengthHigh(low), high) => {
                let n = u16::from_le_bytes([low, high]);
                self.progress = Progress::Idle;
                if n == 0 {
                    return Err(Fault::NoLength);
                }
                if n > 299 {
                    return Err(Fault::TooLong(n));
                }
                self.progress = Progress::Body(n);
            }
            (Progress::Body(n), next) => {
                self.core.push(next);
                if self.core.as_slice().len() == n as usize {
                    self.progress = Progress::CheckLow;
                }
            }
            (Progress::CheckLow, low) => self.progress = Progress::CheckHigh(low),
            (Progress::CheckHigh(low), high) => {
                let sum = u16::from_le_bytes([low, high]);
                let buffer = self.core;
                self.clear();
                if sum != checksum(buffer.as_slice()) {
                    return Err(Fault::BadChecksum(sum));
                }
                return Ok(Some(CoreCommand { buffer }));
            }
        }
        Ok(None)
    }
}
