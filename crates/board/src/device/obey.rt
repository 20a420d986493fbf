// Obeying a core command that has arrived.
ghost use Rattle.std.specs.Prelude.{◌≡◌};
ghost use Rattle.rules.specs.Board.{enact, obey};
ghost use Rattle.rules.specs.Commands.{command};
ghost use Rattle.board.specs.Outcomes.{lit};
ghost use Rattle.board.specs.Sending.{obeyed};

use super::Device;
use crate::receiver::core_command::CoreCommand;
use crate::reply::Reply;
use crate::work::WORK;
use cipher::PacketCipher;
use fault::Fault;
use memory::Memory;
use rules::{Command, Session};

impl<M: Memory> Device<M> {
    // Obeys the core command. The session is over where a step is not kept.
    pub(crate) fn obey<C: PacketCipher>(
        &mut self,
        core: CoreCommand,
        work: &mut [u8; WORK],
    ) -> Result<Reply, Fault>
        ensures { obeyed self.new result ≡ enact (obey C.cipher (lit self.old) core.buffer (command core.buffer)) (lit self.old) }
    {
        match core.command() {
            Command::Data => {
                self.take_data::<C>(core, work)?;
                Ok(Reply::Done)
            }
            Command::Key => {
                self.take_key::<C>(core, work)?;
                Ok(Reply::Done)
            }
            Command::MassErase => {
                self.erase()?;
                Ok(Reply::Done)
            }
            Command::Version => Ok(Reply::Version),
            Command::Reset => {
                self.session = Session::Closed;
                Ok(Reply::Nothing)
            }
            Command::Unknown(byte) => Err(Fault::UnknownCommand(byte)),
        }
    }
}
