// A board: a memory and a session, a receiver and a power state, with the packet cipher as a type. It means a state of the rules.
ghost use Rattle.std.specs.Prelude.{◌≡◌};
ghost use Rattle.rules.specs.declared.Session.TheVariants.{Closed};
ghost use Rattle.rules.specs.Promises.{Given, start};
ghost use Rattle.board.specs.Outcomes.{lit_board};
ghost use Rattle.board.specs.State.{fresh_memory, memory_of};

use crate::device::Device;
use crate::receiver::Receiver;
use cipher::PacketCipher;
use memory::Memory;
use std::marker::{Model, PhantomData};

#[derive(Drop)]
pub struct Board<M: Memory, C: PacketCipher> {
    pub(crate) device: Device<M>,
    pub(crate) receiver: Receiver,
    // Whether the power is gone; memory and receiver keep their values.
    pub(crate) dark: bool,
    pub(crate) cipher: PhantomData<C>,
}

impl<M: Memory, C: PacketCipher> Model for Board<M, C> {
    ghost use Rattle.rules.specs.Board.{State};
    ghost use Rattle.board.specs.Reading.{receiver_of};
    ghost use Rattle.board.specs.State.{board_of};

    ghost Value = { State };

    ghost view = { λ b. board_of b.device (receiver_of b.receiver) b.dark };
}

impl<M: Memory, C: PacketCipher> Board<M, C> {
    // A board over a memory, with an idle receiver and no session. It is a fresh board if the memory is a fresh board's, with any image and any two keys.
    pub fn new(memory: M) -> Board<M, C>
        ensures state { result ≡ lit_board (M.Memory.meaning memory) Closed }
        ensures fresh { (g : Given) → M.Memory.meaning memory ≡ fresh_memory g → result ≡ start g }
    {
        Board {
            device: Device::new(memory),
            receiver: Receiver::idle(),
            dark: false,
            cipher: PhantomData,
        }
    }

    // The memory, taken out of the board as the calls left it.
    pub fn into_memory(self) -> M
        ensures { M.Memory.meaning result ≡ memory_of self }
    {
        self.device.into_memory()
    }
}
