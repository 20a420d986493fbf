// Taking a packet that has arrived: what it leaves and answers is what the rules' machine says.
ghost use Rattle.std.specs.Prelude.{◌≡◌};
ghost use Rattle.memory.specs.Held.{slot_place};
ghost use Rattle.rules.specs.Board.{enact, judge_data, judge_key, on_data, on_key};
ghost use Rattle.rules.specs.Memory.{key_record};
ghost use Rattle.board.specs.Outcomes.{lit, packet_outcome};

use super::Device;
use crate::data::Opened;
use crate::key::OpenedKey;
use crate::receiver::core_command::CoreCommand;
use crate::sealed::{SealedData, SealedKey};
use crate::work::WORK;
use cipher::PacketCipher;
use fault::Fault;
use memory::{Held, KeySlot, Memory};
use rules::Session;

// The key that a slot holds.
fn key_of(held: &Held, slot: KeySlot) -> [u8; 16]
    ensures { result ≡ (key_record held.now (slot_place slot)).key }
{
    held.keys[slot.place()].key
}

impl<M: Memory> Device<M> {
    // Takes a data packet, its core command given. The session is over unless all steps are kept.
    pub(super) fn take_data<C: PacketCipher>(
        &mut self,
        core: CoreCommand,
        work: &mut [u8; WORK],
    ) -> Result<(), Fault>
        ensures { packet_outcome self.new result ≡ enact (on_data (judge_data C.cipher (lit self.old) core.buffer)) (lit self.old) }
    {
        let sealed = SealedData::of(core)?;
        let held = self.memory.record();
        let key = key_of(&held, KeySlot::Data);
        let opened = Opened::open::<C>(sealed, &key, work)?;
        let judged = opened.judge(&self.session, &held)?;
        self.session = Session::Closed;
        let stored = judged.store(&mut self.memory, work)?;
        self.session = stored.session();
        Ok(())
    }

    // Takes a key packet, its core command given. The session stays, unless the step is not kept. Not one function with `take_data`: a
    // trait over both would repeat each step of both, whose checks ask for other things, to share five lines.
    pub(super) fn take_key<C: PacketCipher>(
        &mut self,
        core: CoreCommand,
        work: &mut [u8; WORK],
    ) -> Result<(), Fault>
        ensures { packet_outcome self.new result ≡ enact (on_key (judge_key C.cipher (lit self.old) core.buffer)) (lit self.old) }
    {
        let sealed = SealedKey::of(core)?;
        let held = self.memory.record();
        let key = key_of(&held, KeySlot::Kek);
        let opened = OpenedKey::open::<C>(sealed, &key, work)?;
        let judged = opened.judge(&held)?;
        let current = self.session;
        self.session = Session::Closed;
        judged.store(&mut self.memory, work)?;
        self.session = current;
        Ok(())
    }
}
