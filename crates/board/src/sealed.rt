// A sealed packet of either kind: a core command that has arrived, which opening uses up.
ghost use Rattle.std.specs.Prelude.{◌≡◌, ◌+◌, ◌≤◌, length, take, IfOk};
ghost use Rattle.rules.specs.Packets.{body_of, iv_of};
ghost use Rattle.board.specs.Judging.{sized};
ghost use Rattle.board.specs.Opening.{with_work, opened_by};
ghost use Rattle.board.specs.Outcomes.{done};

use crate::receiver::core_command::CoreCommand;
use crate::work::WORK;
use cipher::PacketCipher;
use fault::Fault;

// A packet whose length its kind allows.
#[derive(Drop)]
pub(crate) struct Sealed<const LEAST: usize, const MOST: usize> {
    core: CoreCommand,
    ghost sized: { (LEAST ≤ length core.buffer) × (length core.buffer ≤ MOST) },
}

pub(crate) type SealedData = Sealed<44, 299>;

pub(crate) type SealedKey = Sealed<51, 51>;

// The IV of a packet, and its body.
fn parts(core: &CoreCommand) -> (&[u8; 16], &[u8])
    requires { 17 ≤ length core.now.buffer }
    ensures iv { result.0.now ≡ iv_of core.now.buffer }
    ensures body { result.1.now ≡ body_of core.now.buffer }
{
    core.bytes()[1..].split_first_chunk().unwrap()
}

impl<const LEAST: usize, const MOST: usize> Sealed<LEAST, MOST> {
    // The packet in a core command; refused where the kind has no such length.
    pub(crate) fn of(core: CoreCommand) -> Result<Sealed<LEAST, MOST>, Fault>
        ensures value { done result ≡ sized LEAST MOST core.buffer }
        ensures same { IfOk result (λ s. s.core.buffer ≡ core.buffer) }
    {
        let length = core.bytes().len();
        if !(LEAST..=MOST).contains(&length) {
            return Err(Fault::PacketLength(length as u16));
        }
        Ok(Sealed { core })
    }

    // Opens the packet into the work buffer, and says how many bytes its contents have.
    pub(crate) fn open<C: PacketCipher>(
        self,
        key: &[u8; 16],
        work: &mut [u8; WORK],
    ) -> Result<usize, Fault>
        requires { 17 ≤ LEAST }
        ensures value { with_work take work.new result ≡ opened_by C.cipher (λ c. c) key.now self.entry.core.buffer }
        ensures long { IfOk result (λ n. n + 33 ≡ length self.entry.core.buffer) }
    {
        let (iv, body) = parts(&self.core);
        C::open(key, iv, body, work)
    }
}
