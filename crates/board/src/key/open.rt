// Opening a key packet, which uses it up.
ghost use Rattle.std.specs.Prelude.{◌≡◌, length};
ghost use Rattle.rules.specs.Board.{key_fields};
ghost use Rattle.board.specs.Keys.{key_in};
ghost use Rattle.board.specs.Opening.{with_work, opened_by};

use super::OpenedKey;
use crate::sealed::SealedKey;
use crate::work::WORK;
use cipher::PacketCipher;
use fault::Fault;

impl OpenedKey {
    // Opens the packet into the work buffer, and reads its fields there.
    pub(crate) fn open<C: PacketCipher>(
        sealed: SealedKey,
        key: &[u8; 16],
        work: &mut [u8; WORK],
    ) -> Result<OpenedKey, Fault>
        ensures { with_work key_in work.new result ≡ opened_by C.cipher key_fields key.now sealed.core.buffer }
    {
        sealed.open::<C>(key, work)?;
        Ok(OpenedKey {
            kt: work[0],
            kv: work[1],
            place: 2,
        })
    }
}
