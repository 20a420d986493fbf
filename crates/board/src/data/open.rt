// Opening a data packet, which uses it up.
ghost use Rattle.std.specs.Prelude.{◌≡◌, length};
ghost use Rattle.rules.specs.Board.{fields};
ghost use Rattle.board.specs.Opening.{with_work, opened_by};
ghost use Rattle.board.specs.States.{packet_in, packet_with};

use super::Opened;
use crate::contents::Contents;
use crate::sealed::SealedData;
use crate::work::WORK;
use cipher::PacketCipher;
use fault::Fault;

impl Opened {
    // The fields of contents, and where their data lie.
    fn read(contents: Contents) -> Opened
        ensures fields { packet_with result contents.entry.bytes ≡ contents.entry }
        ensures place { result.place ≡ 10 }
        ensures count { result.count ≡ length contents.entry.bytes }
    {
        let data = contents.data();
        Opened {
            ver: contents.ver(),
            pn: contents.pn(),
            np: contents.np(),
            address: contents.address(),
            place: data.place,
            count: data.bytes.len(),
        }
    }

    // Opens the packet into the work buffer, and reads its fields there.
    pub(crate) fn open<C: PacketCipher>(
        sealed: SealedData,
        key: &[u8; 16],
        work: &mut [u8; WORK],
    ) -> Result<Opened, Fault>
        ensures { with_work packet_in work.new result ≡ opened_by C.cipher fields key.now sealed.core.buffer }
    {
        let n = sealed.open::<C>(key, work)?;
        Ok(Opened::read(Contents::over(&work[..n])))
    }
}
