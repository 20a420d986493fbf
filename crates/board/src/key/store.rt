// Storing a judged key, which uses the contents up.
ghost use Rattle.std.specs.Prelude.{◌≡◌, take, drop};
ghost use Rattle.memory.specs.Meaning.{Performs};
ghost use Rattle.board.specs.Keys.{key_step};

use super::JudgedKey;
use crate::work::WORK;
use fault::Fault;
use memory::{KeyRecord, Memory};

impl JudgedKey {
    // The key, which lies in the work buffer.
    fn key(&self, work: &[u8; WORK]) -> [u8; 16]
        ensures { result ≡ take 16 (drop self.now.place work.now) }
    {
        *work[self.place..].first_chunk().unwrap()
    }

    // Makes the one storing step of the packet, whose key lies in the work buffer.
    pub(crate) fn store<M: Memory>(self, memory: &mut M, work: &[u8; WORK]) -> Result<(), Fault>
        ensures { Performs (key_step self work.now) (M.meaning memory.old) (M.meaning memory.new) result }
    {
        memory.set_key(
            self.slot,
            KeyRecord {
                key: self.key(work),
                version: self.kv,
            },
        )
    }
}
