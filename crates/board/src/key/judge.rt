// Judging the contents of a key packet: the key's type and version.
ghost use Rattle.std.specs.Prelude.{◌≡◌, ℕ, List};
ghost use Rattle.board.specs.Judging.{judge_key_by};
ghost use Rattle.board.specs.Keys.{key_in, key_step, steps_of};
ghost use Rattle.board.specs.Opening.{with_work};

use super::{JudgedKey, OpenedKey};
use fault::Fault;
use memory::{Held, KeySlot};

impl OpenedKey {
    // Both checks of the fields, whatever the key is; the contents are used up, and come out judged.
    pub(crate) fn judge(self, held: &Held) -> Result<JudgedKey, Fault>
        ensures { (work : List ℕ) → with_work key_step work result ≡ steps_of (judge_key_by held.now (key_in self work)) }
    {
        let slot = KeySlot::try_from(self.kt)?;
        let old = held.keys[slot.place()];
        if self.kv <= old.version {
            return Err(Fault::OldKey(self.kv));
        }
        Ok(JudgedKey {
            slot,
            kv: self.kv,
            place: self.place,
        })
    }
}
