// The interface of a memory, and above it that of a memory with its power.
ghost use Rattle.std.specs.Prelude.{◌≡◌, length};
ghost use Rattle.memory.specs.Areas.{map_size};
ghost use Rattle.memory.specs.Meaning.{Makes, Meaning, read_of, with_supply};
ghost use Rattle.memory.specs.Meaning.Step.{store, set_vector, set_version, set_key};

use crate::held::{Held, KeyRecord, KeySlot};
use crate::supply::Supply;
use fault::Fault;

// A memory to read from and to store to. Whoever has no more than this can neither ask for the supply nor set it: that a step was not kept,
// by the refusal 3, is all that it learns of the power.
pub trait Memory {
    ghost meaning: { Self → Meaning };

    // Each memory owes that its image is as long as the map.
    ghost long: { (m : Self) → length (meaning m).contents.image ≡ map_size };

    // Neither of these two changes what the memory means.
    fn read(&mut self, address: u32) -> Result<u8, Fault>
        ensures same { meaning self.new ≡ meaning self.old }
        ensures value { result ≡ read_of (meaning self.old).contents address };

    fn record(&mut self) -> Held
        ensures same { meaning self.new ≡ meaning self.old }
        ensures value { result ≡ (meaning self.old).contents.held };

    // A storing step: one byte.
    fn store(&mut self, address: u32, value: u8) -> Result<(), Fault>
        ensures { Makes (store address value) (meaning self.old) (meaning self.new) result };

    // A storing step: both bytes of the reset vector.
    fn set_vector(&mut self, low: u8, high: u8) -> Result<(), Fault>
        ensures { Makes (set_vector low high) (meaning self.old) (meaning self.new) result };

    // A storing step: version and mark together; two parameters, since a version stands without a mark everywhere but in the held record.
    fn set_version(&mut self, number: u8, unfinished: bool) -> Result<(), Fault>
        ensures { Makes (set_version number unfinished) (meaning self.old) (meaning self.new) result };

    // A storing step: one key with its version.
    fn set_key(&mut self, slot: KeySlot, record: KeyRecord) -> Result<(), Fault>
        ensures { Makes (set_key slot «record») (meaning self.old) (meaning self.new) result };
}

// A memory whose supply can be asked for and set: for the power-up, and for tests and tools that cut the power. On a device it has no calls
// at all, since there the supply is the power itself, which no code reads.
pub trait Powered: Memory {
    fn supply(&mut self) -> Supply
        ensures same { Self.Memory.meaning self.new ≡ Self.Memory.meaning self.old }
        ensures value { result ≡ (Self.Memory.meaning self.old).supply };

    fn set_supply(&mut self, supply: Supply)
        ensures after { Self.Memory.meaning self.new ≡ with_supply supply (Self.Memory.meaning self.old) };
}
