// A scrambler over any memory: each byte below is kept XOR (its address mod 256) XOR one fixed byte.
ghost use Rattle.std.specs.Prelude.{◌≡◌};
ghost use Rattle.memory.specs.Scrambled.{clear_long, clear_meaning, mask, scrambler_whole};

use crate::areas::{VECTOR_HIGH, VECTOR_LOW};
use crate::held::{Held, KeyRecord, KeySlot};
use crate::memory::{Memory, Powered};
use crate::supply::Supply;
use fault::Fault;

// What the byte at an address is XORed with.
fn mask_at(fixed: u8, address: u32) -> u8
    ensures { result ≡ mask fixed address }
{
    (address % 256) as u8 ^ fixed
}

#[derive(Drop)]
pub struct Scrambler<M: Memory> {
    below: M,
    fixed: u8,
}

impl<M: Memory> Scrambler<M> {
    // A scrambler over a memory, whose fixed byte stays the same.
    pub fn over(below: M, fixed: u8) -> Scrambler<M>
        ensures below { result.below ≡ below }
        ensures fixed { result.fixed ≡ fixed }
        ensures whole { scrambler_whole result ≡ result }
    {
        Scrambler { below, fixed }
    }

    // The memory below, which keeps the scrambled bytes.
    pub fn into_below(self) -> M
        ensures { result ≡ self.below }
    {
        self.below
    }
}

impl<M: Memory> Memory for Scrambler<M> {
    ghost meaning = { λ s. clear_meaning s.fixed (M.Memory.meaning s.below) };

    ghost long = { λ s. clear_long s.fixed (M.Memory.meaning s.below) (M.Memory.long s.below) };

    fn read(&mut self, address: u32) -> Result<u8, Fault> {
        let kept = self.below.read(address)?;
        Ok(kept ^ mask_at(self.fixed, address))
    }

    fn record(&mut self) -> Held {
        self.below.record()
    }

    fn store(&mut self, address: u32, value: u8) -> Result<(), Fault> {
        let kept = value ^ mask_at(self.fixed, address);
        self.below.store(address, kept)
    }

    fn set_vector(&mut self, low: u8, high: u8) -> Result<(), Fault> {
        let kept_low = low ^ mask_at(self.fixed, VECTOR_LOW);
        let kept_high = high ^ mask_at(self.fixed, VECTOR_HIGH);
        self.below.set_vector(kept_low, kept_high)
    }

    fn set_version(&mut self, number: u8, unfinished: bool) -> Result<(), Fault> {
        self.below.set_version(number, unfinished)
    }

    fn set_key(&mut self, slot: KeySlot, record: KeyRecord) -> Result<(), Fault> {
        self.below.set_key(slot, record)
    }
}

impl<M: Powered> Powered for Scrambler<M> {
    fn supply(&mut self) -> Supply {
        self.below.supply()
    }

    fn set_supply(&mut self, supply: Supply) {
        self.below.set_supply(supply);
    }
}
