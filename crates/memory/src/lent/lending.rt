// Lending an image, and the memory on it.
ghost use Rattle.std.specs.Prelude.{◌≡◌, length, is_some, IfSome, ◌==◌};
ghost use Rattle.std.specs.Borrow.{sem, Array, LendsIf, u8};
ghost use Rattle.fault.specs.Checks.{check};
ghost use Rattle.fault.specs.declared.Fault.TheVariants.{ImageSize};
ghost use Rattle.memory.specs.Areas.{map_size};
ghost use Rattle.memory.specs.Lent.{lent_long, lent_meaning, lent_whole, meaning_of};

use super::LentImage;
use crate::areas::{MAP_SIZE, place_of};
use crate::held::{Held, KeyRecord, KeySlot};
use crate::memory::{Memory, Powered};
use crate::supply::Supply;
use fault::Fault;

// Where the two bytes of the reset vector stand in the image.
const LOW_PLACE: usize = 44670;

const HIGH_PLACE: usize = 44671;

// Refuses an image that is not as long as the map, before it is lent.
pub fn check_size(image: &[u8]) -> Result<(), Fault>
    ensures { result ≡ check (length image.now == map_size) ImageSize }
{
    if image.len() != MAP_SIZE {
        return Err(Fault::ImageSize);
    }
    Ok(())
}

// The image as an array, to be lent whole; none where `check_size` refuses it. It is unchanged then.
pub fn sized(image: &mut [u8]) -> Option<&mut [u8; MAP_SIZE]>
    ensures* rests { sem 𝓛 (LendsIf (Array u8 0) (Array u8 0) image.entry result (λ left. left) image.old) }
    ensures size { is_some result ≡ (length image.old == map_size) }
    ensures value { IfSome result (λ whole. whole.now ≡ image.old) }
{
    image.as_mut_array()
}

impl<'a> LentImage<'a> {
    // A memory on an image, with a held record and a supply.
    pub fn over(image: &'a mut [u8; MAP_SIZE], held: Held, supply: Supply) -> LentImage<'a>
        ensures meaning { lent_meaning result ≡ meaning_of image.old held supply }
        ensures whole { lent_whole result ≡ result }
        ensures reference { result.image.ghost_name ≡ image.entry.ghost_name }
    {
        LentImage {
            image,
            held,
            supply,
        }
    }

    // Takes the memory apart: the image that was lent, the held record and the supply.
    pub fn into_parts(self) -> (&'a mut [u8; MAP_SIZE], Held, Supply)
        ensures meaning { meaning_of result.0.now result.1 result.2 ≡ lent_meaning self.entry }
        ensures reference { result.0.ghost_name ≡ self.entry.image.ghost_name }
    {
        (self.image, self.held, self.supply)
    }
}

// No helper for the storing steps: each changes another part and spends one step itself.
impl Memory for LentImage<'_> {
    ghost meaning = { lent_meaning };

    ghost long = { lent_long };

    fn read(&mut self, address: u32) -> Result<u8, Fault> {
        let p = place_of(address).ok_or(Fault::OutsideMap)?;
        Ok(self.image[p])
    }

    fn record(&mut self) -> Held {
        self.held
    }

    fn store(&mut self, address: u32, value: u8) -> Result<(), Fault> {
        let p = place_of(address).ok_or(Fault::OutsideMap)?;
        self.supply.spend()?;
        self.image[p] = value;
        Ok(())
    }

    fn set_vector(&mut self, low: u8, high: u8) -> Result<(), Fault> {
        self.supply.spend()?;
        self.image[LOW_PLACE] = low;
        self.image[HIGH_PLACE] = high;
        Ok(())
    }

    fn set_version(&mut self, number: u8, unfinished: bool) -> Result<(), Fault> {
        self.supply.spend()?;
        self.held.version = number;
        self.held.unfinished = unfinished;
        Ok(())
    }

    fn set_key(&mut self, slot: KeySlot, record: KeyRecord) -> Result<(), Fault> {
        self.supply.spend()?;
        self.held.put_key(slot, record);
        Ok(())
    }
}

impl Powered for LentImage<'_> {
    fn supply(&mut self) -> Supply {
        self.supply
    }

    fn set_supply(&mut self, supply: Supply) {
        self.supply = supply;
    }
}
