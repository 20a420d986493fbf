// The memories that are swept: the lent image, and the scrambler over it.
ghost use Rattle.std.specs.Prelude.{◌≡◌, ℕ, List, Some, IfOk, OnOk};
ghost use Rattle.memory.specs.Scrambled.{clear};
ghost use Rattle.sweep.specs.Alike.{alike_clear};
ghost use Rattle.sweep.specs.Kinds.{kind_text, same, snapshot_meaning};

use crate::snapshot::Snapshot;
use anyhow::anyhow;
use memory::{LentImage, Memory, Powered, Scrambler};
use std::fmt;

// The first address of the map.
const FIRST: u32 = 0x1800;

// The byte that the scrambler scrambles with.
pub(crate) const FIXED: u8 = 0x5A;

#[derive(Clone, Copy)]
pub enum Kind {
    Lent,
    Scrambled,
}

impl fmt::Display for Kind {
    ghost output = { λ kind. Some (kind_text kind) };

    fn fmt<W: fmt::Write>(&self, f: &mut fmt::Formatter<W>) -> fmt::Result {
        f.write_str(match self {
            Kind::Lent => "the lent image",
            Kind::Scrambled => "the scrambler",
        })
    }
}

// A memory on an image, which can be saved to a snapshot and restored from one.
pub(crate) trait Kept: Powered + Drop {
    // The clear bytes of an image that it keeps.
    ghost clear: { List ℕ → List ℕ };

    // Two images are the same in each byte as they are kept exactly where they are the same when they are clear.
    ghost alike: { (xs ys : List ℕ) → same (clear xs) (clear ys) ≡ same xs ys };

    const KIND: Kind;

    // The memory with what stands in a snapshot.
    fn restored(self, from: &Snapshot) -> Self
        ensures { Self.Memory.meaning result ≡ snapshot_meaning clear from.now };

    // Saves what stands in the memory, which stays as it is.
    fn saved(self, to: &mut Snapshot) -> anyhow::Result<Self>
        ensures stays { IfOk result (λ m. Self.Memory.meaning m ≡ Self.Memory.meaning self) }
        ensures saved { OnOk result (snapshot_meaning clear to.new ≡ Self.Memory.meaning self) };
}

impl<'a> Kept for LentImage<'a> {
    ghost use Rattle.std.specs.Prelude.{refl};

    ghost clear = { λ xs. xs };

    ghost alike = { λ xs ys. refl };

    const KIND: Kind = Kind::Lent;

    fn restored(self, from: &Snapshot) -> LentImage<'a> {
        let (image, _, _) = self.into_parts();
        image.copy_from_slice(&from.image);
        LentImage::over(image, from.held, from.supply)
    }

    fn saved(self, to: &mut Snapshot) -> anyhow::Result<LentImage<'a>> {
        let (image, held, supply) = self.into_parts();
        to.image.copy_from_slice(image.as_slice());
        to.held = held;
        to.supply = supply;
        Ok(LentImage::over(image, held, supply))
    }
}

impl<'a> Kept for Scrambler<LentImage<'a>> {
    ghost clear = { clear 0x5A };

    ghost alike = { alike_clear 0x5A };

    const KIND: Kind = Kind::Scrambled;

    fn restored(self, from: &Snapshot) -> Scrambler<LentImage<'a>> {
        Scrambler::over(self.into_below().restored(from), FIXED)
    }

    // No contract of a memory says that a scrambler's fixed byte is still the one that it was made with. The first byte of the image, read through
    // the scrambler and read below it, shows that it is.
    fn saved(mut self, to: &mut Snapshot) -> anyhow::Result<Scrambler<LentImage<'a>>> {
        let first = self.read(FIRST)?;
        let below = self.into_below().saved(to)?;
        if to.image[0] ^ first != FIXED {
            return Err(anyhow!("the scrambler scrambles with another byte"));
        }
        Ok(Scrambler::over(below, FIXED))
    }
}
