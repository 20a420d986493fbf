// All that stands in a memory on an image, kept aside.
ghost use Rattle.std.specs.Prelude.{◌≡◌, IfOk, length};
ghost use Rattle.memory.specs.declared.supply.Supply.TheVariants.{NoEnd};

use memory::{Held, MAP_SIZE, Supply};
use std::alloc::{AllocError, Global};

// The image as it is kept, the held record and the supply.
#[derive(Drop)]
pub struct Snapshot {
    pub image: Vec<u8>,
    pub held: Held,
    pub supply: Supply,
    ghost long: { length image.items ≡ 61056 },
}

impl Snapshot {
    // Room for one.
    pub fn new(heap: Global) -> Result<Snapshot, AllocError>
        ensures { IfOk result (λ s. s.supply ≡ NoEnd) }
    {
        Ok(Snapshot {
            image: vec![in heap; 0u8; MAP_SIZE]?,
            held: Held::fresh([0; 16], [0; 16]),
            supply: Supply::NoEnd,
        })
    }
}
