// The memories of the board behind one interface: the map, the held record, the supply, storing steps and their loops.
#![tactic(auto)]

mod areas;
mod held;
mod lent;
mod memory;
mod scrambler;
mod steps;
mod supply;

pub use areas::{AREAS, Area, MAP_SIZE, Range, VECTOR_HIGH, VECTOR_LOW, check_range};
pub use held::{Held, KeyRecord, KeySlot};
pub use lent::LentImage;
pub use lent::lending::{check_size, sized};
pub use memory::{Memory, Powered};
pub use scrambler::Scrambler;
pub use steps::{mass_erase, store_data};
pub use supply::Supply;
