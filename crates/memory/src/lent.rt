// An image that the caller lends, with a held record and a supply beside it.
ghost use Rattle.std.specs.Prelude.{◌≡◌, length};

use crate::areas::MAP_SIZE;
use crate::held::Held;
use crate::supply::Supply;

pub mod lending;

#[derive(Drop)]
pub struct LentImage<'a> {
    image: &'a mut [u8; MAP_SIZE],
    held: Held,
    supply: Supply,
    // The image is as long as the map.
    ghost long: { length image.now ≡ 61056 },
}
