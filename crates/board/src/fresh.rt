// A fresh board, on an image that is lent.
ghost use Rattle.std.specs.Prelude.{◌≡◌};
ghost use Rattle.rules.specs.Examples.{CheckedExamples};
ghost use Rattle.rules.specs.Promises.{Given, start};

use crate::board::Board;
use cipher::PacketCipher;
use memory::{Held, LentImage, MAP_SIZE, Supply};

impl<'a, C: PacketCipher> Board<LentImage<'a>, C> {
    // A fresh board on any image, with any two keys, and a supply without end.
    #[tactic(auto, unfolding(rules::specs::Board::fresh))]
    pub fn fresh(
        image: &'a mut [u8; MAP_SIZE],
        key: [u8; 16],
        kek: [u8; 16],
    ) -> Board<LentImage<'a>, C>
        ensures examples { CheckedExamples }
        ensures fresh { (g : Given) → g.image ≡ image.old → g.data_key_bytes ≡ key → g.kek_bytes ≡ kek → result ≡ start g }
    {
        Board::new(LentImage::over(image, Held::fresh(key, kek), Supply::NoEnd))
    }
}
