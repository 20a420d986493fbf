// The fields, each read where it lies.
ghost use Rattle.std.specs.Prelude.{◌≡◌, ◌+◌, ◌≤◌, length};

use super::{Contents, Part};

#[tactic(auto, unfolding(rules::specs::Board::fields, rules::specs::Board::word))]
impl<'a> Contents<'a> {
    pub(crate) fn ver(&self) -> u8
        ensures { result ≡ self.now.ver }
    {
        self.bytes[0]
    }

    pub(crate) fn pn(&self) -> u16
        ensures { result ≡ self.now.pn }
    {
        u16::from_le_bytes([self.bytes[1], self.bytes[2]])
    }

    pub(crate) fn np(&self) -> u16
        ensures { result ≡ self.now.np }
    {
        u16::from_le_bytes([self.bytes[3], self.bytes[4]])
    }

    pub(crate) fn address(&self) -> u32
        ensures { result ≡ self.now.address }
    {
        u32::from_le_bytes([self.bytes[7], self.bytes[8], self.bytes[9], 0])
    }

    pub(crate) fn data(&self) -> Part<'a>
        ensures bytes { result.bytes.now ≡ self.now.bytes }
        ensures place { result.place ≡ 10 }
        ensures within { result.place + length result.bytes.now ≤ 266 }
    {
        Part {
            bytes: &self.bytes[10..],
            place: 10,
        }
    }
}
