// Four columns of a state or a round key.
ghost use Rattle.std.specs.Prelude.{◌≡◌};
ghost use Rattle.cipher.specs.Bytes.{xors};
ghost use Rattle.cipher.specs.Columns.{flat};

use std::ops::BitXor;

// Each column is a word with its first byte on top.
#[derive(Clone, Copy)]
pub(crate) struct Columns {
    pub(crate) a: u32,
    pub(crate) b: u32,
    pub(crate) c: u32,
    pub(crate) d: u32,
}

impl From<&[u8; 16]> for Columns {
    ghost from_gives = { λ bytes s. flat s ≡ bytes.now };

    fn from(bytes: &[u8; 16]) -> Self {
        let [
            a0,
            a1,
            a2,
            a3,
            b0,
            b1,
            b2,
            b3,
            c0,
            c1,
            c2,
            c3,
            d0,
            d1,
            d2,
            d3,
        ] = *bytes;
        Columns {
            a: u32::from_be_bytes([a0, a1, a2, a3]),
            b: u32::from_be_bytes([b0, b1, b2, b3]),
            c: u32::from_be_bytes([c0, c1, c2, c3]),
            d: u32::from_be_bytes([d0, d1, d2, d3]),
        }
    }
}

impl From<Columns> for [u8; 16] {
    ghost from_gives = { λ s bytes. bytes ≡ flat s };

    // A column at a time: an array of single bytes is stored byte by byte, and the next load waits for all of them.
    fn from(s: Columns) -> Self {
        let mut bytes = [0; 16];
        bytes[..4].copy_from_slice(&s.a.to_be_bytes());
        bytes[4..8].copy_from_slice(&s.b.to_be_bytes());
        bytes[8..12].copy_from_slice(&s.c.to_be_bytes());
        bytes[12..].copy_from_slice(&s.d.to_be_bytes());
        bytes
    }
}

impl BitXor for Columns {
    type Output = Self;

    ghost bitxor_gives = { λ s k sum. flat sum ≡ xors (flat s) (flat k) };

    fn bitxor(self, k: Self) -> Self {
        Columns {
            a: self.a ^ k.a,
            b: self.b ^ k.b,
            c: self.c ^ k.c,
            d: self.d ^ k.d,
        }
    }
}
