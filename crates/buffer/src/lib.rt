// A buffer of N bytes in one array, of which the first are in use, up to 65,535 of them: their count takes two bytes, as a board is
// small. Contracts see the bytes in use. Not the library's `arrayvec`, which is not Copy, as answers and frames are, and counts in a usize.
#![tactic(auto)]

ghost use Rattle.std.specs.Prelude.{◌≡◌, ◌≤◌, [], ◌∷◌, ◌++◌, length, take};
ghost use Rattle.buffer.specs.Padded.{room};

use std::marker::Model;

#[derive(Clone, Copy)]
pub struct Buffer<const N: usize> {
    bytes: [u8; N],
    count: u16,
}

impl<const N: usize> Model for Buffer<N> {
    ghost use Rattle.std.specs.Prelude.{ℕ, List, length, take};
    ghost use Rattle.buffer.specs.Padded.{Padded, padding};

    ghost Value = { List ℕ };

    ghost view = { λ b. take b.count b.bytes };

    // The bytes behind those in use are zero, so that equal buffers are equal byte for byte.
    ghost invariant = { λ b. Padded N b.count b.bytes };

    ghost inverse = { λ xs. record { bytes = padding N xs; count = length xs } };
}

impl<const N: usize> Buffer<N> {
    pub fn new() -> Self
        ensures { result ≡ [] }
    {
        Buffer {
            bytes: [0; N],
            count: 0,
        }
    }

    // The first `count` bytes of an array, as far as there is room; all of them where it has no more.
    pub fn front(array: &[u8; N], count: usize) -> Self
        ensures { result ≡ take (room N) (take count array.now) }
    {
        let bytes: &[u8] = array;
        Buffer::from_slice(&bytes[..count.min(N)])
    }

    // The bytes of a slice, and no more than the first N of them.
    pub fn from_slice(bytes: &[u8]) -> Self
        ensures { result ≡ take (room N) bytes.now }
    {
        let count = bytes.len().min(N).min(0xFFFF);
        let mut buffer = [0; N];
        buffer[..count].copy_from_slice(&bytes[..count]);
        Buffer {
            bytes: buffer,
            count: count as u16,
        }
    }

    pub fn as_slice(&self) -> &[u8]
        ensures bytes { result.now ≡ self.now }
        ensures bound { length result.now ≤ N }
    {
        &self.bytes[..self.count as usize]
    }

    // Puts a byte behind the others; nothing changes where the buffer is full.
    pub fn push(&mut self, byte: u8)
        ensures { self.new ≡ take (room N) (self.old ++ byte ∷ []) }
    {
        let count = self.count as usize;
        if count < N && count < 0xFFFF {
            self.bytes[count] = byte;
            self.count += 1;
        }
    }
}

#[cfg(test)]
mod tests {
    use crate::Buffer;

    #[test]
    fn holds_the_first_bytes(rt: HostRuntime) {
        let mut buffer: Buffer<3> = Buffer::from_slice(&[1, 2]);
        buffer.push(3);
        buffer.push(4);
        assert!(rt; buffer.as_slice() == &[1, 2, 3][..]);
        let array = [5, 6, 7];
        assert!(rt; Buffer::front(&array, 2).as_slice() == &[5, 6][..]);
        assert!(rt; Buffer::front(&array, 4).as_slice() == &array[..]);
    }
}
