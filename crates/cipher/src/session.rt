// A block cipher under a key, with the IV of a packet: what both modes seal and open with.
ghost use Rattle.std.specs.Prelude.{◌≡◌, ◌+◌, ◌<◌, ◌≤◌, length};
ghost use Rattle.cipher.specs.Bytes.{xors};
ghost use Rattle.cipher.specs.Blocks.{padded, blocks, counter, stream};
ghost use Rattle.cipher.specs.Sealing.{xor_from};
ghost use Rattle.cipher.specs.Sessions.{Setup};

use crate::block::BlockCipher;
use std::marker::Model;

#[derive(Drop)]
pub(crate) struct Session<B: BlockCipher> {
    cipher: B,
    iv: [u8; 16],
}

impl<B: BlockCipher> Model for Session<B> {
    ghost Value = { Setup };

    ghost view = { λ s. record { key = B.keyed s.cipher; iv = s.iv } };
}

// Writes the last four bytes at once: writing two made opening a packet 3 % slower.
pub(crate) fn counter_block(iv: &[u8; 16], n: u16) -> [u8; 16]
    ensures { result ≡ counter iv.now n }
{
    let [high, low] = n.to_be_bytes();
    let mut b = *iv;
    b[12..].copy_from_slice(&[iv[12], iv[13], high, low]);
    b
}

// At most 16 bytes, with zeros behind them.
pub(crate) fn block_of(bytes: &[u8]) -> [u8; 16]
    requires { length bytes.now ≤ 16 }
    ensures { result ≡ padded bytes.now }
{
    if let Some(whole) = bytes.first_chunk() {
        return *whole;
    }
    let mut b = [0; 16];
    b[..bytes.len()].copy_from_slice(bytes);
    b
}

// Adds the bytes of `pad` to those of `part`, by exclusive or. By index: with zip a loop's invariant can't name what was written, and of
// for_each the checker says that it 'says nothing yet of how it leaves a value that the iterator borrowed as `&mut`'.
pub(crate) fn add_into(part: &mut [u8], pad: &[u8; 16])
    requires { length part.old ≤ 16 }
    ensures { part.new ≡ xors part.old pad.now }
{
    for (i, x) in part.iter_mut().enumerate() {
        *x ^= pad[i];
    }
}

impl<B: BlockCipher> Session<B> {
    pub(crate) fn new(key: &[u8; 16], iv: &[u8; 16]) -> Self
        ensures { result ≡ record { key = key.now; iv = iv.now } }
    {
        Session {
            cipher: B::new(key),
            iv: *iv,
        }
    }

    pub(crate) fn iv(&self) -> [u8; 16]
        ensures { result ≡ self.now.iv }
    {
        self.iv
    }

    pub(crate) fn encrypt(&self, block: &mut [u8; 16])
        ensures { block.new ≡ B.block self.now.key block.old }
    {
        self.cipher.encrypt(block);
    }

    // Adds the block that `pad` is encrypted to.
    pub(crate) fn mask(&self, block: &mut [u8; 16], pad: [u8; 16])
        ensures { block.new ≡ xors block.old (B.block self.now.key pad) }
    {
        let mut pad = pad;
        self.encrypt(&mut pad);
        add_into(block, &pad);
    }

    // Adds the key stream of the counter blocks `first`, `first + 1`, .. to `data`.
    pub(crate) fn add_stream(&self, first: u16, data: &mut [u8])
        requires { first + blocks (length «data».old) < 65536 }
        ensures { «data».new ≡ xor_from (stream (λ n. B.block self.now.key (counter self.now.iv n)) first) 0 «data».old }
    {
        let size = data.len();
        // By index: with chunks_mut a loop's invariant can't name what was written.
        for i in 0..size.div_ceil(16) {
            let from = 16 * i;
            let to = size.min(from + 16);
            let mut pad = counter_block(&self.iv, first + i as u16);
            self.cipher.encrypt(&mut pad);
            add_into(&mut data[from..to], &pad);
        }
    }
}
