// AES-128 (FIPS 197) as a block cipher: the key schedule and the cipher.
ghost use Rattle.std.specs.Prelude.{◌≡◌};
ghost use Rattle.cipher.specs.Aes.{aes};
ghost use Rattle.cipher.specs.Columns.{Schedule};
ghost use Rattle.cipher.specs.Schedules.{length_aes};

mod columns;
mod rounds;
mod table;

use crate::block::BlockCipher;
use columns::Columns;
use rounds::{last_step, next_round_key, step};

const RCON: [u8; 10] = [0x01, 0x02, 0x04, 0x08, 0x10, 0x20, 0x40, 0x80, 0x1b, 0x36];

// A key with its eleven round keys.
#[derive(Drop)]
pub struct Aes128 {
    key: [u8; 16],
    rounds: [Columns; 11],
    ghost schedule: { Schedule key rounds 11 },
}

// The key and the ten round keys that follow from it.
fn expanded(key: &[u8; 16]) -> [Columns; 11]
    ensures { Schedule key.now result 11 }
{
    let mut k = Columns::from(key);
    let mut keys = [k; 11];
    // By index: with iter_mut a loop's invariant can't name what was written.
    for (i, constant) in RCON.iter().enumerate() {
        k = next_round_key(k, *constant);
        keys[i + 1] = k;
    }
    keys
}

impl Aes128 {
    fn encrypted(&self, block: &[u8; 16]) -> [u8; 16]
        ensures { result ≡ aes self.now.key block.now }
    {
        // The rounds one by one: with a loop over them, tried, opening a packet takes a quarter longer, since the compiler keeps the columns
        // that go from round to round in one vector register.
        let k = &self.rounds;
        let s = Columns::from(block) ^ k[0];
        let s = step(step(step(s, k[1]), k[2]), k[3]);
        let s = step(step(step(s, k[4]), k[5]), k[6]);
        let s = step(step(step(s, k[7]), k[8]), k[9]);
        last_step(s, k[10]).into()
    }
}

impl BlockCipher for Aes128 {
    ghost block = { aes };

    ghost keyed = { λ s. s.key };

    ghost size = { λ k b h _. length_aes k b h };

    fn new(key: &[u8; 16]) -> Self {
        Aes128 {
            key: *key,
            rounds: expanded(key),
        }
    }

    fn encrypt(&self, data: &mut [u8; 16]) {
        *data = self.encrypted(data);
    }
}
