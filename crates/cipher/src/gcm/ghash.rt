// GHASH, the hash of GCM, a byte at a time.
ghost use Rattle.std.specs.Prelude.{◌≡◌, ℕ, ◌*◌, ◌^◌, ◌<◌, length, ◌==◌, slice_index};
ghost use Rattle.cipher.specs.Ghash as spec;
ghost use Rattle.cipher.specs.Ghash.{v_after};
ghost use Rattle.cipher.specs.Horner.{added, horner, times_x4, times_x8};

use crate::session::block_of;
use std::array;

// One shift.
fn shifted(v: u128) -> u128
    ensures { result ≡ spec.times_x v }
{
    (v / 2) ^ (v % 2 * 0xe1000000000000000000000000000000)
}

// What eight shifts make of the byte that falls out; in closed form, so that no iteration waits for a table.
fn reduced(b: u8) -> u128
    ensures { result ≡ v_after b 8 }
{
    let b = b as u16;
    (((b << 8) ^ (b << 7) ^ (b << 6) ^ (b << 1)) as u128) << 112
}

// Four shifts. The four bits fall out as the upper half of a byte, whose first four shifts drop nothing.
fn shifted4(v: u128) -> u128
    ensures { result ≡ times_x4 v }
{
    (v / 16) ^ reduced((v % 16 * 16) as u8)
}

// Eight shifts.
fn shifted8(v: u128) -> u128
    ensures { result ≡ times_x8 v }
{
    (v / 256) ^ reduced((v % 256) as u8)
}

// A field element, its products with each number of four bits, and four shifts of each: so an iteration of `times` waits only
// for the eight shifts.
#[derive(Drop)]
pub(crate) struct Factor {
    value: u128,
    high: [u128; 16],
    low: [u128; 16],
    ghost high_made: { (t : ℕ) → t < 16 → slice_index high t ≡ horner t value 4 },
    ghost low_made: { (t : ℕ) → t < 16 → slice_index low t ≡ times_x4 (horner t value 4) },
}

fn added_if(bit: u8, z: u128, v: u128) -> u128
    ensures { result ≡ added (bit == 1) z v }
{
    if bit == 1 { z ^ v } else { z }
}

fn small_product(t: u8, y: u128) -> u128
    requires { t < 16 }
    ensures { result ≡ horner t y 4 }
{
    let mut w = 0;
    // `i` is the place of a bit, and no index: there is nothing to iterate over.
    for i in 0..4u32 {
        w = added_if((t >> i) % 2, shifted(w), y);
    }
    w
}

impl Factor {
    pub(crate) fn new(value: u128) -> Self
        ensures { result.value ≡ value }
    {
        let high = array::from_fn(|t| small_product(t as u8, value));
        let low = high.map(shifted4);
        Factor { value, high, low }
    }

    fn times(&self, x: u128) -> u128
        ensures { result ≡ spec.times x self.now.value }
    {
        let mut w = 0;
        for b in x.to_le_bytes() {
            w = shifted8(w) ^ (self.low[(b % 16) as usize] ^ self.high[(b / 16) as usize]);
        }
        w
    }

    pub(crate) fn ghash(&self, data: &[u8]) -> u128
        requires { length «data».now < 2 ^ 32 }
        ensures { result ≡ spec.ghash self.now.value «data».now }
    {
        let mut y = 0;
        for part in data.chunks(16) {
            let b = u128::from_be_bytes(block_of(part));
            y = self.times(y ^ b);
        }
        self.times(y ^ (data.len() as u128 * 8))
    }
}
