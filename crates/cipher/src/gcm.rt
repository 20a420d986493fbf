// GCM (SP 800-38D) over any block cipher: a nonce of 12 bytes, a tag of 16 and no associated data.
ghost use Rattle.std.specs.Prelude.{◌≡◌, ◌≤◌, true, length};
ghost use Rattle.cipher.specs.Gcm.{gcm_fixed, gcm_mac, gcm_stream, gcm_tag};
ghost use Rattle.cipher.specs.Gcms.{gcm_lawful};
ghost use Rattle.cipher.specs.Sealing.{has_fixed, xor_from};

mod ghash;

use crate::block::BlockCipher;
use crate::mode::Mode;
use crate::session::Session;
use ghash::Factor;
use std::marker::PhantomData;

pub struct Gcm<B> {
    cipher: PhantomData<B>,
}

// The places of an IV's fixed bytes, and the bytes.
const FIXED: [(u8, u8); 4] = [(12, 0), (13, 0), (14, 0), (15, 1)];

// The tag of bytes under the key stream.
fn mac_of<B: BlockCipher>(session: &Session<B>, covered: &[u8]) -> [u8; 16]
    requires { length covered.now ≤ 282 }
    ensures { result ≡ gcm_mac (B.block session.now.key) session.now.iv covered.now }
{
    let mut h = [0; 16];
    session.encrypt(&mut h);
    let factor = Factor::new(u128::from_be_bytes(h));
    let mut x = factor.ghash(covered).to_be_bytes();
    session.mask(&mut x, session.iv());
    x
}

// Adds the key stream that follows the IV, a counter block, to `data`. Not one function with that of CCM: each says which of the two
// standards' key streams a counter makes, and under which conditions.
fn add_key_stream<B: BlockCipher>(session: &Session<B>, data: &mut [u8])
    requires formed { has_fixed gcm_fixed session.now.iv ≡ true }
    requires short { length «data».old ≤ 282 }
    ensures { «data».new ≡ xor_from (gcm_stream (B.block session.now.key) session.now.iv) 0 «data».old }
{
    session.add_stream(2, data);
}

impl<B: BlockCipher> Mode for Gcm<B> {
    type Block = B;

    ghost fixed = { gcm_fixed };

    ghost stream = { gcm_stream };

    ghost tag = { gcm_tag };

    // The laws of the packet cipher that the three above make.
    ghost lawful = { gcm_lawful B.block B.size };

    fn fixed() -> &'static [(u8, u8)] {
        &FIXED
    }

    fn encrypt(session: &Session<B>, contents: &mut [u8]) -> [u8; 16] {
        add_key_stream(session, contents);
        mac_of(session, contents)
    }

    fn decrypt(session: &Session<B>, covered: &[u8], contents: &mut [u8]) -> [u8; 16] {
        contents.copy_from_slice(covered);
        add_key_stream(session, contents);
        mac_of(session, covered)
    }
}
