// CCM (RFC 3610) over any block cipher: a nonce of 13 bytes, a tag of 16 and no associated data.
ghost use Rattle.std.specs.Prelude.{◌≡◌, ◌<◌, ◌≤◌, length};
ghost use Rattle.cipher.specs.Ccm.{first_block, mac, ccm_fixed, ccm_stream, ccm_tag};
ghost use Rattle.cipher.specs.Ccms.{ccm_lawful};
ghost use Rattle.cipher.specs.Sealing.{xor_from};

use crate::block::BlockCipher;
use crate::mode::Mode;
use crate::session::{Session, add_into, block_of, counter_block};
use std::marker::PhantomData;

pub struct Ccm<B> {
    cipher: PhantomData<B>,
}

// The places of an IV's fixed bytes, and the bytes.
const FIXED: [(u8, u8); 3] = [(0, 1), (14, 0), (15, 0)];

fn opening_block(iv: &[u8; 16], n: u16) -> [u8; 16]
    ensures { result ≡ first_block iv.now n }
{
    let mut b = counter_block(iv, n);
    b[0] = 0x39;
    b
}

// The CBC-MAC of a first block and of data.
fn cbc_mac<B: BlockCipher>(session: &Session<B>, first: &[u8; 16], data: &[u8]) -> [u8; 16]
    ensures { result ≡ mac (B.block session.now.key) first.now «data».now }
{
    let mut x = *first;
    session.encrypt(&mut x);
    for part in data.chunks(16) {
        add_into(&mut x, &block_of(part));
        session.encrypt(&mut x);
    }
    x
}

fn tag_of<B: BlockCipher>(session: &Session<B>, contents: &[u8]) -> [u8; 16]
    requires { length contents.now < 65536 }
    ensures { result ≡ ccm_tag (B.block session.now.key) session.now.iv contents.now }
{
    let iv = session.iv();
    let first = opening_block(&iv, contents.len() as u16);
    let mut x = cbc_mac(session, &first, contents);
    session.mask(&mut x, counter_block(&iv, 0));
    x
}

// Adds the key stream that follows counter block 0 to `data`.
fn add_key_stream<B: BlockCipher>(session: &Session<B>, data: &mut [u8])
    requires { length «data».old ≤ 266 }
    ensures { «data».new ≡ xor_from (ccm_stream (B.block session.now.key) session.now.iv) 0 «data».old }
{
    session.add_stream(1, data);
}

impl<B: BlockCipher> Mode for Ccm<B> {
    type Block = B;

    ghost fixed = { ccm_fixed };

    ghost stream = { ccm_stream };

    ghost tag = { ccm_tag };

    // The laws of the packet cipher that the three above make.
    ghost lawful = { ccm_lawful B.block B.size };

    fn fixed() -> &'static [(u8, u8)] {
        &FIXED
    }

    fn encrypt(session: &Session<B>, contents: &mut [u8]) -> [u8; 16] {
        let tag = tag_of(session, contents);
        add_key_stream(session, contents);
        tag
    }

    fn decrypt(session: &Session<B>, covered: &[u8], contents: &mut [u8]) -> [u8; 16] {
        contents.copy_from_slice(covered);
        add_key_stream(session, contents);
        tag_of(session, contents)
    }
}
