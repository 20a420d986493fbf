// What the modes share: each is a packet cipher by its IV's fixed bytes, its key stream and its tag.
ghost use Rattle.std.specs.Prelude.{◌≡◌, ℕ, ◌-◌, ◌<◌, ◌≤◌, true, false, List, length, take, drop, replicate, Ok, Err, if◌then◌else◌, MatchOption};
ghost use Rattle.std.specs.List.{All};
ghost use Rattle.fault.specs.declared.Fault.TheVariants.{BadIv};
ghost use Rattle.cipher.specs.Cipher.{Lawful, opening, yielded};
ghost use Rattle.cipher.specs.Sealing.{xor_from, same, body_sized, opened, Fixed, has_fixed, first_unfixed, mode};

use crate::block::BlockCipher;
use crate::packet::PacketCipher;
use crate::session::Session;
use fault::Fault;

// The fixed bytes of an IV, a key stream and a tag, over a block cipher. That an IV is well formed and contents are short stay premises: types
// for them would have to be built by every caller.
pub(crate) trait Mode {
    type Block: BlockCipher;

    // The bytes that an IV must have.
    ghost fixed: { Fixed };

    // The key stream and the tag of contents, of what a block cipher makes of blocks and of an IV.
    ghost stream: { (List ℕ → List ℕ) → List ℕ → ℕ → ℕ };

    ghost tag: { (List ℕ → List ℕ) → List ℕ → List ℕ → List ℕ };

    // The fixed bytes, each with its place.
    fn fixed() -> &'static [(u8, u8)]
        ensures value { result.now ≡ fixed }
        ensures within { All (λ p. p.0 < 16) result.now };

    // Puts contents under the key stream, and says their tag.
    fn encrypt(session: &Session<Self::Block>, contents: &mut [u8]) -> [u8; 16]
        requires formed { has_fixed fixed session.now.iv ≡ true }
        requires short { length contents.old ≤ 266 }
        ensures contents { contents.new ≡ xor_from (stream (Self.Block.block session.now.key) session.now.iv) 0 contents.old }
        ensures tag { result ≡ tag (Self.Block.block session.now.key) session.now.iv contents.old };

    // Writes the contents that stand under the key stream, and says their tag.
    fn decrypt(session: &Session<Self::Block>, covered: &[u8], contents: &mut [u8]) -> [u8; 16]
        requires formed { has_fixed fixed session.now.iv ≡ true }
        requires short { length covered.now ≤ 266 }
        requires same_size { length contents.old ≡ length covered.now }
        ensures contents { contents.new ≡ xor_from (stream (Self.Block.block session.now.key) session.now.iv) 0 covered.now }
        ensures tag { result ≡ tag (Self.Block.block session.now.key) session.now.iv contents.new };

    // Sealing and opening undo each other.
    ghost lawful: { Lawful (mode fixed (λ k iv. stream (Self.Block.block k) iv) (λ k iv. tag (Self.Block.block k) iv)) };
}

// Refuses an IV at the first place where it has not the fixed byte.
pub(crate) fn check_fixed(fixed: &[(u8, u8)], iv: &[u8; 16]) -> Result<(), Fault>
    requires { All (λ p. p.0 < 16) fixed.now }
    ensures { result ≡ (if has_fixed fixed.now iv.now then Ok tt else Err (BadIv (first_unfixed fixed.now iv.now))) }
{
    for (place, byte) in fixed {
        if iv[usize::from(*place)] != *byte {
            return Err(Fault::BadIv(*place));
        }
    }
    Ok(())
}

// Splits a body of 16 to 282 bytes into ciphertext and tag.
fn parted(body: &[u8]) -> Option<(&[u8], &[u8; 16])>
    ensures { MatchOption result (body_sized body.now ≡ false) (λ p. (body_sized body.now ≡ true) × (p.0.now ≡ take (length body.now - 16) body.now) × (p.1.now ≡ drop (length body.now - 16) body.now)) }
{
    body.split_last_chunk()
        .filter(|(covered, _)| covered.len() <= 266)
}

// Whether two tags are equal, looking at all bytes of both.
fn same_tag(a: &[u8; 16], b: &[u8; 16]) -> bool
    ensures { result ≡ same a.now b.now }
{
    let mut difference = 0;
    for (x, y) in a.iter().zip(b) {
        difference |= x ^ y;
    }
    difference == 0
}

// Wipes `work`, and refuses the packet.
fn refused(work: &mut [u8; 266], fault: Fault) -> Result<usize, Fault>
    ensures answer { result ≡ Err fault }
    ensures work { work.new ≡ replicate 266 0 }
{
    work.fill(0);
    Err(fault)
}

// Opens a body whose IV is well formed.
fn open_into<M: Mode>(
    key: &[u8; 16],
    iv: &[u8; 16],
    body: &[u8],
    work: &mut [u8; 266],
) -> Result<usize, Fault>
    requires formed { has_fixed M.fixed iv.now ≡ true }
    ensures answer { result ≡ opening (opened (M.stream (M.Block.block key.now) iv.now) (M.tag (M.Block.block key.now) iv.now) body.now) }
    ensures work { work.new ≡ yielded (opened (M.stream (M.Block.block key.now) iv.now) (M.tag (M.Block.block key.now) iv.now) body.now) }
{
    let Some((covered, given)) = parted(body) else {
        return refused(work, Fault::NotOpened);
    };
    let n = covered.len();
    let tag = M::decrypt(&Session::new(key, iv), covered, &mut work[..n]);
    if !same_tag(&tag, given) {
        return refused(work, Fault::NotOpened);
    }
    work[n..].fill(0);
    Ok(n)
}

// Each mode is a packet cipher: it seals and opens by its key stream and its tag.
impl<M: Mode> PacketCipher for M {
    ghost cipher = { mode M.fixed (λ k iv. M.stream (M.Block.block k) iv) (λ k iv. M.tag (M.Block.block k) iv) };

    ghost lawful = { M.lawful };

    fn check_iv(iv: &[u8; 16]) -> Result<(), Fault> {
        check_fixed(M::fixed(), iv)
    }

    fn seal(key: &[u8; 16], iv: &[u8; 16], out: &mut [u8]) {
        let n = out.len() - 16;
        let tag = M::encrypt(&Session::new(key, iv), &mut out[..n]);
        out[n..].copy_from_slice(&tag);
    }

    fn open(
        key: &[u8; 16],
        iv: &[u8; 16],
        body: &[u8],
        work: &mut [u8; 266],
    ) -> Result<usize, Fault> {
        match check_fixed(M::fixed(), iv) {
            Ok(()) => open_into::<M>(key, iv, body, work),
            Err(fault) => refused(work, fault),
        }
    }
}
