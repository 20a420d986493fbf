// A packet of full size, opened again and again.
ghost use Rattle.std.specs.Prelude.{◌≡◌, true, cond, is_some, replicate};
ghost use Rattle.cipher.specs.Cipher.{opened_to};

use cipher::PacketCipher;

// The body of 266 bytes of contents, the most that a packet has.
pub fn full_body<C: PacketCipher>(key: &[u8; 16], iv: &[u8; 16]) -> [u8; 282]
    requires { C.cipher.well_formed iv.now ≡ true }
    ensures { result ≡ C.cipher.seal key.now iv.now (replicate 266 3) }
{
    let mut body = [3; 282];
    C::seal(key, iv, &mut body);
    body
}

// Whether a packet opens. Never inlined, so that no turn can share the key schedule of another.
#[inline(never)]
fn is_opened<C: PacketCipher>(
    key: &[u8; 16],
    iv: &[u8; 16],
    body: &[u8; 282],
    work: &mut [u8; 266],
) -> bool
    ensures { result ≡ is_some (opened_to C.cipher key.now iv.now body.now) }
{
    C::open(key, iv, body, work).is_ok()
}

// Opens a packet so many times, and says how often it opened.
pub fn opens<C: PacketCipher>(key: &[u8; 16], iv: &[u8; 16], body: &[u8; 282], turns: u32) -> u32
    ensures { result ≡ cond (is_some (opened_to C.cipher key.now iv.now body.now)) turns 0 }
{
    let mut work = [0; 266];
    let mut count = 0;
    for _ in 0..turns {
        if is_opened::<C>(key, iv, body, &mut work) {
            count += 1;
        }
    }
    count
}
