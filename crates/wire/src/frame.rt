// Frames: 0x80, the length of the core command, the core command, its checksum; low bytes first.
ghost use Rattle.std.specs.Prelude.{◌≡◌, length, take, drop};
ghost use Rattle.wire.specs.Frame.{frame_size, framed, room};

use crate::checksum::checksum;

// The core command of a good frame has 1 to 299 bytes.
const CORE_MAX: usize = 299;

// Whether a core command of `n` bytes has a frame that fits in `m` bytes.
fn fits(n: usize, m: usize) -> bool
    ensures { result ≡ room n m }
{
    (1..=CORE_MAX).contains(&n) && n + 5 <= m
}

// Puts the frame around the core command of `n` bytes that stands in `out` from place 3 on, and says how long the
// frame is; does nothing where such a core command has no frame, or `out` no room for it. The count stands beside the
// buffer, since the core command lies in the midst of it, where it was sealed in place.
pub fn enclose(out: &mut [u8], n: usize) -> Option<usize>
    ensures count { result ≡ frame_size n (length out.old) }
    ensures out { out.new ≡ framed n (take n (drop 3 out.old)) out.old }
{
    if !fits(n, out.len()) {
        return None;
    }
    let sum = checksum(&out[3..3 + n]);
    out[0] = 0x80;
    out[1..3].copy_from_slice(&(n as u16).to_le_bytes());
    out[3 + n..5 + n].copy_from_slice(&sum.to_le_bytes());
    Some(n + 5)
}

// Writes the frame of a core command at the front of `out`, and says how long it is; does nothing where the core
// command has no frame, or `out` no room for it.
pub fn write_frame(out: &mut [u8], core: &[u8]) -> Option<usize>
    ensures count { result ≡ frame_size (length core.now) (length out.old) }
    ensures out { out.new ≡ framed (length core.now) core.now out.old }
{
    if !fits(core.len(), out.len()) {
        return None;
    }
    out[3..3 + core.len()].copy_from_slice(core);
    enclose(out, core.len())
}
