// A frame whose packet opened again to its contents: none is given out without the sign that looking gives.
ghost use Rattle.std.specs.Prelude.{◌≡◌, ◌↔◌, ◌++◌, IsTrue, IfErr, IfOk, Ok};
ghost use Rattle.pack.specs.declared.failure.Failure.TheVariants.{NotOpened};
ghost use Rattle.pack.specs.Report.{reopened};

use crate::failure::Failure;
use buffer::Buffer;
use cipher::PacketCipher;
use std::marker::Model;

// The longest frame of a packet.
pub const FRAME_MAX: usize = 304;

// A frame; contracts see its bytes.
pub type Frame = Buffer<FRAME_MAX>;

// The sign that a body opened to the contents that were wanted; only `check_opens` makes one.
#[derive(Drop)]
pub struct Opened {
    unit: (),
}

// A frame that was given out for such a sign; contracts see its bytes.
#[derive(Clone, Copy)]
pub struct OpenedFrame {
    frame: Frame,
}

impl Model for OpenedFrame {
    ghost use Rattle.std.specs.Prelude.{ℕ, List};

    ghost Value = { List ℕ };

    ghost view = { λ f. f.frame };

    ghost inverse = { λ xs. record { frame = xs } };
}

impl OpenedFrame {
    // The frame that was opened, which uses the sign up.
    pub fn of(_opened: Opened, frame: Frame) -> OpenedFrame
        ensures { result ≡ frame }
    {
        OpenedFrame { frame }
    }

    pub fn as_slice(&self) -> &[u8]
        ensures { result.now ≡ self.now }
    {
        self.frame.as_slice()
    }
}

// Whether a body opens to contents that are these two, one behind the other.
fn opens_to<C: PacketCipher>(
    key: &[u8; 16],
    iv: &[u8; 16],
    body: &[u8],
    head: &[u8],
    rest: &[u8],
) -> bool
    ensures { IsTrue result ↔ (reopened C.PacketCipher.cipher key.now iv.now body.now ≡ Ok (head.now ++ rest.now)) }
{
    let mut work = [0; 266];
    let Ok(count) = C::open(key, iv, body, &mut work) else {
        return false;
    };
    match work[..count].strip_prefix(head) {
        Some(tail) => tail == rest,
        None => false,
    }
}

// The sign that a body opened. Refuses a body that does not open to contents that are these two, one behind the other, whatever body it is.
pub fn check_opens<C: PacketCipher>(
    key: &[u8; 16],
    iv: &[u8; 16],
    body: &[u8],
    head: &[u8],
    rest: &[u8],
) -> Result<Opened, Failure>
    ensures opens { IfOk result (λ u. reopened C.PacketCipher.cipher key.now iv.now body.now ≡ Ok (head.now ++ rest.now)) }
    ensures refused { IfErr result (λ e. (e ≡ NotOpened) × ((reopened C.PacketCipher.cipher key.now iv.now body.now ≡ Ok (head.now ++ rest.now)) → ⊥)) }
{
    if !opens_to::<C>(key, iv, body, head, rest) {
        return Err(Failure::NotOpened);
    }
    Ok(Opened { unit: () })
}
