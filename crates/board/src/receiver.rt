// The receiver: how far a frame has been read, and the bytes of its core command so far.
ghost use Rattle.std.specs.Prelude.{◌≡◌, length, true};
ghost use Rattle.board.specs.Progress.{sound};

use buffer::Buffer;

pub(crate) mod core_command;
mod idle;
mod reading;

// How far a frame has been read.
#[derive(Clone, Copy)]
pub(crate) enum Progress {
    Idle,
    LengthLow,
    // The length's low byte.
    LengthHigh(u8),
    // The length.
    Body(u16),
    CheckLow,
    // The checksum's low byte.
    CheckHigh(u8),
}

// It holds no byte but those of a core command under way.
#[derive(Drop)]
pub(crate) struct Receiver {
    progress: Progress,
    core: Buffer<299>,
    ghost sound: { sound progress (length core) ≡ true },
}
