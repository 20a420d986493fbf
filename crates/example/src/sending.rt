// The calls that send a frame, byte by byte, with buffers of full size.
ghost use Rattle.std.specs.Prelude.{◌≡◌, ◌++◌, is_ok, if◌then◌else◌};
ghost use Rattle.wire.specs.Frame.{frame};
ghost use Rattle.example.specs.Frames.{calls, erase, erase_calls};

use rules::Event;
use std::alloc::AllocError;

// Adds the calls that send the bytes; without memory for them nothing is added.
pub fn push_frame(events: &mut Vec<Event>, bytes: &[u8]) -> Result<(), AllocError>
    ensures { events.new.items ≡ (if is_ok result then events.old.items ++ calls bytes.now else events.old.items) }
{
    events.reserve(bytes.len())?;
    for byte in bytes {
        events.push_reserved(Event::Byte(*byte, 11, 266));
    }
    Ok(())
}

// The frame of the mass erase.
fn erase_frame() -> [u8; 6]
    ensures { result ≡ frame erase }
{
    [0x80, 0x01, 0x00, 0x15, 0x64, 0xA3]
}

// Adds the calls that send the mass erase; without memory for them nothing is added.
pub fn push_erase(events: &mut Vec<Event>) -> Result<(), AllocError>
    ensures { events.new.items ≡ (if is_ok result then events.old.items ++ erase_calls else events.old.items) }
{
    push_frame(events, &erase_frame())
}
