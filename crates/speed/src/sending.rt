// What is sent to a board, as lists of calls: full data packets, each of which opens an update, and mass erases.
ghost use Rattle.std.specs.Prelude.{◌≡◌, ◌≤◌, IfOk};
ghost use Rattle.speed.specs.Sending.{erases_calls, first_packet_calls};

use example::{pack_part, push_erase, push_frame};
use rules::Event;
use std::alloc::{AllocError, Global};

// The calls that send the first packets of the versions 1 to `last`, one after the other.
pub fn updates(heap: Global, key: &[u8; 16], last: u8) -> anyhow::Result<Vec<Event>>
    ensures { IfOk result (λ v. v.items ≡ first_packet_calls key.now last) }
{
    let mut events = Vec::new(heap);
    for number in 0..last {
        let frame = pack_part(key, number + 1, 1)?;
        push_frame(&mut events, frame.as_slice())?;
    }
    Ok(events)
}

// The calls that send the mass erase so many times.
pub fn erases(heap: Global, count: u32) -> Result<Vec<Event>, AllocError>
    ensures { IfOk result (λ v. v.items ≡ erases_calls count) }
{
    let mut events = Vec::new(heap);
    for _ in 0..count {
        push_erase(&mut events)?;
    }
    Ok(events)
}
