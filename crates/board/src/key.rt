// The states of a key packet: plain numbers, moved from one to the next and never copied. They differ from those of a data packet in
// their fields, checks and steps; what is alike is in `Sealed`.
ghost use Rattle.std.specs.Prelude.{◌+◌, ◌≤◌};

use memory::KeySlot;

mod judge;
mod open;
mod store;

// The fields of opened contents; the key lies in the work buffer, from a place on.
#[derive(Drop)]
pub(crate) struct OpenedKey {
    kt: u8,
    kv: u8,
    place: usize,
    ghost within: { place + 16 ≤ 266 },
}

// Opened contents that passed all checks, with the slot that the key goes to.
#[derive(Drop)]
pub(crate) struct JudgedKey {
    slot: KeySlot,
    kv: u8,
    place: usize,
    ghost within: { place + 16 ≤ 266 },
}
