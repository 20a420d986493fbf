// The states of a data packet: plain numbers, moved from one to the next and never copied. Only this module and those below it can
// make one, so nothing is stored that was not opened and judged.
ghost use Rattle.std.specs.Prelude.{◌≡◌, ◌+◌, ◌≤◌, true, is_ok};
ghost use Rattle.memory.specs.Areas.{range_checked};

mod judge;
mod open;
mod store;

// The fields of opened contents; the data lie in the work buffer, from a place on: no slice, since a state borrows nothing.
#[derive(Drop)]
pub(crate) struct Opened {
    ver: u8,
    pn: u16,
    np: u16,
    address: u32,
    place: usize,
    count: usize,
    ghost within: { place + count ≤ 266 },
}

// Opened contents that passed all checks.
#[derive(Drop)]
pub(crate) struct Judged {
    opened: Opened,
    ghost numbered: { opened.pn ≤ opened.np },
    ghost inside: { is_ok (range_checked opened.address opened.count) ≡ true },
}

// What is left of contents once they are stored.
#[derive(Drop)]
pub(crate) struct Stored {
    pn: u16,
    np: u16,
    ghost numbered: { pn ≤ np },
}
