// A reader over the opened contents of a data packet: VER, PN, NP, RSV, address, then the data; all read where they lie.
ghost use Rattle.std.specs.Prelude.{◌≡◌, ◌<◌, ◌≤◌, length};
ghost use Rattle.rules.specs.Board.{fields};

use std::marker::Model;

mod fields;

#[derive(Drop)]
pub(crate) struct Contents<'a> {
    bytes: &'a [u8],
}

impl<'a> Model for Contents<'a> {
    ghost use Rattle.std.specs.Prelude.{◌<◌, ◌≤◌, length};
    ghost use Rattle.rules.specs.Board.{Packet, fields};

    ghost Value = { Packet };

    ghost view = { λ o. fields o.bytes.now };

    ghost invariant = { λ o. (10 < length o.bytes.now) × (length o.bytes.now ≤ 266) };
}

// A part of a buffer and its offset, which can be kept when the borrow has ended.
#[derive(Clone, Copy)]
pub(crate) struct Part<'a> {
    pub(crate) bytes: &'a [u8],
    pub(crate) place: usize,
}

impl<'a> Contents<'a> {
    pub(crate) fn over(bytes: &'a [u8]) -> Contents<'a>
        requires { (10 < length bytes.now) × (length bytes.now ≤ 266) }
        ensures { result ≡ fields bytes.now }
    {
        Contents { bytes }
    }
}
