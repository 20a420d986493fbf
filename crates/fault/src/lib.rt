// The refusals of the whole product: each has a number, a layer and a place.
#![tactic(auto)]

ghost use Rattle.std.specs.Prelude.{◌≡◌, Some};
ghost use Rattle.fault.specs.Refusals.{refusal, layer_name, refusal_text};

use std::error::Error;
use std::fmt;

// The part that refused.
#[derive(Clone, Copy, PartialEq, Eq, Debug)]
pub enum Layer {
    Call,
    Memory,
    Frame,
    Command,
    Cipher,
    Session,
    Keys,
}

impl Layer {
    pub fn name(&self) -> &'static str
        ensures { result.now ≡ layer_name self.now }
    {
        match self {
            Layer::Call => "call",
            Layer::Memory => "memory",
            Layer::Frame => "frame",
            Layer::Command => "command",
            Layer::Cipher => "cipher",
            Layer::Session => "session",
            Layer::Keys => "keys",
        }
    }
}

// A refusal, with its place where that can differ.
#[derive(Clone, Copy, PartialEq, Eq, Debug)]
pub enum Fault {
    // The reply buffer has under 11 bytes.
    ReplyShort,
    // The work buffer has under 266 bytes.
    WorkShort,
    // The supply is gone.
    Dark,
    // The image has not as many bytes as the map.
    ImageSize,
    // The data count is not 1 to 256.
    DataCount,
    // The output is too short for the frame.
    OutputShort,
    // The address is outside the map, or of more than three bytes.
    OutsideMap,
    // A malformed line of a listing.
    BadLine,
    UnknownCommand(u8),
    // The length of a packet's core command.
    PacketLength(u16),
    // Where the IV is first wrong.
    BadIv(u8),
    // No contents seal to the body.
    NotOpened,
    // PN 0, NP 0, or PN above NP; the place is PN.
    BadNumber(u16),
    // Packet number 1, of an update that may not open.
    MayNotOpen(u16),
    // Another packet number, which does not follow.
    OutOfTurn(u16),
    // The first address of the data that is outside the map.
    OutsideArea(u32),
    BadKeyType(u8),
    // A key version that is not above the held one.
    OldKey(u8),
    // A byte outside a frame that begins none.
    NoHeader(u8),
    // The checksum as received.
    BadChecksum(u16),
    // A frame of length 0.
    NoLength,
    // A frame's length, above 299.
    TooLong(u16),
}

impl Fault {
    // The number of the refusal.
    pub fn number(&self) -> u8
        ensures { result ≡ (refusal self.now).number }
    {
        match self {
            Fault::ReplyShort => 1,
            Fault::WorkShort => 2,
            Fault::Dark => 3,
            Fault::ImageSize => 4,
            Fault::DataCount => 5,
            Fault::OutputShort => 6,
            Fault::OutsideMap => 7,
            Fault::BadLine => 8,
            Fault::UnknownCommand(_) => 9,
            Fault::PacketLength(_) => 10,
            Fault::BadIv(_) => 11,
            Fault::NotOpened => 12,
            Fault::BadNumber(_) => 20,
            Fault::MayNotOpen(_) => 21,
            Fault::OutOfTurn(_) => 22,
            Fault::OutsideArea(_) => 23,
            Fault::BadKeyType(_) => 30,
            Fault::OldKey(_) => 31,
            Fault::NoHeader(_) => 81,
            Fault::BadChecksum(_) => 82,
            Fault::NoLength => 83,
            Fault::TooLong(_) => 84,
        }
    }

    pub fn layer(&self) -> Layer
        ensures { result ≡ (refusal self.now).layer }
    {
        match self {
            Fault::ReplyShort
            | Fault::WorkShort
            | Fault::ImageSize
            | Fault::DataCount
            | Fault::OutputShort
            | Fault::OutsideMap
            | Fault::BadLine => Layer::Call,
            Fault::Dark | Fault::OutsideArea(_) => Layer::Memory,
            Fault::UnknownCommand(_) | Fault::PacketLength(_) => Layer::Command,
            Fault::BadIv(_) | Fault::NotOpened => Layer::Cipher,
            Fault::BadNumber(_) | Fault::MayNotOpen(_) | Fault::OutOfTurn(_) => Layer::Session,
            Fault::BadKeyType(_) | Fault::OldKey(_) => Layer::Keys,
            Fault::NoHeader(_) | Fault::BadChecksum(_) | Fault::NoLength | Fault::TooLong(_) =>
                Layer::Frame,
        }
    }

    pub fn place(&self) -> u32
        ensures { result ≡ (refusal self.now).place }
    {
        match *self {
            Fault::UnknownCommand(b)
            | Fault::BadIv(b)
            | Fault::BadKeyType(b)
            | Fault::OldKey(b)
            | Fault::NoHeader(b) => u32::from(b),
            Fault::PacketLength(w)
            | Fault::BadNumber(w)
            | Fault::MayNotOpen(w)
            | Fault::OutOfTurn(w)
            | Fault::BadChecksum(w)
            | Fault::TooLong(w) => u32::from(w),
            Fault::OutsideArea(address) => address,
            Fault::ReplyShort
            | Fault::WorkShort
            | Fault::Dark
            | Fault::ImageSize
            | Fault::DataCount
            | Fault::OutputShort
            | Fault::OutsideMap
            | Fault::BadLine
            | Fault::NotOpened
            | Fault::NoLength => 0,
        }
    }
}

impl fmt::Display for Layer {
    ghost output = { λ layer. Some (layer_name layer) };

    fn fmt<W: fmt::Write>(&self, f: &mut fmt::Formatter<W>) -> fmt::Result {
        f.write_str(self.name())
    }
}

impl fmt::Display for Fault {
    ghost output = { λ fault. Some (refusal_text fault) };

    fn fmt<W: fmt::Write>(&self, f: &mut fmt::Formatter<W>) -> fmt::Result {
        let number = self.number();
        let layer = self.layer();
        let place = self.place();
        write!(f, "{number}, layer {layer}, place {place}")
    }
}

impl Error for Fault {}
