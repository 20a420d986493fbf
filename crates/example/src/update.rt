// The parts of the example update. Each version has bytes of its own, so that a mixture of two can be seen.
ghost use Rattle.std.specs.Prelude.{◌≡◌, ◌≤◌, true, length, is_ok, IfOk};
ghost use Rattle.wire.specs.Frame.{frame};
ghost use Rattle.example.specs.Parts.{part_address, part_bytes, part_iv, part_packet};

use buffer::Buffer;
use cipher::{Aes128, Ccm};
use fault::Fault;
use packer::{DataPacket, pack_data};

// A packed frame; its contracts see its bytes.
pub type Frame = Buffer<304>;

// How many packets the update has.
pub const COUNT: u8 = 3;

// Where the bytes of a part go: the start of the lower area, behind that, or the reset vector.
fn address_of(number: u8) -> u32
    ensures value { result ≡ part_address number }
    ensures low { result ≤ 0xFFFFFF }
{
    match number {
        1 => 0x4400,
        2 => 0x4500,
        _ => 0xFFFE,
    }
}

// The IV of a part names its version and number, so that none is used twice.
fn iv_of(version: u8, number: u8) -> [u8; 16]
    ensures { result ≡ part_iv version number }
{
    [1, version, number, 0, 0, 0, 0, 0, 0, 0, 0, 0, 0, 0, 0, 0]
}

// Packs 1 to 256 bytes as part `number` of a version.
fn pack_bytes(key: &[u8; 16], version: u8, number: u8, bytes: &[u8]) -> Result<Frame, Fault>
    requires some { 1 ≤ length bytes.now }
    requires most { length bytes.now ≤ 256 }
    ensures packed { is_ok result ≡ true }
    ensures made { IfOk result (λ f. f ≡ frame (part_packet key.now version number bytes.now)) }
{
    let packet = DataPacket {
        version,
        number: u16::from(number),
        count: u16::from(COUNT),
        address: address_of(number),
        bytes,
    };
    let mut buffer = [0; 304];
    let iv = iv_of(version, number);
    let length = pack_data::<Ccm<Aes128>>(key, &iv, &packet, &mut buffer)?;
    Ok(Frame::front(&buffer, length))
}

// Packs part `number` of a version of the update, under a data key: 256 bytes of the version's number in each of the first two parts, the reset
// vector in the last.
pub fn pack_part(key: &[u8; 16], version: u8, number: u8) -> Result<Frame, Fault>
    ensures packed { is_ok result ≡ true }
    ensures made { IfOk result (λ f. f ≡ frame (part_packet key.now version number (part_bytes version number))) }
{
    if number < COUNT {
        pack_bytes(key, version, number, &[version; 256])
    } else {
        pack_bytes(key, version, number, &[0x00, 0x44])
    }
}
