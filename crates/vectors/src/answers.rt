// What the ciphers and the packer answer: bytes, or a refusal.
ghost use Rattle.std.specs.Prelude.{◌≡◌, ◌≤◌, length, Ok};
ghost use Rattle.cipher.specs.Aes.{aes};
ghost use Rattle.packer.specs.Packing.{packed_data, packed_key};
ghost use Rattle.vectors.specs.Answers.{opened, sealed};

use buffer::Buffer;
use cipher::{Aes128, BlockCipher, PacketCipher};
use fault::Fault;
use packer::{DataPacket, KeyPacket, pack_data, pack_key};

// Frames, bodies, contents and blocks; contracts see the bytes.
pub type Bytes = Buffer<1024>;

// The most room of an output here.
pub const ROOM_MAX: usize = 1024;

// The block that a key and a block give.
pub fn block_answer(key: &[u8; 16], block: &[u8; 16]) -> Bytes
    ensures { result ≡ aes key.now block.now }
{
    let mut given = *block;
    Aes128::new(key).encrypt(&mut given);
    Bytes::from_slice(&given)
}

// The body that contents seal to; refuses an IV that is not well formed.
pub fn seal_answer<C: PacketCipher>(
    key: &[u8; 16],
    iv: &[u8; 16],
    contents: &[u8],
) -> Result<Bytes, Fault>
    requires { length contents.now ≤ 266 }
    ensures { result ≡ sealed C.PacketCipher.cipher key.now iv.now contents.now }
{
    C::check_iv(iv)?;
    let n = contents.len();
    let mut out = [0; 282];
    out[0..n].copy_from_slice(contents);
    C::seal(key, iv, &mut out[0..n + 16]);
    Ok(Bytes::from_slice(&out[0..n + 16]))
}

// The contents that a body opens to; refuses an IV that is not well formed, then a body that does not open.
pub fn open_answer<C: PacketCipher>(
    key: &[u8; 16],
    iv: &[u8; 16],
    body: &[u8],
) -> Result<Bytes, Fault>
    ensures { result ≡ opened C.PacketCipher.cipher key.now iv.now body.now }
{
    let mut work = [0; 266];
    let n = C::open(key, iv, body, &mut work)?;
    Ok(Bytes::from_slice(&work[0..n]))
}

// The frame of a data packet that is packed into an output of some room.
pub fn data_answer<C: PacketCipher>(
    key: &[u8; 16],
    iv: &[u8; 16],
    packet: &DataPacket<'_>,
    room: usize,
) -> Result<Bytes, Fault>
    requires { room ≤ 1024 }
    ensures { result ≡ packed_data C.PacketCipher.cipher key.now iv.now packet.now room }
{
    let mut out = [0; 1024];
    let n = pack_data::<C>(key, iv, packet, &mut out[0..room])?;
    Ok(Bytes::from_slice(&out[0..n]))
}

// The frame of a key packet.
pub fn key_answer<C: PacketCipher>(
    kek: &[u8; 16],
    iv: &[u8; 16],
    packet: &KeyPacket,
    room: usize,
) -> Result<Bytes, Fault>
    requires { room ≤ 1024 }
    ensures { result ≡ packed_key C.PacketCipher.cipher kek.now iv.now packet.now room }
{
    let mut out = [0; 1024];
    let n = pack_key::<C>(kek, iv, packet, &mut out[0..room])?;
    Ok(Bytes::from_slice(&out[0..n]))
}
