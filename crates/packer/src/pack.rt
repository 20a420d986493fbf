// Sealing a packet in the middle of the caller's output, and the frame around it.
//
// place 0: the frame's header; 3: the command byte; 4: the IV; 20: the contents, then the tag; behind them: the checksum.
ghost use Rattle.std.specs.Prelude.{◌≡◌, ◌+◌, ◌≤◌, true, length, take, drop, IfOk, Ok};
ghost use Rattle.wire.specs.Frame.{frame, over};
ghost use Rattle.packer.specs.Packets.{data_contents, key_contents};
ghost use Rattle.packer.specs.Packing.{packet as core_command, packed_data, packed_key, frame_length, laid, OpensTo};

use crate::packet::{DataPacket, KeyPacket};
use cipher::PacketCipher;
use fault::Fault;
use wire::frame::enclose;

// The command bytes of the two kinds of packets.
const DATA_COMMAND: u8 = 0x30;

const KEY_COMMAND: u8 = 0x31;

// Seals the `n` bytes of contents that stand in `out` from place 20 on, and writes the rest of the frame around them. The count stands
// beside the buffer, since the contents lie in the midst of it, where they are sealed in place; key
// and IV are two, as a packet cipher takes them.
fn sealed_frame<C: PacketCipher>(
    command: u8,
    key: &[u8; 16],
    iv: &[u8; 16],
    n: usize,
    out: &mut [u8],
) -> Result<usize, Fault>
    requires formed { C.PacketCipher.cipher.well_formed iv.now ≡ true }
    requires short { n ≤ 266 }
    requires room { 38 + n ≤ length out.old }
    ensures answer { result ≡ Ok (38 + n) }
    ensures out { out.new ≡ over (frame (core_command C.PacketCipher.cipher command key.now iv.now (take n (drop 20 out.old)))) out.old }
{
    out[3] = command;
    out[4..20].copy_from_slice(iv);
    C::seal(key, iv, &mut out[20..36 + n]);
    enclose(out, 33 + n).ok_or(Fault::OutputShort)
}

// Seals a data packet and writes its frame at the front of `out`.
pub fn pack_data<C: PacketCipher>(
    key: &[u8; 16],
    iv: &[u8; 16],
    packet: &DataPacket<'_>,
    out: &mut [u8],
) -> Result<usize, Fault>
    ensures answer { result ≡ frame_length (packed_data C.PacketCipher.cipher key.now iv.now packet.now (length out.old)) }
    ensures out { out.new ≡ laid (packed_data C.PacketCipher.cipher key.now iv.now packet.now (length out.old)) out.old }
    ensures back { IfOk result (OpensTo C.PacketCipher.cipher key.now iv.now (data_contents packet.now) out.new) }
{
    let n = packet.bytes.len();
    if !matches!(n, 1..=256) {
        return Err(Fault::DataCount);
    }
    if packet.address > 0xFFFFFF {
        return Err(Fault::OutsideMap);
    }
    C::check_iv(iv)?;
    if out.len() < 48 + n {
        return Err(Fault::OutputShort);
    }
    out[20..30].copy_from_slice(&packet.header());
    out[30..30 + n].copy_from_slice(packet.bytes);
    sealed_frame::<C>(DATA_COMMAND, key, iv, 10 + n, out)
}

// Seals a key packet under the key-encryption key and writes its frame at the front of `out`.
pub fn pack_key<C: PacketCipher>(
    kek: &[u8; 16],
    iv: &[u8; 16],
    packet: &KeyPacket,
    out: &mut [u8],
) -> Result<usize, Fault>
    ensures answer { result ≡ frame_length (packed_key C.PacketCipher.cipher kek.now iv.now packet.now (length out.old)) }
    ensures out { out.new ≡ laid (packed_key C.PacketCipher.cipher kek.now iv.now packet.now (length out.old)) out.old }
    ensures back { IfOk result (OpensTo C.PacketCipher.cipher kek.now iv.now (key_contents packet.now) out.new) }
{
    C::check_iv(iv)?;
    if out.len() < 56 {
        return Err(Fault::OutputShort);
    }
    out[20..38].copy_from_slice(&packet.contents());
    sealed_frame::<C>(KEY_COMMAND, kek, iv, 18, out)
}
