// The frame of a packet, which was opened again before it is given out.
ghost use Rattle.std.specs.Prelude.{◌≡◌, length, IfOk};
ghost use Rattle.packer.specs.Packets.{data_contents, key_contents};
ghost use Rattle.packer.specs.Packing.{packed_data, packed_key, OpensTo};
ghost use Rattle.pack.specs.Report.{cipher_of, data_packet, framed, key_packet};

use crate::arguments::{DataArguments, KeyArguments, Mode};
use crate::failure::Failure;
use crate::reopened::{FRAME_MAX, Frame, OpenedFrame, check_opens};
use cipher::{Aes128, BlockCipher, Ccm, Gcm, PacketCipher};
use packer::{DataPacket, KeyPacket, pack_data, pack_key};

// The frame of the data packet that the arguments ask for.
fn data_frame<C: PacketCipher>(a: &DataArguments, bytes: &[u8]) -> Result<OpenedFrame, Failure>
    ensures frame { result ≡ framed (packed_data C.PacketCipher.cipher a.now.key a.now.iv (data_packet a.now bytes.now) 304) }
    ensures opens { IfOk result (λ frame. OpensTo C.PacketCipher.cipher a.now.key a.now.iv (data_contents (data_packet a.now bytes.now)) frame (length frame)) }
{
    let packet = DataPacket {
        version: a.version,
        number: a.number,
        count: a.count,
        address: a.address,
        bytes,
    };
    let mut out = [0; FRAME_MAX];
    let length = pack_data::<C>(&a.key, &a.iv, &packet, &mut out)?;
    let opened = check_opens::<C>(&a.key, &a.iv, &out[20..length - 2], &packet.header(), bytes)?;
    Ok(OpenedFrame::of(opened, Frame::front(&out, length)))
}

// The frame of the key packet that the arguments ask for.
fn key_frame<C: PacketCipher>(a: &KeyArguments) -> Result<OpenedFrame, Failure>
    ensures frame { result ≡ framed (packed_key C.PacketCipher.cipher a.now.kek a.now.iv (key_packet a.now) 304) }
    ensures opens { IfOk result (λ frame. OpensTo C.PacketCipher.cipher a.now.kek a.now.iv (key_contents (key_packet a.now)) frame (length frame)) }
{
    let packet = KeyPacket {
        kind: a.kind,
        version: a.version,
        key: a.key,
    };
    let mut out = [0; FRAME_MAX];
    let length = pack_key::<C>(&a.kek, &a.iv, &packet, &mut out)?;
    let opened = check_opens::<C>(&a.kek, &a.iv, &out[20..length - 2], &packet.contents(), &[])?;
    Ok(OpenedFrame::of(opened, Frame::front(&out, length)))
}

// The frame of a data packet, sealed in the mode that the arguments name. A word chooses the type of the packet cipher: as a closure or a `dyn`
// it would be no plainer.
pub fn frame_of_data(a: &DataArguments, bytes: &[u8]) -> Result<OpenedFrame, Failure>
    ensures frame { result ≡ framed (packed_data (cipher_of a.now.mode) a.now.key a.now.iv (data_packet a.now bytes.now) 304) }
    ensures opens { IfOk result (λ frame. OpensTo (cipher_of a.now.mode) a.now.key a.now.iv (data_contents (data_packet a.now bytes.now)) frame (length frame)) }
{
    match a.mode {
        Mode::Ccm => data_frame::<Ccm<Aes128>>(a, bytes),
        Mode::Gcm => data_frame::<Gcm<Aes128>>(a, bytes),
    }
}

// The same for key packets.
pub fn frame_of_key(a: &KeyArguments) -> Result<OpenedFrame, Failure>
    ensures frame { result ≡ framed (packed_key (cipher_of a.now.mode) a.now.kek a.now.iv (key_packet a.now) 304) }
    ensures opens { IfOk result (λ frame. OpensTo (cipher_of a.now.mode) a.now.kek a.now.iv (key_contents (key_packet a.now)) frame (length frame)) }
{
    match a.mode {
        Mode::Ccm => key_frame::<Ccm<Aes128>>(a),
        Mode::Gcm => key_frame::<Gcm<Aes128>>(a),
    }
}
