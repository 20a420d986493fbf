// The answer to a case, a line of words; None where the line is no case.
ghost use Rattle.std.specs.Prelude.{◌≡◌, map, IfOk, vec_items};
ghost use Rattle.std.specs.Option.{option_map};
ghost use Rattle.vectors.specs.Answers.{opened};
ghost use Rattle.vectors.specs.Cases.{answer_read, block_read_answer, bytes_read, cipher_of, data_given, data_packed, key_given, key_packed, open_read, seal_read, sealed_short};

use crate::answers::{
    Bytes, ROOM_MAX, block_answer, data_answer, key_answer, open_answer, seal_answer,
};
use crate::words::{DataFields, Mode, Sealing, data_fields, key_packet, room_of, sealing_of};
use cipher::{Aes128, BlockCipher, Ccm, Gcm};
use fault::Fault;
use packer::{DataPacket, KeyPacket};
use std::alloc::{AllocError, Global};
use text::hex::{hex_block, hex_bytes};

pub type Answer = Result<Bytes, Fault>;

// Bytes as pairs of digits run together, or "-" for none.
fn bytes_of(heap: Global, word: &str) -> Result<Option<Vec<u8>>, AllocError>
    ensures { IfOk result (λ o. option_map vec_items o ≡ bytes_read word.now) }
{
    match word.as_bytes() {
        b"" => Ok(None),
        b"-" => hex_bytes(heap, b""),
        digits => hex_bytes(heap, digits),
    }
}

fn block_case(key: &str, block: &str) -> Option<Answer>
    ensures { result ≡ block_read_answer key.now block.now }
{
    let key = hex_block(key.as_bytes())?;
    let block = hex_block(block.as_bytes())?;
    Some(Ok(block_answer(&key, &block)))
}

fn seal_with(with: &Sealing, contents: &[u8]) -> Option<Answer>
    ensures { result ≡ sealed_short (cipher_of with.now.mode) with.now.key with.now.iv contents.now }
{
    if contents.len() > 266 {
        return None;
    }
    Some(match with.mode {
        Mode::Ccm => seal_answer::<Ccm<Aes128>>(&with.key, &with.iv, contents),
        Mode::Gcm => seal_answer::<Gcm<Aes128>>(&with.key, &with.iv, contents),
    })
}

fn open_with(with: &Sealing, body: &[u8]) -> Answer
    ensures { result ≡ opened (cipher_of with.now.mode) with.now.key with.now.iv body.now }
{
    match with.mode {
        Mode::Ccm => open_answer::<Ccm<Aes128>>(&with.key, &with.iv, body),
        Mode::Gcm => open_answer::<Gcm<Aes128>>(&with.key, &with.iv, body),
    }
}

fn data_with(with: &Sealing, packet: &DataPacket<'_>, room: usize) -> Option<Answer>
    ensures { result ≡ data_packed (cipher_of with.now.mode) with.now.key with.now.iv packet.now room }
{
    if room > ROOM_MAX {
        return None;
    }
    Some(match with.mode {
        Mode::Ccm => data_answer::<Ccm<Aes128>>(&with.key, &with.iv, packet, room),
        Mode::Gcm => data_answer::<Gcm<Aes128>>(&with.key, &with.iv, packet, room),
    })
}

fn key_with(with: &Sealing, packet: &KeyPacket, room: usize) -> Option<Answer>
    ensures { result ≡ key_packed (cipher_of with.now.mode) with.now.key with.now.iv packet.now room }
{
    if room > ROOM_MAX {
        return None;
    }
    Some(match with.mode {
        Mode::Ccm => key_answer::<Ccm<Aes128>>(&with.key, &with.iv, packet, room),
        Mode::Gcm => key_answer::<Gcm<Aes128>>(&with.key, &with.iv, packet, room),
    })
}

fn seal_case(
    heap: Global,
    cipher: &str,
    key: &str,
    iv: &str,
    contents: &str,
) -> Result<Option<Answer>, AllocError>
    ensures { IfOk result (λ o. o ≡ seal_read cipher.now key.now iv.now contents.now) }
{
    let (Some(with), Some(bytes)) = (sealing_of(cipher, key, iv), bytes_of(heap, contents)?) else {
        return Ok(None);
    };
    Ok(seal_with(&with, &bytes))
}

fn open_case(
    heap: Global,
    cipher: &str,
    key: &str,
    iv: &str,
    body: &str,
) -> Result<Option<Answer>, AllocError>
    ensures { IfOk result (λ o. o ≡ open_read cipher.now key.now iv.now body.now) }
{
    let (Some(with), Some(bytes)) = (sealing_of(cipher, key, iv), bytes_of(heap, body)?) else {
        return Ok(None);
    };
    Ok(Some(open_with(&with, &bytes)))
}

fn data_case(
    heap: Global,
    with: Option<Sealing>,
    fields: Option<DataFields>,
    data: &str,
) -> Result<Option<Answer>, AllocError>
    ensures { IfOk result (λ o. o ≡ data_given with fields «data».now) }
{
    let (Some(with), Some(fields), Some(bytes)) = (with, fields, bytes_of(heap, data)?) else {
        return Ok(None);
    };
    let packet = fields.packet(&bytes);
    Ok(data_with(&with, &packet, fields.room))
}

fn key_case(with: Option<Sealing>, packet: Option<KeyPacket>, room: Option<usize>) -> Option<Answer>
    ensures { result ≡ key_given with packet room }
{
    key_with(&with?, &packet?, room?)
}

// The answer to the words of a case.
pub(crate) fn answer_to(heap: Global, words: &[&str]) -> Result<Option<Answer>, AllocError>
    ensures { IfOk result (λ o. o ≡ answer_read (map (λ w. w.now) words.now)) }
{
    match words {
        ["block", key, block] => Ok(block_case(key, block)),
        ["seal", cipher, key, iv, contents] => seal_case(heap, cipher, key, iv, contents),
        ["open", cipher, key, iv, body] => open_case(heap, cipher, key, iv, body),
        ["data", cipher, key, iv, ver, pn, np, address, room, data] => {
            let fields = data_fields(ver, pn, np, address, room);
            data_case(heap, sealing_of(cipher, key, iv), fields, data)
        }
        ["key", cipher, kek, iv, kt, kv, room, key] => Ok(key_case(
            sealing_of(cipher, kek, iv),
            key_packet(kt, kv, key),
            room_of(room),
        )),
        _ => Ok(None),
    }
}
