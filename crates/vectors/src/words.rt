// A line cut into words, and the words that several kinds of cases share.
ghost use Rattle.std.specs.Prelude.{◌≡◌, map, vec_items, IfOk};
ghost use Rattle.std.specs.Result.{result_ok};
ghost use Rattle.text.specs.Decimal.{decimal_read};
ghost use Rattle.vectors.specs.Words.{data_read, key_read, mode_read, sealing_read, words_read};

use packer::{DataPacket, KeyPacket};
use std::alloc::{AllocError, Global};
use std::str::FromStr;
use text::decimal::decimal;
use text::hex::hex_block;

// The words of a line, cut at each space.
pub fn words_of(heap: Global, line: &str) -> Result<Vec<&str>, AllocError>
    ensures { IfOk result (λ words. map (λ w. w.now) (vec_items words) ≡ words_read line.now) }
{
    line.split(' ').collect(heap)
}

#[derive(Clone, Copy)]
pub enum Mode {
    Ccm,
    Gcm,
}

// What a packet is sealed with.
#[derive(Clone, Copy)]
pub struct Sealing {
    pub mode: Mode,
    pub key: [u8; 16],
    pub iv: [u8; 16],
}

// What a data packet says but for its data, and how many bytes the output has.
#[derive(Clone, Copy)]
pub struct DataFields {
    pub version: u8,
    pub number: u16,
    pub count: u16,
    pub address: u32,
    pub room: usize,
}

impl DataFields {
    pub fn packet<'a>(&self, bytes: &'a [u8]) -> DataPacket<'a>
        ensures { (result.version ≡ self.now.version) × (result.number ≡ self.now.number) × (result.count ≡ self.now.count) × (result.address ≡ self.now.address) × (result.bytes.now ≡ bytes.now) }
    {
        DataPacket {
            version: self.version,
            number: self.number,
            count: self.count,
            address: self.address,
            bytes,
        }
    }
}

impl FromStr for Mode {
    type Err = ();

    ghost from_str_gives = { λ word r. result_ok r ≡ mode_read word };

    fn from_str(word: &str) -> Result<Self, ()> {
        match word {
            "ccm" => Ok(Mode::Ccm),
            "gcm" => Ok(Mode::Gcm),
            _ => Err(()),
        }
    }
}

// The room of an output, in bytes.
pub fn room_of(word: &str) -> Option<usize>
    ensures { result ≡ decimal_read 4294967295 word.now }
{
    Some(decimal(word.as_bytes(), u32::MAX)? as usize)
}

// CIPHER, KEY or KEK, IV.
pub fn sealing_of(cipher: &str, key: &str, iv: &str) -> Option<Sealing>
    ensures { result ≡ sealing_read cipher.now key.now iv.now }
{
    Some(Sealing {
        mode: cipher.parse().ok()?,
        key: hex_block(key.as_bytes())?,
        iv: hex_block(iv.as_bytes())?,
    })
}

// VER, PN, NP, ADDRESS, ROOM.
pub fn data_fields(ver: &str, pn: &str, np: &str, address: &str, room: &str) -> Option<DataFields>
    ensures { result ≡ data_read ver.now pn.now np.now address.now room.now }
{
    Some(DataFields {
        version: decimal(ver.as_bytes(), 255)? as u8,
        number: decimal(pn.as_bytes(), 65535)? as u16,
        count: decimal(np.as_bytes(), 65535)? as u16,
        address: decimal(address.as_bytes(), u32::MAX)?,
        room: room_of(room)?,
    })
}

// KT, KV, KEY.
pub fn key_packet(kt: &str, kv: &str, key: &str) -> Option<KeyPacket>
    ensures { result ≡ key_read kt.now kv.now key.now }
{
    Some(KeyPacket {
        kind: decimal(kt.as_bytes(), 255)? as u8,
        version: decimal(kv.as_bytes(), 255)? as u8,
        key: hex_block(key.as_bytes())?,
    })
}
