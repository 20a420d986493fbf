// What the arguments ask for. The first malformed one is named.
ghost use Rattle.std.specs.Prelude.{◌≡◌, IfErr, Some};
ghost use Rattle.std.specs.Result.{result_ok};
ghost use Rattle.pack.specs.Arguments.{mode_read, mode_text, data_read, key_read};
ghost use Rattle.pack.specs.declared.usage.Argument.TheVariants.{Cipher};

use crate::usage::Argument;
use std::fmt;
use std::str::FromStr;
use text::decimal::decimal;
use text::hex::{hex_block, hex_number};

#[derive(Clone, Copy)]
pub enum Mode {
    Ccm,
    Gcm,
}

impl fmt::Display for Mode {
    ghost output = { λ mode. Some (mode_text mode) };

    fn fmt<W: fmt::Write>(&self, f: &mut fmt::Formatter<W>) -> fmt::Result {
        f.write_str(match self {
            Mode::Ccm => "AES-128 CCM",
            Mode::Gcm => "AES-128 GCM",
        })
    }
}

impl FromStr for Mode {
    type Err = Argument;

    ghost from_str_gives = { λ word r. (result_ok r ≡ mode_read word) × IfErr r (λ e. e ≡ Cipher) };

    fn from_str(word: &str) -> Result<Self, Argument> {
        match word {
            "ccm" => Ok(Mode::Ccm),
            "gcm" => Ok(Mode::Gcm),
            _ => Err(Argument::Cipher),
        }
    }
}

// All of a data packet but its data.
#[derive(Clone, Copy)]
pub struct DataArguments {
    pub mode: Mode,
    pub key: [u8; 16],
    pub iv: [u8; 16],
    pub version: u8,
    pub number: u16,
    pub count: u16,
    pub address: u32,
}

#[derive(Clone, Copy)]
pub struct KeyArguments {
    pub mode: Mode,
    pub kek: [u8; 16],
    pub iv: [u8; 16],
    // A number: a packet of any type can be packed, and an enum of those known would ask more of callers.
    pub kind: u8,
    pub version: u8,
    pub key: [u8; 16],
}

// The arguments of a data packet, but for its data.
pub fn data_arguments(
    cipher: &str,
    key: &str,
    iv: &str,
    ver: &str,
    pn: &str,
    np: &str,
    address: &str,
) -> Result<DataArguments, Argument>
    ensures { result ≡ data_read cipher.now key.now iv.now ver.now pn.now np.now address.now }
{
    Ok(DataArguments {
        mode: cipher.parse()?,
        key: hex_block(key.as_bytes()).ok_or(Argument::Key)?,
        iv: hex_block(iv.as_bytes()).ok_or(Argument::Iv)?,
        version: decimal(ver.as_bytes(), 255).ok_or(Argument::Ver)? as u8,
        number: decimal(pn.as_bytes(), 65535).ok_or(Argument::Pn)? as u16,
        count: decimal(np.as_bytes(), 65535).ok_or(Argument::Np)? as u16,
        address: hex_number(address.as_bytes()).ok_or(Argument::Address)?,
    })
}

// The arguments of a key packet. No one function with that of data packets: what is wanted, and what is named, differs at each place.
pub fn key_arguments(
    cipher: &str,
    kek: &str,
    iv: &str,
    kt: &str,
    kv: &str,
    key: &str,
) -> Result<KeyArguments, Argument>
    ensures { result ≡ key_read cipher.now kek.now iv.now kt.now kv.now key.now }
{
    Ok(KeyArguments {
        mode: cipher.parse()?,
        kek: hex_block(kek.as_bytes()).ok_or(Argument::Kek)?,
        iv: hex_block(iv.as_bytes()).ok_or(Argument::Iv)?,
        kind: decimal(kt.as_bytes(), 255).ok_or(Argument::Kt)? as u8,
        version: decimal(kv.as_bytes(), 255).ok_or(Argument::Kv)? as u8,
        key: hex_block(key.as_bytes()).ok_or(Argument::Key)?,
    })
}
