// Hexadecimal text read: single digits, bytes of two digits each, blocks of sixteen bytes, and numbers behind "0x".
ghost use Rattle.std.specs.Prelude.{◌≡◌, ◌+◌, ◌*◌, ◌<◌, length, IfOk, vec_items};
ghost use Rattle.std.specs.Option.{option_map};
ghost use Rattle.text.specs.Hex.{block_read, hex_number_read, hex_pair, hex_read, hex_value};

use crate::number::{digit, number};
use std::alloc::{AllocError, Global};

// The value of a digit.
fn hex_digit(b: u8) -> Option<u8>
    ensures { result ≡ hex_value b }
{
    digit(b, 16)
}

// The byte of two digits, the high one first.
fn hex_byte(high: u8, low: u8) -> Option<u8>
    ensures { result ≡ hex_pair high low }
{
    let h = hex_digit(high)?;
    let l = hex_digit(low)?;
    Some(h * 16 + l)
}

// Reads two digits for each byte; none where one is no digit.
fn read_bytes(text: &[u8], bytes: &mut [u8]) -> Option<()>
    requires { length text.now ≡ 2 * length bytes.old }
    ensures { option_map (λ _. bytes.new) result ≡ hex_read text.now }
{
    let (pairs, _) = text.as_chunks::<2>();
    // By index: with iter_mut a loop's invariant can't name what was written.
    for (i, [high, low]) in pairs.iter().enumerate() {
        bytes[i] = hex_byte(*high, *low)?;
    }
    Some(())
}

// The bytes of the text, two digits each; none where a digit is missing or is no digit.
pub fn hex_bytes(heap: Global, text: &[u8]) -> Result<Option<Vec<u8>>, AllocError>
    ensures { IfOk result (λ o. option_map vec_items o ≡ hex_read text.now) }
{
    if text.len() % 2 != 0 {
        return Ok(None);
    }
    let (pairs, _) = text.as_chunks::<2>();
    // Room for the data of one packet, and more as bytes come: a long text that says no bytes takes no memory for them.
    let mut bytes = Vec::with_capacity(heap, pairs.len().min(256))?;
    for [high, low] in pairs {
        match hex_byte(*high, *low) {
            Some(byte) => bytes.push(byte)?,
            None => return Ok(None),
        }
    }
    Ok(Some(bytes))
}

// The sixteen bytes of 32 digits; none for another text.
pub fn hex_block(text: &[u8]) -> Option<[u8; 16]>
    ensures { result ≡ block_read text.now }
{
    if text.len() != 32 {
        return None;
    }
    let mut block = [0; 16];
    read_bytes(text, &mut block)?;
    Some(block)
}

// The number behind "0x", at most 2^32 - 1; none where the text begins otherwise, has no digit, or a byte is no digit.
pub fn hex_number(text: &[u8]) -> Option<u32>
    ensures { result ≡ hex_number_read text.now }
{
    let digits = text.strip_prefix(b"0x")?;
    let value = number(digits, 16, u64::MAX)?;
    Some(u32::try_from(value).unwrap_or(u32::MAX))
}
