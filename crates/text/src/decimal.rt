// Decimal numbers read, up to a limit.
ghost use Rattle.std.specs.Prelude.{◌≡◌};
ghost use Rattle.text.specs.Decimal.{decimal_read};

use crate::number::number;

// The number of the digits, of which there is at least one; none where a byte is no digit, or the number is above `max`.
pub fn decimal(text: &[u8], max: u32) -> Option<u32>
    ensures { result ≡ decimal_read max text.now }
{
    let value = number(text, 10, u64::from(max))?;
    u32::try_from(value).ok()
}
