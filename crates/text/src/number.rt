// Numbers read, in a radix.
ghost use Rattle.std.specs.Prelude.{◌≡◌, ◌-◌, ◌^◌, ◌≤◌, min};
ghost use Rattle.std.specs.Option.{option_map};
ghost use Rattle.text.specs.Decimal.{at_most};
ghost use Rattle.text.specs.Numbers.{and_then, digit_in, number_of};

// The value of a digit.
pub(crate) fn digit(b: u8, radix: u32) -> Option<u8>
    requires low { 2 ≤ radix }
    requires high { radix ≤ 36 }
    ensures { result ≡ digit_in radix b }
{
    let value = char::from(b).to_digit(radix)?;
    Some(value as u8)
}

// The number of the digits, of which there is at least one; a number above 2^64 - 1 reads as 2^64 - 1. None where it is above `most`: what
// follows the digit that takes it there is not read.
pub(crate) fn number(text: &[u8], radix: u32, most: u64) -> Option<u64>
    requires low { 2 ≤ radix }
    requires high { radix ≤ 36 }
    ensures { result ≡ and_then (option_map (min (2 ^ 64 - 1)) (number_of (digit_in radix) radix text.now)) (at_most most) }
{
    if text.is_empty() {
        return None;
    }
    let mut value: u64 = 0;
    for b in text {
        let digit = digit(*b, radix)?;
        value = value
            .saturating_mul(u64::from(radix))
            .saturating_add(u64::from(digit));
        if value > most {
            return None;
        }
    }
    Some(value)
}
