// Lines of the listing: the event that each says.
ghost use Rattle.std.specs.Prelude.{◌≡◌};
ghost use Rattle.listing.specs.Lines.{justified_decimal_read, event_of, line_event, supply_of};

use fault::Fault;
use memory::Supply;
use rules::Event;
use text::decimal::decimal;

// The supply of a power-up: the highest number is 'no end'. The listing's own rule, so no From of the memory's type.
fn supply(number: u32) -> Supply
    ensures { result ≡ supply_of number }
{
    match number {
        u32::MAX => Supply::NoEnd,
        steps => Supply::Steps(steps),
    }
}

// The event of a letter and a number; a byte comes with buffers of full size.
fn event(letter: u8, number: u32) -> Option<Event>
    ensures { result ≡ event_of letter number }
{
    match (letter, number) {
        (b'B', 0..=255) => Some(Event::Byte(number as u8, 11, 266)),
        (b'S', 0) => Some(Event::Silence),
        (b'Q', 0) => Some(Event::Question),
        (b'R', _) => Some(Event::PowerUp(supply(number))),
        _ => None,
    }
}

// The decimal number that ends in the last column, with spaces before it.
fn justified_decimal(columns: &[u8]) -> Option<u32>
    ensures { result ≡ justified_decimal_read columns.now }
{
    // `trim_ascii_start` would drop more than spaces.
    let mut rest = columns;
    while let [b' ', more @ ..] = rest {
        rest = more;
    }
    decimal(rest, u32::MAX)
}

// The event of a line without its end; refuses a malformed one.
pub fn read_line(line: &[u8]) -> Result<Event, Fault>
    ensures { result ≡ line_event line.now }
{
    let [letter, columns @ ..] = line else {
        return Err(Fault::BadLine);
    };
    if columns.len() != 11 {
        return Err(Fault::BadLine);
    }
    let number = justified_decimal(columns).ok_or(Fault::BadLine)?;
    event(*letter, number).ok_or(Fault::BadLine)
}
