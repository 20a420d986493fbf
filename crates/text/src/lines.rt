// Bytes shown as capital hexadecimal pairs, sixteen to a line.
ghost use Rattle.std.specs.Prelude.{◌≡◌, Some};
ghost use Rattle.std.specs.Fmt.{WritesOnOk};
ghost use Rattle.text.specs.Lines.{pair_text, separator, hex_lines};

use std::fmt;

// One space between two bytes of a line, a line's end between two lines; no text for no bytes.
#[derive(Clone, Copy)]
pub struct HexLines<'a> {
    pub bytes: &'a [u8],
}

// What stands before the byte with the index `i`.
fn separator(i: usize) -> &'static str
    ensures { result.now ≡ separator i }
{
    if i == 0 {
        ""
    } else if i % 16 == 0 {
        "\n"
    } else {
        " "
    }
}

// Writes the two digits of a byte.
fn write_pair<W: fmt::Write>(f: &mut fmt::Formatter<W>, b: u8) -> fmt::Result
    ensures { WritesOnOk W.write_str_gives f.old result (pair_text b) f.new }
{
    write!(f, "{b:02X}")
}

impl fmt::Display for HexLines<'_> {
    ghost output = { λ x. Some (hex_lines x.bytes.now) };

    fn fmt<W: fmt::Write>(&self, f: &mut fmt::Formatter<W>) -> fmt::Result {
        for (i, b) in self.bytes.iter().enumerate() {
            f.write_str(separator(i))?;
            write_pair(f, *b)?;
        }
        Ok(())
    }
}
