// Answers as text.
ghost use Rattle.std.specs.Prelude.{◌≡◌, ◌++◌, IfOk, string_bytes};
ghost use Rattle.text.specs.Lines.{pair_text};
ghost use Rattle.vectors.specs.Texts.{bytes_text, pairs_text, row_text};

use crate::cases::Answer;
use fault::Fault;
use std::alloc::AllocError;
use std::fmt::Write;

// Appends the two digits of a byte.
fn push_pair(out: &mut String, b: u8) -> Result<(), AllocError>
    ensures { IfOk result (λ u. string_bytes out.new ≡ string_bytes out.old ++ pair_text b) }
{
    write!(out, "{b:02X}")?;
    Ok(())
}

// Appends bytes as capital hexadecimal pairs run together.
fn push_pairs(out: &mut String, bytes: &[u8]) -> Result<(), AllocError>
    ensures { IfOk result (λ u. string_bytes out.new ≡ string_bytes out.old ++ pairs_text bytes.now) }
{
    for b in bytes {
        push_pair(out, *b)?;
    }
    Ok(())
}

// Appends bytes, "-" for none.
fn push_bytes(out: &mut String, bytes: &[u8]) -> Result<(), AllocError>
    ensures { IfOk result (λ u. string_bytes out.new ≡ string_bytes out.old ++ bytes_text bytes.now) }
{
    if bytes.is_empty() {
        out.push_str("-")?;
    }
    push_pairs(out, bytes)
}

// Appends the row of an answer: bytes, or the refusal, or that the line is no case.
pub fn push_answer(out: &mut String, answer: &Option<Answer>) -> Result<(), AllocError>
    ensures { IfOk result (λ u. string_bytes out.new ≡ string_bytes out.old ++ row_text answer.now) }
{
    match answer {
        None => out.push_str("malformed")?,
        Some(Ok(bytes)) => push_bytes(out, bytes.as_slice())?,
        Some(Err(fault)) => write!(out, "refused {} {}", fault.number(), fault.place())?,
    }
    out.push('\n')?;
    Ok(())
}
