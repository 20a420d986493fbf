// Cases from a reader to a writer: their lines are read, and their rows written.
ghost use Rattle.std.specs.Prelude.{◌≡◌, [], ◌++◌, IfOk, IfSome, OnOk, string_bytes};
ghost use Rattle.std.specs.Io.KnownBytes.{Appends};
ghost use Rattle.vectors.specs.Streams.{RowsMoved, line_row, rows_of};

use crate::cases::answer_to;
use crate::texts::push_answer;
use crate::words::words_of;
use std::alloc::{AllocError, Global};
use std::io::{self, BufRead, Write};

// Appends the row of a line.
fn push_row(heap: Global, rows: &mut String, line: &str) -> Result<(), AllocError>
    ensures { IfOk result (λ u. string_bytes rows.new ≡ string_bytes rows.old ++ line_row line.now) }
{
    let words = words_of(heap, line)?;
    push_answer(rows, &answer_to(heap, &words)?)
}

// Writes the rows that wait, and forgets them.
fn write_rows<W: Write>(rows: &mut String, output: &mut W) -> io::Result<()>
    ensures written { OnOk result (Appends (W.contents output.old) (W.contents output.new) (string_bytes rows.old)) }
    ensures rows { OnOk result (string_bytes rows.new ≡ []) }
{
    output.write_all(rows.as_bytes())?;
    rows.clear();
    Ok(())
}

// Writes the rows when there are many, so that not all have to stand in memory.
fn write_many_rows<W: Write>(rows: &mut String, output: &mut W) -> io::Result<()>
    ensures { OnOk result (RowsMoved (W.contents output.old) (W.contents output.new) (string_bytes rows.old) (string_bytes rows.new)) }
{
    if rows.len() > 65536 {
        write_rows(rows, output)?;
    }
    Ok(())
}

// Reads cases to the input's end and writes the rows of all its lines, in order. An error in reading or writing is its error.
pub(crate) fn answer_lines<R: BufRead + Drop, W: Write>(
    heap: Global,
    input: R,
    output: &mut W,
) -> io::Result<()>
    ensures { OnOk result (IfSome (R.remaining input) (λ bytes. Appends (W.contents output.old) (W.contents output.new) (rows_of bytes))) }
{
    let mut rows = String::new(heap);
    for line in input.lines(heap) {
        push_row(heap, &mut rows, line?.as_str())?;
        write_many_rows(&mut rows, output)?;
    }
    write_rows(&mut rows, output)?;
    Ok(())
}
