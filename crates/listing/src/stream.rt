// A listing from a reader to a writer: its lines are read, and their rows written.
ghost use Rattle.std.specs.Prelude.{◌≡◌, [], Some, IfOk, IfSome, OnOk};
ghost use Rattle.std.specs.Io.BufRead.{take_through, DropsThrough};
ghost use Rattle.std.specs.Io.KnownBytes.{Appends};
ghost use Rattle.board.specs.State.{memory_of};
ghost use Rattle.listing.specs.Listing.{listing_rows, listing_state, reached_by};
ghost use Rattle.listing.specs.Streams.{LineRead, LinesReplayed};

use crate::rows::Detail;
use crate::waiting::{Bench, no_memory};
use board::Board;
use cipher::PacketCipher;
use memory::Powered;
use std::alloc::Global;
use std::io::{self, BufRead, Write};

// Reads up to the next line end, or to the end.
fn read_through<R: BufRead>(input: &mut R, line: &mut Vec<u8>) -> io::Result<()>
    ensures bytes { OnOk result (IfSome (R.remaining input.old) (λ xs. line.new.items ≡ take_through 0x0A xs)) }
    ensures rest { OnOk result (DropsThrough (R.remaining input.old) (R.remaining input.new) 0x0A) }
{
    line.clear();
    input.read_until(b'\n', line)?;
    Ok(())
}

// Reads the next line, without its end, and says whether there was one; bytes behind the last line end are none.
fn next_line<R: BufRead>(input: &mut R, line: &mut Vec<u8>) -> io::Result<bool>
    ensures { IfOk result (λ more. LineRead more (R.remaining input.old) (R.remaining input.new) line.new.items) }
{
    read_through(input, line)?;
    Ok(matches!(line.pop(), Some(b'\n')))
}

// Takes the lines that are left, and writes their rows behind those that wait; no call waits then. Says whether it came to the end: not
// where there are 2^64 - 1 lines.
fn replay_lines<M: Powered, C: PacketCipher, R: BufRead, W: Write>(
    heap: Global,
    bench: &mut Bench<M, C>,
    input: &mut R,
    output: &mut W,
) -> io::Result<bool>
    ensures { IfOk result (λ ended.
        LinesReplayed C.cipher ended (R.remaining input.old) (R.remaining input.new) (W.contents output.old) (W.contents output.new) (reached_by C.cipher bench.old) bench.new.board) }
{
    let mut line = Vec::new(heap);
    // Not the reader's lines(): it would also yield bytes behind the last line end.
    for _ in 0..u64::MAX {
        if !next_line(input, &mut line)? {
            bench.print(heap, output)?;
            return Ok(true);
        }
        bench.line(heap, &line).map_err(no_memory)?;
        bench.print_if_full(heap, output)?;
    }
    Ok(false)
}

// Replays a listing on a board: reads it to its end and writes the rows of all its lines, in order. Gives back the board's memory, as all
// calls left it. An error in reading or writing is its error.
pub fn replay_listing<M: Powered + Drop, C: PacketCipher, R: BufRead, W: Write>(
    heap: Global,
    board: Board<M, C>,
    detail: Detail,
    input: &mut R,
    output: &mut W,
) -> io::Result<M>
    ensures end { OnOk result (IfSome (R.remaining input.old) (λ xs. R.remaining input.new ≡ Some [])) }
    ensures rows { OnOk result (IfSome (R.remaining input.old) (λ xs. Appends (W.contents output.old) (W.contents output.new) (listing_rows C.cipher detail board xs))) }
    ensures memory { IfOk result (λ m. IfSome (R.remaining input.old) (λ xs. M.Memory.meaning m ≡ memory_of (listing_state C.cipher detail board xs))) }
{
    let mut bench = Bench::new(heap, board, detail);
    if !replay_lines(heap, &mut bench, input, output)? {
        return Err(io::Error::other("a listing has fewer than 2^64 - 1 lines"));
    }
    Ok(bench.into_memory())
}
