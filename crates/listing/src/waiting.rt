// A board whose calls are made in pieces: calls wait and are made together, and their rows wait to be printed, so that neither a long
// listing nor its rows have to stand in memory.
ghost use Rattle.std.specs.Prelude.{◌≡◌, ◌||◌, [], length, nat_le, IfOk, OnOk};
ghost use Rattle.std.specs.Io.KnownBytes.{Appends};
ghost use Rattle.std.specs.IoError.{error_kind};
ghost use Rattle.std.specs.declared.io.ErrorKind.TheVariants.{OutOfMemory};
ghost use Rattle.board.specs.State.{memory_of};
ghost use Rattle.listing.specs.Streams.{RowsMoved};
ghost use Rattle.listing.specs.Listing.{beginning, reached_by, with_line, without_rows};

use crate::lines::read_line;
use crate::replay::{number_after, replay};
use crate::rows::{Detail, write_row};
use board::Board;
use cipher::PacketCipher;
use memory::Powered;
use rules::Event;
use std::alloc::{AllocError, Global};
use std::io::{self, Write};

// The error of calls or rows that there is no memory for.
pub(crate) fn no_memory(_error: AllocError) -> io::Error
    ensures { error_kind result ≡ OutOfMemory }
{
    io::Error::new(io::ErrorKind::OutOfMemory, "memory allocation failed")
}

// A board, what rows show of refusals, the calls that wait, the number of the first of them, and rows that are not yet printed.
#[derive(Drop)]
pub(crate) struct Bench<M: Powered, C: PacketCipher> {
    board: Board<M, C>,
    detail: Detail,
    events: Vec<Event>,
    number: u64,
    rows: Vec<u8>,
}

impl<M: Powered, C: PacketCipher> Bench<M, C> {
    // A listing that has not begun; its events are numbered from 1.
    pub(crate) fn new(heap: Global, board: Board<M, C>, detail: Detail) -> Bench<M, C>
        ensures { reached_by C.cipher result ≡ beginning detail board }
    {
        Bench {
            board,
            detail,
            events: Vec::new(heap),
            number: 1,
            rows: Vec::new(heap),
        }
    }

    // Takes one line: a call waits, a malformed line gets its row at once, behind those of the calls before it.
    pub(crate) fn line(&mut self, heap: Global, line: &[u8]) -> Result<(), AllocError>
        ensures { IfOk result (λ u. reached_by C.cipher self.new ≡ with_line C.cipher line.now (reached_by C.cipher self.old)) }
    {
        match read_line(line) {
            Ok(event) => self.events.push(event)?,
            Err(fault) => {
                self.make_calls(heap)?;
                let rows = &mut self.rows;
                write_row(rows, self.detail, self.number, Some(fault), None, &[])?;
                self.number = number_after(self.number);
            }
        }
        Ok(())
    }

    // Makes the calls that wait, and writes their rows.
    pub(crate) fn make_calls(&mut self, heap: Global) -> Result<(), AllocError>
        ensures reached { IfOk result (λ u. reached_by C.cipher self.new ≡ reached_by C.cipher self.old) }
        ensures none { IfOk result (λ u. self.new.events.items ≡ []) }
    {
        self.number = replay(
            heap,
            &mut self.board,
            &self.events,
            self.detail,
            self.number,
            &mut self.rows,
        )?;
        self.events.clear();
        Ok(())
    }

    // Whether it is time to print.
    pub(crate) fn is_full(&self) -> bool
        ensures { result ≡ (nat_le 4096 (length self.now.events.items) || nat_le 65536 (length self.now.rows.items)) }
    {
        self.events.len() >= 4096 || self.rows.len() >= 65536
    }

    // Writes the rows of the calls that were made, and forgets them.
    fn write_rows<W: Write>(&mut self, output: &mut W) -> io::Result<()>
        ensures written { OnOk result (Appends (W.contents output.old) (W.contents output.new) self.old.rows.items) }
        ensures rows { OnOk result (self.new.rows.items ≡ []) }
        ensures board { OnOk result (self.new.board ≡ self.old.board) }
        ensures detail { OnOk result (self.new.detail ≡ self.old.detail) }
        ensures waiting { OnOk result (self.new.events.items ≡ self.old.events.items) }
        ensures number { OnOk result (self.new.number ≡ self.old.number) }
    {
        output.write_all(&self.rows)?;
        self.rows.clear();
        Ok(())
    }

    // Makes the calls that wait, and writes all rows.
    pub(crate) fn print<W: Write>(&mut self, heap: Global, output: &mut W) -> io::Result<()>
        ensures reached { OnOk result (reached_by C.cipher self.new ≡ without_rows (reached_by C.cipher self.old)) }
        ensures written { OnOk result (Appends (W.contents output.old) (W.contents output.new) (reached_by C.cipher self.old).rows) }
        ensures none { OnOk result (self.new.events.items ≡ []) }
    {
        self.make_calls(heap).map_err(no_memory)?;
        self.write_rows(output)?;
        Ok(())
    }

    // The memory, taken out of the board. The calls that wait are not made.
    pub(crate) fn into_memory(self) -> M
        ensures { M.Memory.meaning result ≡ memory_of self.board }
    {
        self.board.into_memory()
    }

    // Prints when it is time.
    pub(crate) fn print_if_full<W: Write>(&mut self, heap: Global, output: &mut W) -> io::Result<()>
        ensures { OnOk result (RowsMoved (W.contents output.old) (W.contents output.new) (reached_by C.cipher self.old) (reached_by C.cipher self.new)) }
    {
        if self.is_full() {
            self.print(heap, output)?;
        }
        Ok(())
    }
}
