// Calls made on a board in one run, and the rows that they print.
ghost use Rattle.std.specs.Prelude.{◌≡◌, IfOk};
ghost use Rattle.listing.specs.Replaying.{Printed, Replayed, next_number};

use crate::rows::{Detail, write_row};
use board::{Answer, Board};
use cipher::PacketCipher;
use memory::Powered;
use rules::Event;
use std::alloc::{AllocError, Global};

// The number of the event after one; events are numbered modulo 1,000,000.
pub(crate) fn number_after(number: u64) -> u64
    ensures { result ≡ next_number number }
{
    (number % 1_000_000 + 1) % 1_000_000
}

// Appends a row for each answer, numbered from `number` on, and says the number after the last.
fn write_rows(
    rows: &mut Vec<u8>,
    detail: Detail,
    number: u64,
    answers: &[Answer],
) -> Result<u64, AllocError>
    ensures { IfOk result (Printed detail number answers.now rows.old.items rows.new.items) }
{
    // Carried along, since numbers begin again at 1,000,000, and the one after the last is the result.
    let mut next = number;
    for answer in answers {
        write_row(
            rows,
            detail,
            next,
            answer.refusal(),
            answer.boot(),
            answer.sent(),
        )?;
        next = number_after(next);
    }
    Ok(next)
}

// Makes the calls on the board, appends a row for each, numbered from `number` on, and says the number after the last.
pub fn replay<M: Powered, C: PacketCipher>(
    heap: Global,
    board: &mut Board<M, C>,
    events: &[Event],
    detail: Detail,
    number: u64,
    rows: &mut Vec<u8>,
) -> Result<u64, AllocError>
    ensures { IfOk result (Replayed C.cipher board.old events.now detail number rows.old.items board.new rows.new.items) }
{
    let answers = board.run(heap, events)?;
    write_rows(rows, detail, number, &answers)
}
