// A board's calls, counted by what they answer.
ghost use Rattle.std.specs.Prelude.{◌≡◌, count_by, IfOk};
ghost use Rattle.rules.specs.Board.{history, run};
ghost use Rattle.board.specs.Running.{answers};
ghost use Rattle.speed.specs.Sending.{obeyed};

use board::{Answer, Board};
use cipher::PacketCipher;
use memory::Powered;
use rules::Event;
use std::alloc::{AllocError, Global};

// Whether a call obeyed a core command.
fn is_obeyed(answer: &Answer) -> bool
    ensures { result ≡ obeyed answer.now }
{
    answer.refusal().is_none() && !answer.sent().is_empty()
}

// Makes calls on a board, and says how many of them obeyed a core command.
pub fn obey<M: Powered, C: PacketCipher>(
    heap: Global,
    board: &mut Board<M, C>,
    calls: &[Event],
) -> Result<usize, AllocError>
    ensures count { IfOk result (λ n. n ≡ count_by obeyed (answers (history C.cipher board.old calls.now))) }
    ensures board { IfOk result (λ n. board.new ≡ run C.cipher board.old calls.now) }
{
    let answers = board.run(heap, calls)?;
    Ok(answers.iter().filter(|answer| is_obeyed(answer)).count())
}
