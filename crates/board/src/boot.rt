// What a boot question finds in a memory.
ghost use Rattle.std.specs.Prelude.{◌≡◌};
ghost use Rattle.rules.specs.Board.{boot};
ghost use Rattle.memory.specs.Meaning.{read_of};
ghost use Rattle.board.specs.Booting.{reads_blank};

use memory::{Memory, VECTOR_HIGH, VECTOR_LOW};
use rules::Boot;

// Whether the byte at an address is blank.
fn is_blank<M: Memory>(memory: &mut M, address: u32) -> bool
    ensures same { M.meaning memory.new ≡ M.meaning memory.old }
    ensures value { result ≡ reads_blank (read_of (M.meaning memory.old).contents address) }
{
    matches!(memory.read(address), Ok(0xFF))
}

pub(crate) fn boot_of<M: Memory>(memory: &mut M) -> Boot
    ensures same { M.meaning memory.new ≡ M.meaning memory.old }
    ensures value { result ≡ boot (M.meaning memory.old).contents }
{
    if memory.record().unfinished {
        return Boot::Unfinished;
    }
    let low = is_blank(memory, VECTOR_LOW);
    let high = is_blank(memory, VECTOR_HIGH);
    if low && high {
        Boot::Blank
    } else {
        Boot::Application
    }
}
