// Loops of storing steps over any memory: bytes stored upward, and the mass erase.
ghost use Rattle.std.specs.Prelude.{◌≡◌, true, length};
ghost use Rattle.memory.specs.Laws.{StoresAreReadBack};
ghost use Rattle.memory.specs.Meaning.{Performs, all_in_map};
ghost use Rattle.memory.specs.Steps.{data_answer, data_left, erase_steps, erased, round, round_steps, store_up, EraseAsWritten};

use crate::areas::{AREAS, Area, VECTOR_LOW, check_range};
use crate::memory::Memory;
use fault::Fault;

// Stores the bytes upward from an address, all of them at addresses of the map.
fn store_up<M: Memory>(memory: &mut M, address: u32, bytes: &[u8]) -> Result<(), Fault>
    requires { all_in_map (store_up address bytes.now) ≡ true }
    ensures { Performs (store_up address bytes.now) (M.meaning memory.old) (M.meaning memory.new) result }
{
    for (at, byte) in (address..).zip(bytes) {
        memory.store(at, *byte)?;
    }
    Ok(())
}

// Stores the bytes upward from an address; refuses bytes outside the map before the first step.
pub fn store_data<M: Memory>(memory: &mut M, address: u32, bytes: &[u8]) -> Result<(), Fault>
    ensures after { M.meaning memory.new ≡ data_left address bytes.now (M.meaning memory.old) }
    ensures value { result ≡ data_answer address bytes.now (M.meaning memory.old) }
    ensures read_back { StoresAreReadBack (M.meaning memory.old) }
{
    check_range(address, bytes.len())?;
    store_up(memory, address, bytes)
}

// Blanks what is erased of an area. A loop of its own beside that of `store_up`: one over any iterator would be no plainer, since its
// contract would have to say what the iterator gives.
fn erase_area<M: Memory>(memory: &mut M, area: &Area) -> Result<(), Fault>
    requires { all_in_map (erased area.now) ≡ true }
    ensures { Performs (erased area.now) (M.meaning memory.old) (M.meaning memory.new) result }
{
    if let Some(range) = &area.erase {
        for address in range.first..=range.erase_last() {
            memory.store(address, 0xFF)?;
        }
    }
    Ok(())
}

// Blanks what is erased of an area, if it is the area of the vector or, in the other round, if it is not.
fn erase_in_round<M: Memory>(memory: &mut M, area: &Area, vector: bool) -> Result<(), Fault>
    requires { all_in_map (round vector area.now) ≡ true }
    ensures { Performs (round vector area.now) (M.meaning memory.old) (M.meaning memory.new) result }
{
    if area.holds(VECTOR_LOW) == vector {
        return erase_area(memory, area);
    }
    Ok(())
}

// Walks the table of areas, and blanks the area of the vector or, in the other round, the others.
fn erase_round<M: Memory>(memory: &mut M, vector: bool) -> Result<(), Fault>
    ensures { Performs (round_steps vector) (M.meaning memory.old) (M.meaning memory.new) result }
{
    for area in &AREAS {
        erase_in_round(memory, area, vector)?;
    }
    Ok(())
}

// Blanks the vector, then the rest of its area, then the other areas in map order.
pub fn mass_erase<M: Memory>(memory: &mut M) -> Result<(), Fault>
    ensures made { Performs erase_steps (M.meaning memory.old) (M.meaning memory.new) result }
    ensures written { EraseAsWritten }
    ensures count { length erase_steps ≡ 60479 }
{
    memory.set_vector(0xFF, 0xFF)?;
    erase_round(memory, true)?;
    erase_round(memory, false)
}
