// Two programs at the same places of the map, an old one and a new one, among bytes that fill the rest of it.
ghost use Rattle.std.specs.Prelude.{◌≡◌, ◌%◌, true, OnOk};
ghost use Rattle.memory.specs.Meaning.{Performs, all_in_map};
ghost use Rattle.sweep.specs.Fillings.{area_fillers, map_fillers};
ghost use Rattle.sweep.specs.Programs.{prepared, program_answer, program_left};

use fault::Fault;
use memory::{AREAS, Area, Memory, store_data};

// What stands at an address where there is no program: never 0xFF, so that each step of an erase shows.
fn filler(address: u32) -> u8
    ensures { result ≡ address % 251 }
{
    (address % 251) as u8
}

fn fill_area<M: Memory>(memory: &mut M, area: &Area) -> Result<(), Fault>
    requires { all_in_map (area_fillers area.now) ≡ true }
    ensures { Performs (area_fillers area.now) (M.meaning memory.old) (M.meaning memory.new) result }
{
    for address in area.first..=area.last {
        memory.store(address, filler(address))?;
    }
    Ok(())
}

// Fills the map.
pub(crate) fn fill<M: Memory>(memory: &mut M) -> Result<(), Fault>
    ensures { Performs map_fillers (M.meaning memory.old) (M.meaning memory.new) result }
{
    for area in AREAS.iter() {
        fill_area(memory, area)?;
    }
    Ok(())
}

// Lays the program of a version over what stands there: 512 bytes of the version's number, and the reset vector.
pub(crate) fn lay_program<M: Memory>(memory: &mut M, version: u8) -> Result<(), Fault>
    ensures after { M.meaning memory.new ≡ program_left version (M.meaning memory.old) }
    ensures value { result ≡ program_answer version (M.meaning memory.old) }
{
    store_data(memory, 0x4400, &[version; 512])?;
    store_data(memory, 0xFFFE, &[0x00, 0x44])
}

// Fills the map, and lays the program of a version over it.
pub(crate) fn prepare<M: Memory>(memory: &mut M, version: u8) -> Result<(), Fault>
    ensures { OnOk result (M.meaning memory.new ≡ prepared version (M.meaning memory.old)) }
{
    fill(memory)?;
    lay_program(memory, version)?;
    Ok(())
}
