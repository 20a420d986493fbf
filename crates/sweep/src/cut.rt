// One cut: the power goes while something is sent, comes back, and something is sent again; and what the board says to boot questions.
ghost use Rattle.std.specs.Prelude.{◌≡◌, IfOk, OnOk};
ghost use Rattle.cipher.specs.Aes.{aes};
ghost use Rattle.cipher.specs.Ccm.{ccm};
ghost use Rattle.rules.specs.Board.{run};
ghost use Rattle.sweep.specs.Cuts.{board_on, cut_at, cut_of, half_of, power_back, said_at, steps_of, steps_taken};
ghost use Rattle.sweep.specs.Kinds.{snapshot_meaning};
ghost use Rattle.sweep.specs.Programs.{program_left};

use crate::kind::Kept;
use crate::plans::Plan;
use crate::programs::lay_program;
use crate::snapshot::Snapshot;
use board::Board;
use cipher::{Aes128, BlockCipher, Ccm, PacketCipher};
use memory::{Memory, Powered, Supply};
use rules::{Boot, Event};
use std::alloc::{AllocError, Global};

// More steps than any packet or command takes.
const LARGE: u32 = 1_000_000;

// What the board said with the power gone, with the power back, and when something was sent again, none where it refused; and whether it said
// of a half program that it is an application.
#[derive(Clone, Copy)]
pub struct Cut {
    pub gone: Option<Boot>,
    pub back: Option<Boot>,
    pub again: Option<Boot>,
    pub half: bool,
}

// Room for what stands in a memory with the power back, when something was sent again, and when the new program is laid over.
#[derive(Drop)]
pub struct Room {
    back: Snapshot,
    again: Snapshot,
    laid: Snapshot,
}

impl Room {
    pub(crate) fn new(heap: Global) -> Result<Room, AllocError> {
        Ok(Room {
            back: Snapshot::new(heap)?,
            again: Snapshot::new(heap)?,
            laid: Snapshot::new(heap)?,
        })
    }
}

// Makes calls with power for so many steps and asks the boot question; then turns the power on and asks again.
fn ask_twice<M: Powered, C: PacketCipher>(
    heap: Global,
    board: &mut Board<M, C>,
    calls: &[Event],
    steps: u32,
) -> Result<(Option<Boot>, Option<Boot>), AllocError>
    ensures gone { IfOk result (λ said. said.0 ≡ said_at C.cipher (cut_at C.cipher steps calls.now board.old)) }
    ensures back { IfOk result (λ said. said.1 ≡ said_at C.cipher (power_back C.cipher (cut_at C.cipher steps calls.now board.old))) }
    ensures left { OnOk result (board.new ≡ power_back C.cipher (cut_at C.cipher steps calls.now board.old)) }
{
    board.power_up(Supply::Steps(steps));
    board.run(heap, calls)?;
    let gone = board.boot().ok();
    board.power_up(Supply::NoEnd);
    let back = board.boot().ok();
    Ok((gone, back))
}

// Makes calls, and asks.
fn ask_after<M: Powered, C: PacketCipher>(
    heap: Global,
    board: &mut Board<M, C>,
    calls: &[Event],
) -> Result<Option<Boot>, AllocError>
    ensures said { IfOk result (λ said. said ≡ said_at C.cipher (run C.cipher board.old calls.now)) }
    ensures left { OnOk result (board.new ≡ run C.cipher board.old calls.now) }
{
    board.run(heap, calls)?;
    Ok(board.boot().ok())
}

// Lays the new program over what stood somewhere, and saves what stands there then.
fn lay_over<M: Kept>(memory: M, stood: &Snapshot, laid: &mut Snapshot) -> anyhow::Result<M>
    ensures { OnOk result (snapshot_meaning M.clear laid.new ≡ program_left 2 (snapshot_meaning M.clear stood.now)) }
{
    let mut memory = memory.restored(stood);
    lay_program(&mut memory, 2)?;
    let memory = memory.saved(laid)?;
    Ok(memory)
}

// Whether a board that said this boots a half program: it says that there is an application, and its image is neither the old program's,
// nor what stood there before with the new program laid over.
fn is_half<M: Kept>(
    memory: M,
    said: Option<Boot>,
    old: &Snapshot,
    stood: &Snapshot,
    stands: &Snapshot,
    laid: &mut Snapshot,
) -> anyhow::Result<(bool, M)>
    ensures { IfOk result (λ r. r.0 ≡ half_of said (snapshot_meaning M.clear old.now) (snapshot_meaning M.clear stood.now) (snapshot_meaning M.clear stands.now)) }
{
    if !matches!(said, Some(Boot::Application)) {
        return Ok((false, memory));
    }
    let memory = lay_over(memory, stood, laid)?;
    let whole = stands.image == old.image || stands.image == laid.image;
    Ok((!whole, memory))
}

// Cuts the power after so many steps of what a plan sends first, on what stands in a snapshot; and sends the rest on the memory that the cut left.
pub(crate) fn cut_power<M: Kept>(
    heap: Global,
    memory: M,
    old: &Snapshot,
    room: &mut Room,
    plan: &Plan,
    steps: u32,
) -> anyhow::Result<(Cut, M)>
    ensures { IfOk result (λ r. r.0 ≡ cut_of steps plan.now.cut.items plan.now.again.items (snapshot_meaning M.clear old.now)) }
{
    let mut board = Board::<M, Ccm<Aes128>>::new(memory.restored(old));
    let (gone, back) = ask_twice(heap, &mut board, &plan.cut, steps)?;
    let memory = board.into_memory().saved(&mut room.back)?;
    let mut board = Board::<M, Ccm<Aes128>>::new(memory);
    let again = ask_after(heap, &mut board, &plan.again)?;
    let memory = board.into_memory().saved(&mut room.again)?;
    let (half_back, memory) = is_half(memory, back, old, old, &room.back, &mut room.laid)?;
    let (half_again, memory) = is_half(
        memory,
        again,
        old,
        &room.back,
        &room.again,
        &mut room.laid,
    )?;
    let cut = Cut {
        gone,
        back,
        again,
        half: half_back | half_again,
    };
    Ok((cut, memory))
}

// How many of the steps are used up.
fn steps_taken(supply: Supply) -> u32
    ensures { result ≡ steps_taken supply }
{
    match supply {
        Supply::Steps(left) => LARGE.saturating_sub(left),
        Supply::NoEnd => 0,
    }
}

// How many storing steps the calls take, with a supply that is larger.
pub(crate) fn count_steps<M: Kept>(
    heap: Global,
    memory: M,
    old: &Snapshot,
    calls: &[Event],
) -> anyhow::Result<(u32, M)>
    ensures { IfOk result (λ r. r.0 ≡ steps_of calls.now (snapshot_meaning M.clear old.now)) }
{
    let mut board = Board::<M, Ccm<Aes128>>::new(memory.restored(old));
    board.power_up(Supply::Steps(LARGE));
    board.run(heap, calls)?;
    let mut memory = board.into_memory();
    let left = memory.supply();
    Ok((steps_taken(left), memory))
}
