// speed: does a few pieces of each work that is measured, and says how many were done; with the word `measure` it prints the nanoseconds that
// a piece of each takes.
#![tactic(auto)]

ghost use Rattle.std.specs.Prelude.{◌≡◌, ◌<◌};

mod calling;
mod filling;
mod opening;
mod sending;
mod work;

use anyhow::anyhow;
use fault::Fault;
use memory::{MAP_SIZE, sized};
use std::env;
use work::{ALL, Work};

const FEW: u32 = 3;

fn try_out(rt: &HostRuntime, image: &mut [u8; MAP_SIZE], work: Work) -> anyhow::Result<()> {
    let turn = work.turn(rt, image, FEW)?;
    println!(rt; "{work}: {} of {FEW} done", turn.done)?;
    Ok(())
}

// The least time of a piece in five turns.
fn least(rt: &HostRuntime, image: &mut [u8; MAP_SIZE], work: Work) -> anyhow::Result<u128> {
    let pieces = work.pieces();
    let mut least = u128::MAX;
    for _ in 0..5 {
        let turn = work.turn(rt, image, pieces)?;
        if turn.done != pieces as usize {
            return Err(anyhow!("{work}: {} of {pieces} done", turn.done));
        }
        least = least.min(turn.nanoseconds / u128::from(pieces));
    }
    Ok(least)
}

fn measure(rt: &HostRuntime, image: &mut [u8; MAP_SIZE], work: Work) -> anyhow::Result<()> {
    let least = least(rt, image, work)?;
    println!(rt; "{work} {least}")?;
    Ok(())
}

fn main(rt: HostRuntime) -> anyhow::Result<()> {
    let measures = env::args(&rt)?
        .nth(1)
        .is_some_and(|word| word.as_str() == "measure");
    let mut image = vec![in rt.alloc(); 0u8; MAP_SIZE]?;
    let image = sized(&mut image).ok_or(Fault::ImageSize)?;
    for work in ALL {
        if measures {
            measure(&rt, image, work)?;
        } else {
            try_out(&rt, image, work)?;
        }
    }
    Ok(())
}
