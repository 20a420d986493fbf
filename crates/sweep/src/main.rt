// sweep: cuts the power of a board at every storing step of an update, a key update and a mass erase, and tells what the board says then,
// when the power is back, and when the update was sent again.
#![tactic(auto)]

ghost use Rattle.std.specs.Prelude.{◌≡◌, ◌<◌, ⊤, IfOk, MatchOption};
ghost use Rattle.memory.specs.Lent.{meaning_of};
ghost use Rattle.memory.specs.Scrambled.{clear_meaning};
ghost use Rattle.memory.specs.declared.supply.Supply.TheVariants.{NoEnd};
ghost use Rattle.sweep.specs.Counts.{both};
ghost use Rattle.sweep.specs.Kinds.{snapshot_meaning};
ghost use Rattle.sweep.specs.Programs.{old_record, prepared};
ghost use Rattle.sweep.specs.Strides.{stride_of, stride_read};
ghost use Rattle.sweep.specs.Swept.{counts_of_all, swept};

mod bar;
mod counts;
mod cut;
mod kind;
mod plans;
mod programs;
mod snapshot;
mod sweeping;
mod tally;

use anyhow::anyhow;
use bar::Bar;
use counts::Counts;
use cut::Room;
use fault::Fault;
use kind::{FIXED, Kept, Kind};
use memory::{Held, LentImage, MAP_SIZE, Memory, Scrambler, Supply, sized};
use plans::{KEK, KEY, Plan};
use programs::prepare;
use snapshot::Snapshot;
use std::env;
use sweeping::{Report, sweep};
use tally::{Said, Tally};
use text::decimal::decimal;

fn row(rt: &HostRuntime, asked: &str, words: &str, said: &Said, cuts: u32) -> anyhow::Result<()> {
    if said.count == 0 {
        return Ok(());
    }
    let bar = Bar::of(said.count, cuts);
    println!(rt;
        "  {asked:<22} {words:<27} {:>6} {:>7} {:>7}  {bar}",
        said.count, said.first, said.last
    )?;
    Ok(())
}

fn rows(rt: &HostRuntime, asked: &str, tally: &Tally, cuts: u32) -> anyhow::Result<()> {
    row(
        rt,
        asked,
        "1, an application to start",
        &tally.application,
        cuts,
    )?;
    row(rt, asked, "2, no application", &tally.blank, cuts)?;
    row(
        rt,
        asked,
        "3, an update is unfinished",
        &tally.unfinished,
        cuts,
    )?;
    row(rt, asked, "nothing, it refuses", &tally.refused, cuts)
}

fn table(rt: &HostRuntime, plan: &Plan, kind: Kind, report: &Report) -> anyhow::Result<()> {
    let cuts = report.counts.cuts;
    println!(rt;
        "The power is cut at {} of the {} storing steps of {}, over {kind}:",
        cuts, report.steps, plan.name
    )?;
    println!(rt;
        "  {:<22} {:<27} {:>6} {:>7} {:>7}",
        "asked", "the board says", "cuts", "first", "last"
    )?;
    rows(rt, "with the power gone", &report.gone, cuts)?;
    rows(rt, "with the power back", &report.back, cuts)?;
    rows(rt, "when sent again", &report.again, cuts)?;
    println!(rt; "")?;
    Ok(())
}

// Sweeps a plan, and shows what was said.
fn show<M: Kept>(
    rt: &HostRuntime,
    memory: M,
    old: &Snapshot,
    room: &mut Room,
    plan: &Plan,
    every: u32,
) -> anyhow::Result<(Counts, M)>
    requires { 0 < every }
    ensures { IfOk result (λ r. r.0 ≡ (swept every plan.now.cut.items plan.now.again.items (snapshot_meaning M.clear old.now)).counts) }
{
    let (report, memory) = sweep(rt, memory, old, room, plan, every)?;
    eprintln!(rt; "")?;
    table(rt, plan, M::KIND, &report)?;
    Ok((report.counts, memory))
}

// Prepares a memory with the old program, and sweeps the three plans on it.
fn sweep_all<M: Kept>(rt: &HostRuntime, mut memory: M, every: u32) -> anyhow::Result<Counts>
    requires { 0 < every }
    ensures { IfOk result (λ counts. counts ≡ counts_of_all every (prepared 1 (M.Memory.meaning memory))) }
{
    prepare(&mut memory, 1)?;
    let mut old = Snapshot::new(rt.alloc())?;
    let memory = memory.saved(&mut old)?;
    let mut room = Room::new(rt.alloc())?;
    let plan = plans::update_plan(rt.alloc())?;
    let (update, memory) = show(rt, memory, &old, &mut room, &plan, 1)?;
    let plan = plans::key_plan(rt.alloc())?;
    let (key, memory) = show(rt, memory, &old, &mut room, &plan, 1)?;
    let plan = plans::erase_plan(rt.alloc())?;
    let (erase, _) = show(rt, memory, &old, &mut room, &plan, every)?;
    Ok(update.and(key).and(erase))
}

// What the old program's memory holds.
fn old_record() -> Held
    ensures { result ≡ old_record }
{
    let mut held = Held::fresh(KEY, KEK);
    held.version = 1;
    held
}

// Sweeps over both memories, each on an image of its own.
fn sweep_both(
    rt: &HostRuntime,
    lent: &mut [u8; MAP_SIZE],
    scrambled: &mut [u8; MAP_SIZE],
    every: u32,
) -> anyhow::Result<Counts>
    requires { 0 < every }
    ensures { IfOk result (λ counts. counts ≡ both (counts_of_all every (prepared 1 (meaning_of lent.old old_record NoEnd))) (counts_of_all every (prepared 1 (clear_meaning 0x5A (meaning_of scrambled.old old_record NoEnd))))) }
{
    let held = old_record();
    let memory = LentImage::over(lent, held, Supply::NoEnd);
    let first = sweep_all(rt, memory, every)?;
    let memory = Scrambler::over(LentImage::over(scrambled, held, Supply::NoEnd), FIXED);
    let second = sweep_all(rt, memory, every)?;
    Ok(first.and(second))
}

// The number that a word says, if it is above 0.
fn read_stride(word: &str) -> Option<u32>
    ensures number { result ≡ stride_read word.now }
    ensures above { MatchOption result ⊤ (λ n. 0 < n) }
{
    match decimal(word.as_bytes(), u32::MAX)? {
        0 => None,
        n => Some(n),
    }
}

// At every how many steps a mass erase is cut, by the words that the program is given, of which the first is its own name: at each without a number.
fn stride(words: &[String]) -> Option<u32>
    ensures number { result ≡ stride_of words.now }
    ensures above { MatchOption result ⊤ (λ n. 0 < n) }
{
    match words {
        [] | [_] => Some(1),
        [_, word, ..] => read_stride(word.as_str()),
    }
}

// An error where a half program was booted.
fn main(rt: HostRuntime) -> anyhow::Result<()> {
    let words: Vec<String> = env::args(&rt)?.collect(rt.alloc())?;
    let Some(every) = stride(&words) else {
        return Err(anyhow!(
            "usage: sweep [N]: cuts a mass erase at its first step, its last and every N-th; N is a decimal number above 0"
        ));
    };
    let mut lent = vec![in rt.alloc(); 0u8; MAP_SIZE]?;
    let mut scrambled = vec![in rt.alloc(); 0u8; MAP_SIZE]?;
    let lent = sized(&mut lent).ok_or(Fault::ImageSize)?;
    let scrambled = sized(&mut scrambled).ok_or(Fault::ImageSize)?;
    let all = sweep_both(&rt, lent, scrambled, every)?;
    if all.half > 0 {
        return Err(anyhow!("Of {} cuts {} booted a half program.", all.cuts, all.half));
    }
    println!(rt; "Of {} cuts none booted a half program.", all.cuts)?;
    Ok(())
}
