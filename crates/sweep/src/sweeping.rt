// A sweep: the power of a board is cut at one storing step after the other.
ghost use Rattle.std.specs.Prelude.{◌≡◌, ℕ, ◌<◌, IfOk, OnOk};
ghost use Rattle.sweep.specs.Kinds.{snapshot_meaning};
ghost use Rattle.sweep.specs.Swept.{NoneHalf, cut_at_step, is_cut, no_cut, noted_cut, swept};

use crate::counts::Counts;
use crate::cut::{Cut, Room, count_steps, cut_power};
use crate::kind::{Kept, Kind};
use crate::plans::Plan;
use crate::snapshot::Snapshot;
use crate::tally::Tally;
use std::alloc::Global;

// What boards said at the three questions of each cut, and how many cuts booted a half program.
#[derive(Clone, Copy)]
pub struct Report {
    pub steps: u32,
    pub counts: Counts,
    pub gone: Tally,
    pub back: Tally,
    pub again: Tally,
}

impl Report {
    // No cut was made yet of a plan of so many steps.
    fn new(steps: u32) -> Report
        ensures { result ≡ no_cut steps }
    {
        Report {
            steps,
            counts: Counts { cuts: 0, half: 0 },
            gone: Tally::empty(),
            back: Tally::empty(),
            again: Tally::empty(),
        }
    }

    // One cut more, at a step.
    fn note(&mut self, step: u32, cut: &Cut)
        ensures { self.new ≡ noted_cut step cut.now self.old }
    {
        self.counts = self.counts.and(Counts {
            cuts: 1,
            half: u32::from(cut.half),
        });
        self.gone.note(cut.gone, step);
        self.back.note(cut.back, step);
        self.again.note(cut.again, step);
    }
}

// Whether the power is cut at a step: the first, the last, and each whose number is a multiple of `every`.
fn is_cut(every: u32, steps: u32, step: u32) -> bool
    requires { 0 < every }
    ensures { result ≡ is_cut every steps step }
{
    step % every == 0 || step == 1 || step == steps
}

// Cuts the power at a step, if it is one at which it is cut.
fn sweep_step<M: Kept>(
    heap: Global,
    memory: M,
    old: &Snapshot,
    room: &mut Room,
    plan: &Plan,
    every: u32,
    step: u32,
    report: &mut Report,
) -> anyhow::Result<M>
    requires { 0 < every }
    ensures { OnOk result (report.new ≡ cut_at_step every plan.now.cut.items plan.now.again.items (snapshot_meaning M.clear old.now) step report.old) }
{
    if !is_cut(every, report.steps, step) {
        return Ok(memory);
    }
    let (cut, memory) = cut_power(heap, memory, old, room, plan, step.saturating_sub(1))?;
    report.note(step, &cut);
    Ok(memory)
}

// Shows on standard error how far a sweep has come.
fn progress(
    rt: &HostRuntime,
    plan: &Plan,
    kind: Kind,
    step: u32,
    steps: u32,
) -> anyhow::Result<()> {
    if step % 2000 == 0 || step == steps {
        eprint!(rt;
            "\rsweep: step {step} of {steps} of {}, over {kind}   ",
            plan.name
        )?;
    }
    Ok(())
}

// Cuts the power at a plan's first step, its last, and each whose number is a multiple of `every`, each time on what stands in a snapshot.
#[tactic(auto, using(crate::proofs::Halves::none_half))]
pub(crate) fn sweep<M: Kept>(
    rt: &HostRuntime,
    memory: M,
    old: &Snapshot,
    room: &mut Room,
    plan: &Plan,
    every: u32,
) -> anyhow::Result<(Report, M)>
    requires { 0 < every }
    ensures report { IfOk result (λ r. r.0 ≡ swept every plan.now.cut.items plan.now.again.items (snapshot_meaning M.clear old.now)) }
    ensures none_half { (n : ℕ) → NoneHalf every plan.now.cut.items plan.now.again.items (snapshot_meaning M.clear old.now) n }
{
    let (steps, mut memory) = count_steps(rt.alloc(), memory, old, &plan.cut)?;
    let mut report = Report::new(steps);
    for kept in 0..steps {
        let step = kept + 1;
        memory = sweep_step(
            rt.alloc(),
            memory,
            old,
            room,
            plan,
            every,
            step,
            &mut report,
        )?;
        progress(rt, plan, M::KIND, step, steps)?;
    }
    Ok((report, memory))
}
