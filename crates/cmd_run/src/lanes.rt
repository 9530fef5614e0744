// A script, run by a thread for each lane and one for the processor.
ghost use Rattle.std.specs.Prelude.{◌≡◌, ◌+◌, [], length, true, Some, IfOk, IsTrue};
ghost use Rattle.spec_text.specs.Scripts.{is_script};
ghost use Rattle.lgx_history.specs.Histories.{history_view};
ghost use Rattle.lgx_shared.specs.Follows.{Follows, IsNew, HasCompleted};

use lgx_journal::Script;
use lgx_num::Memory;
use lgx_project::Project;
use lgx_shared::{Gate, Input, Recorder, Shared, run_lanes};
use std::alloc::Global;
use std::marker::Brand;
use std::sync::Wait;
use std::sync::ledger::{Blank, Ledger};
use std::thread::Threads;

/// The same recorder, after the lanes of its script ran on its project. What may be left to do is left: a lane that was short of
/// memory, or made all the turns that it may.
///
/// No type of a pass is in its signature: so its caller may say what the input and the ledgers name.
fn run_shared<
    I: Input + Send,
    A: Ledger + Send,
    S: Ledger + Send,
    E: Ledger + Send,
    G: Gate + Sync,
    R: Threads + Wait + Sync,
>(
    rt: &R,
    alloc: Global,
    recorder: Recorder,
    actions: Blank,
    steps: Blank,
    ends: Blank,
    gate: &G,
) -> Result<Recorder, Memory>
    requires recorder { IsNew I.project I.script recorder }
    requires history { recorder.history ≡ Some (history_view I.history []) }
    requires actions { (actions.name ≡ A.name) × (actions.parts ≡ A.parts) × (actions.parts ≡ length I.script.lanes + 1) }
    requires steps { (steps.name ≡ S.name) × (steps.parts ≡ S.parts) × (steps.parts ≡ length I.script.lanes + 1) }
    requires ends { (ends.name ≡ E.name) × (ends.parts ≡ E.parts) × (ends.parts ≡ length I.script.lanes + 1) }
    ensures follows { IfOk result (λ recorder. Follows I.project I.script recorder) }
    ensures ran { IfOk result (λ recorder. recorder.ran ≡ true) }
{
    let (shared, mut passes) = Shared::<I, A, S, E>::share(alloc, recorder, actions, steps, ends)?;
    run_lanes(rt, &shared, passes.as_mut_slice(), gate);
    Ok(shared.close(passes))
}

/// A recorder that the lanes of the named script ran on the named project, by ledgers that no type stands for yet.
fn run_named<J: Input, G: Gate + Sync, R: Threads + Wait + Sync>(
    rt: &R,
    alloc: Global,
    project: Project,
    script: Script,
    actions: Blank,
    steps: Blank,
    ends: Blank,
    gate: &G,
) -> Result<Recorder, Memory>
    requires input { (project ≡ J.project) × (script ≡ J.script) }
    requires actions { actions.parts ≡ length J.script.lanes + 1 }
    requires steps { steps.parts ≡ length J.script.lanes + 1 }
    requires ends { ends.parts ≡ length J.script.lanes + 1 }
    ensures follows { IfOk result (λ recorder. Follows J.project J.script recorder) }
    ensures ran { IfOk result (λ recorder. recorder.ran ≡ true) }
{
    let recorder = Recorder::new(alloc, project, script)?;
    run_shared::<Brand, Brand, Brand, Brand, G, R>(rt, alloc, recorder, actions, steps, ends, gate)
}

/// The recorder of a script's run on a project: every lane's actions were made, and the steps.
pub(crate) fn run_script<G: Gate + Sync, R: Threads + Wait + Sync>(
    rt: &R,
    alloc: Global,
    project: Project,
    script: Script,
    gate: &G,
) -> Result<Recorder, Memory>
    ensures follows { IfOk result (λ recorder. Follows project script recorder) }
    ensures complete { IfOk result (λ recorder. HasCompleted project script recorder) }
    ensures script { IsTrue (is_script script) }
{
    let parts = script.lanes.len() as u64 + 1;
    let mut recorder = run_named::<Brand, G, R>(
        rt,
        alloc,
        project,
        script,
        Blank::new(parts),
        Blank::new(parts),
        Blank::new(parts),
        gate,
    )?;
    recorder.finish()?;
    Ok(recorder)
}
