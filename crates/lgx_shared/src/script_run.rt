// The run of a script.
ghost use Rattle.std.specs.Prelude.{◌≡◌, ◌+◌, ◌≤◌, ◌<◌, length, None, IfOk, OnOk, slice_index_or};
ghost use Rattle.spec_base.specs.declared.limits.TheConstants.{MAX_ACTIONS, MAX_SCRIPT_STEPS, OWN_LANE};
ghost use Rattle.spec_machine.specs.Events.{steps_of};
ghost use Rattle.spec_machine.specs.Project.{Project};
ghost use Rattle.spec_text.specs.Scripts.{Script as Scripts};
ghost use Rattle.spec_lanes.specs.Turns.{lane_of, most_steps, next_of};
ghost use Rattle.spec_lanes.specs.Laws.{opening};
ghost use Rattle.lgx_record.specs.Records.{Records};
ghost use Rattle.lgx_shared.specs.ScriptRun.{as_recorder};
ghost use Rattle.lgx_shared.specs.Follows.{journal_of, Follows, IsRecorder, IsNew, HasSpent, HasCompleted, GoesOn};
ghost use Rattle.lgx_shared.specs.Serves.{Serves};

use crate::plan::{count_of, lanes_of, length_of, room_for};
use crate::serving::{due_action, help, make_action};
use lgx_edit::Plant;
use lgx_journal::{Action, EventsLent, Script};
use lgx_lanes::Turn;
use lgx_num::Memory;
use lgx_record::Recording;
use spec_base::limits::OWN_LANE;
use std::alloc::Global;
use std::marker::Model;

/// The run of a script: its recording, and how far each lane has come.
pub(crate) struct ScriptRun {
    recording: Recording,
    script: Script,
    /// How many actions of each lane were made.
    counts: Vec<u32>,
}

impl Drop for ScriptRun {
    fn drop(self) {
        let ScriptRun {
            recording: _,
            script: _,
            counts: _,
        } = self;
    }
}

impl Model for ScriptRun {
    ghost use Rattle.std.specs.Coded.{codes};
    ghost use Rattle.lgx_record.specs.contracts.recording.Recording as recording_row;
    ghost use Rattle.lgx_shared.specs.ScriptRun.{ScriptRunView, script_run_code, script_run_view, as_recorder};
    ghost use Rattle.lgx_shared.specs.Follows.{IsRecorder};

    ghost Value = { ScriptRunView };

    ghost coded = { script_run_code recording_row.the_row.coded (Prim.hlevel codes) };

    ghost view = { λ r. script_run_view r.recording r.script r.counts.items };

    ghost invariant = { λ r. IsRecorder (as_recorder (script_run_view r.recording r.script r.counts.items)) };
}

/// A recording of a project with its `mode run` as the one event, and with the journal's room for `room` events.
fn opened(alloc: Global, project: Plant, room: u32) -> Result<Recording, Memory>
    requires { 0 < room }
    ensures records { IfOk result (λ recording. Records recording project opening) }
    ensures room { IfOk result (λ recording. room ≤ recording.journal.spare + 1) }
{
    let mut recording = Recording::of_project(alloc, project)?;
    recording.reserve(room)?;
    recording.take(EventsLent::Act(OWN_LANE, &Action::ModeRun))?;
    Ok(recording)
}

impl ScriptRun {
    /// A run with its `mode run` as the one event. It takes the room for all that turns will add, but for the texts of accepts.
    pub(crate) fn new(alloc: Global, project: Plant, script: Script) -> Result<ScriptRun, Memory>
        ensures { IfOk result (λ run. IsNew project script (as_recorder run)) }
    {
        let recording = opened(alloc, project, room_for(&script))?;
        let counts = vec![in alloc; 0; lanes_of(&script) as usize]?;
        Ok(ScriptRun {
            recording,
            script,
            counts,
        })
    }

    /// Every run follows its script on some project.
    pub(crate) fn law_of_runs(&self)
        ensures { IsRecorder (as_recorder self.now) }
    {
        let _ = &self.recording;
    }

    /// A turn of a lane: its next action, if the tick of it has come and it wouldn't be answered Held; else, until the steps are
    /// spent, a processor step, with a tick after every `pace`-th; else nothing, and then the lane has no action left. A lane
    /// that the script hasn't got has no actions.
    pub(crate) fn serve(&mut self, lane: u32) -> Turn
        ensures turn { (project : Project) (script : Scripts) → Follows project script (as_recorder self.old) → Serves project script lane (as_recorder self.old) result (as_recorder self.new) }
        ensures follows { (project : Project) (script : Scripts) → Follows project script (as_recorder self.old) → Follows project script (as_recorder self.new) }
    {
        let done = count_of(self.counts.as_slice(), lane);
        match due_action(&self.script, lane, done, self.recording.controller()) {
            Some(action) => make_action(&mut self.recording, &mut self.counts, lane, action),
            None => help(&mut self.recording, &self.script),
        }
    }

    /// Does what is left, lane by lane. At out of memory the journal is partial, as before.
    pub(crate) fn finish(&mut self) -> Result<(), Memory>
        ensures follows { (project : Project) (script : Scripts) → Follows project script (as_recorder self.old) → Follows project script (as_recorder self.new) }
        ensures goes_on { GoesOn (as_recorder self.old) (as_recorder self.new) }
        ensures complete { (project : Project) (script : Scripts) → Follows project script (as_recorder self.old) → OnOk result (HasCompleted project script (as_recorder self.new)) }
        ensures steps { (project : Project) (script : Scripts) → Follows project script (as_recorder self.old) → OnOk result (steps_of (journal_of (as_recorder self.new)) ≤ most_steps script) }
    {
        let lanes = self.lanes();
        for lane in 0..lanes {
            self.finish_lane(lane)?;
        }
        self.finish_lane(lanes)
    }

    /// Makes turns of a lane until it has no action left and the steps are spent.
    fn finish_lane(&mut self, lane: u32) -> Result<(), Memory>
        ensures follows { (project : Project) (script : Scripts) → Follows project script (as_recorder self.old) → Follows project script (as_recorder self.new) }
        ensures goes_on { GoesOn (as_recorder self.old) (as_recorder self.new) }
        ensures done { (project : Project) (script : Scripts) → Follows project script (as_recorder self.old) → OnOk result (HasSpent project script (as_recorder self.new) × (next_of script (journal_of (as_recorder self.new)) lane ≡ None)) }
    {
        loop {
            self.law_of_runs();
            match self.serve(lane) {
                Turn::Did => {}
                Turn::Helped => {}
                Turn::Done => return Ok(()),
                Turn::Memory => return Err(Memory),
            }
        }
    }

    /// The number of the script's lanes.
    pub(crate) fn lanes(&self) -> u32
        ensures is { result ≡ length self.now.script.lanes }
        ensures few { result ≤ OWN_LANE }
    {
        lanes_of(&self.script)
    }

    /// How many processor steps the script wants at least.
    pub(crate) fn least_steps(&self) -> u32
        ensures is { result ≡ self.now.script.steps }
        ensures few { result ≤ MAX_SCRIPT_STEPS }
    {
        self.script.steps
    }

    /// The number of a lane's actions.
    pub(crate) fn length_of(&self, lane: u32) -> u32
        ensures is { result ≡ length (lane_of self.now.script lane) }
        ensures few { result ≤ MAX_ACTIONS }
    {
        length_of(&self.script, lane)
    }

    /// How many actions of a lane were made; 0 if there is no such lane.
    pub(crate) fn made(&self, lane: u32) -> u32
        ensures { result ≡ slice_index_or self.now.counts lane 0 }
    {
        count_of(self.counts.as_slice(), lane)
    }

    /// What it has recorded.
    pub(crate) fn recording(&self) -> &Recording
        ensures { result.now ≡ self.now.recording }
    {
        &self.recording
    }
}
