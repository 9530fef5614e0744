// The recorder of a run.
ghost use Rattle.std.specs.Prelude.{◌≡◌, ◌+◌, ◌≤◌, ◌<◌, List, [], ◌∷◌, ◌++◌, true, false, Some, None, IsSome, IfOk, OnOk, OnErr};
ghost use Rattle.spec_base.specs.declared.limits.TheConstants.{MAX_EVENTS};
ghost use Rattle.spec_machine.specs.declared.event.Event.{Event as Events};
ghost use Rattle.spec_machine.specs.Events.{steps_of};
ghost use Rattle.spec_machine.specs.Project.{Project};
ghost use Rattle.spec_text.specs.Scripts.{Script as Scripts};
ghost use Rattle.spec_lanes.specs.Turns.{most_steps};
ghost use Rattle.lgx_record.specs.Records.{Records, IsUnchanged};
ghost use Rattle.lgx_shared.specs.ScriptRun.{recorder_with};
ghost use Rattle.lgx_shared.specs.Follows.{journal_of, Follows, IsRecorder, IsNew, IsUnseen, HasCompleted, GoesOn};
ghost use Rattle.lgx_shared.specs.Serves.{Serves};

use crate::script_run::ScriptRun;
use lgx_core::Controller;
use lgx_edit::Plant;
use lgx_history::History;
use lgx_journal::{Event, Journal, Script, single};
use lgx_lanes::Turn;
use lgx_num::Memory;
use lgx_record::Recording;
use lgx_watch::{Log, Names};
use std::alloc::Global;
use std::marker::Model;

/// What a recorder is for, and how far it has come.
#[derive(Drop)]
enum Stage {
    /// The run of a script that wasn't shared yet, and what passes are to see of its journal.
    Unshared(ScriptRun, History),
    /// One whose passes are back, and whether turns brought every pass to its end, to want of memory, or to its last turn.
    Closed(ScriptRun, bool),
    /// Events that are given.
    Given(Recording),
}

/// The recorder of a run: its controller with the journal of the events and the log of their report, and the script that the
/// lanes follow, if it was made for one.
pub struct Recorder {
    stage: Stage,
}

impl Drop for Recorder {
    fn drop(self) {
        let Recorder { stage: _ } = self;
    }
}

impl Model for Recorder {
    ghost use Rattle.std.specs.Coded.{codes, coded_option};
    ghost use Rattle.lgx_history.specs.contracts.history.History as history_row;
    ghost use Rattle.lgx_record.specs.contracts.recording.Recording as recording_row;
    ghost use Rattle.lgx_shared.specs.Codes.{recorder_code};
    ghost use Rattle.lgx_shared.specs.RecorderView.{RecorderView};
    ghost use Rattle.lgx_shared.specs.Stages.{recorder_at};

    ghost Value = { RecorderView };

    ghost coded = { recorder_code recording_row.the_row.coded (Prim.hlevel codes) (coded_option history_row.the_row.coded) };

    ghost view = { λ r. recorder_at r.stage };
}

impl Recorder {
    /// A recorder for a script, with its `mode run` as the one event. It takes the room for all that turns will add, but for the
    /// texts of accepts.
    pub fn new(alloc: Global, project: Plant, script: Script) -> Result<Recorder, Memory>
        ensures new { IfOk result (λ recorder. IsNew project script recorder) }
        ensures history { IfOk result (λ recorder. IsUnseen recorder.history) }
    {
        let history = History::open(alloc)?;
        let run = ScriptRun::new(alloc, project, script)?;
        Ok(Recorder {
            stage: Stage::Unshared(run, history),
        })
    }

    /// A recorder of events that are given, without an event. It takes the room for all lines that the log keeps; that of the
    /// journal is taken as events come.
    pub fn of_journal(alloc: Global, project: Plant) -> Result<Recorder, Memory>
        ensures records { IfOk result (λ recorder. Records recorder.recording project []) }
        ensures script { IfOk result (λ recorder. recorder.script ≡ None) }
        ensures ran { IfOk result (λ recorder. recorder.ran ≡ false) }
    {
        let recording = Recording::of_project(alloc, project)?;
        Ok(Recorder {
            stage: Stage::Given(recording),
        })
    }

    /// Every recorder records its journal of some project, and follows its script on it if it has one.
    pub fn law_of_recorders(&self)
        ensures { IsRecorder self.now }
    {
        match &self.stage {
            Stage::Unshared(run, _) => run.law_of_runs(),
            Stage::Closed(run, _) => run.law_of_runs(),
            Stage::Given(recording) => recording.law_of_recordings(),
        }
    }

    /// Takes one more event: the controller makes it, and the journal and the log are those with it. The journal's room is
    /// taken before anything changes; out of memory comes if there is none, and at an accept that has none. The recorder has
    /// no script.
    pub fn apply(&mut self, event: &Event) -> Result<(), Memory>
        requires script { self.old.script ≡ None }
        requires room { self.old.recording.controller.spent < MAX_EVENTS }
        ensures records { (project : Project) (events : List Events) → Records self.old.recording project events → OnOk result (Records self.new.recording project (events ++ event.now ∷ [])) }
        ensures script { self.new.script ≡ None }
        ensures ran { self.new.ran ≡ self.old.ran }
        ensures unchanged { OnErr result (IsUnchanged self.old.recording self.new.recording) }
        ensures room { OnErr result (self.old.recording.journal.spare ≤ self.new.recording.journal.spare) }
    {
        match &mut self.stage {
            Stage::Given(recording) => recording.apply(single(event)),
            Stage::Unshared(_, _) => unreachable!(),
            Stage::Closed(_, _) => unreachable!(),
        }
    }

    /// A turn of a lane: its next action, if the tick of it has come and it wouldn't be answered Held; else, until the steps are
    /// spent, a processor step, with a tick after every `pace`-th; else nothing, and then the lane has no action left. A lane
    /// that the script hasn't got has no actions. The recorder was made for a script.
    pub fn serve(&mut self, lane: u32) -> Turn
        requires { IsSome self.old.script }
        ensures turn { (project : Project) (script : Scripts) → Follows project script self.old → Serves project script lane self.old result self.new }
        ensures follows { (project : Project) (script : Scripts) → Follows project script self.old → Follows project script self.new }
    {
        match &mut self.stage {
            Stage::Unshared(run, _) => run.serve(lane),
            Stage::Closed(run, _) => run.serve(lane),
            Stage::Given(_) => unreachable!(),
        }
    }

    /// Does what is left, lane by lane, after turns that brought every pass to its end, to want of memory, or to its last turn.
    /// At out of memory the journal is partial, as before.
    pub fn finish(&mut self) -> Result<(), Memory>
        requires made { IsSome self.old.script }
        requires ran { self.old.ran ≡ true }
        ensures follows { (project : Project) (script : Scripts) → Follows project script self.old → Follows project script self.new }
        ensures goes_on { GoesOn self.old self.new }
        ensures complete { (project : Project) (script : Scripts) → Follows project script self.old → OnOk result (HasCompleted project script self.new) }
        ensures steps { (project : Project) (script : Scripts) → Follows project script self.old → OnOk result (steps_of (journal_of self.new) ≤ most_steps script) }
    {
        match &mut self.stage {
            Stage::Closed(run, _) => run.finish(),
            Stage::Unshared(_, _) => unreachable!(),
            Stage::Given(_) => unreachable!(),
        }
    }

    /// A run whose passes are back, and whether turns brought every pass to its end, to want of memory, or to its last turn.
    pub(crate) fn closed(run: ScriptRun, ran: bool) -> Recorder
        ensures { result ≡ recorder_with ran None run }
    {
        Recorder {
            stage: Stage::Closed(run, ran),
        }
    }

    /// The run, and what passes are to see of its journal. The recorder was made for a script, and not shared yet.
    pub(crate) fn into_parts(self) -> (ScriptRun, History)
        requires { IsSome self.history }
        ensures { self ≡ recorder_with false (Some result.1) result.0 }
    {
        let Recorder { stage } = self;
        match stage {
            Stage::Unshared(run, history) => (run, history),
            Stage::Closed(_, _) => unreachable!(),
            Stage::Given(_) => unreachable!(),
        }
    }

    fn recording(&self) -> &Recording
        ensures { result.now ≡ self.now.recording }
    {
        match &self.stage {
            Stage::Unshared(run, _) => run.recording(),
            Stage::Closed(run, _) => run.recording(),
            Stage::Given(recording) => recording,
        }
    }

    /// The events that were taken.
    pub fn journal(&self) -> &Journal
        ensures { result.now ≡ self.now.recording.journal }
    {
        self.recording().journal()
    }

    /// The lines of their report.
    pub fn log(&self) -> &Log
        ensures { result.now ≡ self.now.recording.log }
    {
        self.recording().log()
    }

    /// The controller, after the events that were taken.
    pub fn controller(&self) -> &Controller
        ensures { result.now ≡ self.now.recording.controller }
    {
        self.recording().controller()
    }

    /// The names that the report's lines are written with.
    pub fn names(&self) -> &Names
        ensures { result.now ≡ self.now.recording.names }
    {
        self.recording().names()
    }

    /// The number of processor steps so far.
    pub fn steps(&self) -> u32
        ensures { result ≡ self.now.recording.steps }
    {
        self.recording().steps()
    }
}
