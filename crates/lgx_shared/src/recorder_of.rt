// The run of a script, by what it was made for.
ghost use Rattle.std.specs.Prelude.{◌≡◌, [], Some, None};
ghost use Rattle.lgx_history.specs.Histories.{history_view};
ghost use Rattle.lgx_shared.specs.Follows.{journal_of, Follows, IsNew};

use crate::recorder::Recorder;
use crate::script_run::ScriptRun;
use lgx_history::History;
use lgx_journal::Journal;
use lgx_lanes::{Input, Recorded, Turn};
use std::marker::{Model, PhantomData};

/// A run that follows the named script on the named project.
#[derive(Drop)]
pub(crate) struct RecorderOf<I: Input> {
    run: ScriptRun,
    input: PhantomData<I>,
}

impl<I: Input> Model for RecorderOf<I> {
    ghost use Rattle.lgx_shared.specs.contracts.recorder.Recorder as recorder_row;
    ghost use Rattle.lgx_shared.specs.RecorderView.{RecorderView};
    ghost use Rattle.lgx_shared.specs.ScriptRun.{as_recorder};
    ghost use Rattle.lgx_shared.specs.Follows.{Follows};

    ghost Value = { RecorderView };

    ghost coded = { recorder_row.the_row.coded };

    ghost view = { λ n. as_recorder n.run };

    ghost invariant = { λ n. Follows I.project I.script (as_recorder n.run) };
}

/// A run that was just made, and the history of its journal.
pub(crate) fn begun<I: Input>(recorder: Recorder) -> (RecorderOf<I>, History)
    requires recorder { IsNew I.project I.script recorder }
    requires history { recorder.history ≡ Some (history_view I.history []) }
    ensures new { IsNew I.project I.script result.0 }
    ensures history { result.1 ≡ history_view I.history (journal_of result.0) }
{
    let (run, mut history) = recorder.into_parts();
    history.go_to(run.recording().journal());
    let named = RecorderOf {
        run,
        input: PhantomData,
    };
    (named, history)
}

impl<I: Input> Recorded<I> for RecorderOf<I> {
    ghost use Rattle.lgx_shared.specs.Follows.{progress_of};

    ghost progress = { progress_of };

    fn serve(&mut self, lane: u32) -> Turn {
        self.run.serve(lane)
    }

    fn made(&self, lane: u32) -> u32 {
        self.run.made(lane)
    }

    fn journal(&self) -> &Journal {
        self.run.recording().journal()
    }

    fn lanes(&self) -> u32 {
        self.run.lanes()
    }

    fn length_of(&self, lane: u32) -> u32 {
        self.run.length_of(lane)
    }

    fn least_steps(&self) -> u32 {
        self.run.least_steps()
    }
}

impl<I: Input> RecorderOf<I> {
    /// The recorder, whose passes are back, and whether turns brought every one to its end, to want of memory, or to its last turn.
    pub(crate) fn into_recorder(self, ran: bool) -> Recorder
        ensures is { result ≡ record self { ran = ran; history = None } }
        ensures follows { Follows I.project I.script result }
    {
        let RecorderOf { run, input: _ } = self;
        Recorder::closed(run, ran)
    }
}
