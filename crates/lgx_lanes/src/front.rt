// What a pass has seen of the journal.
ghost use Rattle.std.specs.Prelude.{◌≡◌};
ghost use mathlib.Core.List.{IsPrefix};
ghost use Rattle.lgx_history.specs.Histories.{history_view};
ghost use Rattle.lgx_lanes.specs.Seen.{IsSeen};

use crate::input::Input;
use crate::recorded::Recorded;
use lgx_history::{History, SeenToken};
use std::marker::{Model, PhantomData};

/// The journal that a lane has seen. It keeps no event: what was seen exists in proofs alone.
#[derive(Drop)]
pub(crate) struct LaneFront<I: Input> {
    sight: SeenToken,
    input: PhantomData<I>,
}

impl<I: Input> Model for LaneFront<I> {
    ghost use Rattle.std.specs.Prelude.{◌≡◌};
    ghost use Rattle.lgx_history.specs.contracts.history.SeenToken as token_row;
    ghost use Rattle.lgx_history.specs.Histories.{HistoryView};
    ghost use Rattle.lgx_lanes.specs.Seen.{IsSeen};

    ghost Value = { HistoryView };

    ghost coded = { token_row.the_row.coded };

    ghost view = { λ f. f.sight };

    ghost invariant = { λ f. (f.sight.name ≡ I.history) × IsSeen I.project I.script f.sight.events };
}

impl<I: Input> LaneFront<I> {
    /// The front of a lane that sees the journal as it is.
    pub(crate) fn new<R: Recorded<I>>(history: &mut History, recorder: &R) -> LaneFront<I>
        requires { history.old ≡ history_view I.history (R.progress recorder.now).events }
        ensures same { history.new ≡ history.old }
        ensures seen { result ≡ history.old }
    {
        let _ = recorder.journal();
        LaneFront {
            sight: history.sight(),
            input: PhantomData,
        }
    }

    /// What every front keeps.
    pub(crate) fn law_of_fronts(&self)
        ensures { IsSeen I.project I.script self.now.events }
    {
        let _ = &self.sight;
    }

    /// Sees the journal as it is, on which the history goes on; and the history began with what was seen before.
    pub(crate) fn see<R: Recorded<I>>(&mut self, history: &mut History, recorder: &R)
        requires name { history.old.name ≡ I.history }
        requires ahead { IsPrefix history.old.events (R.progress recorder.now).events }
        ensures history { history.new ≡ history_view I.history (R.progress recorder.now).events }
        ensures before { IsPrefix self.old.events history.old.events }
        ensures now { self.new ≡ history.new }
    {
        history.show(&mut self.sight, recorder.journal());
    }

    /// Gives back its sight of the history, whose events are the journal's: so the journal began with what was seen.
    pub(crate) fn give_back<R: Recorded<I>>(self, history: &mut History, recorder: &R)
        requires { history.old ≡ history_view I.history (R.progress recorder.now).events }
        ensures same { history.new ≡ history.old }
        ensures seen { IsPrefix self.events (R.progress recorder.now).events }
    {
        let LaneFront { sight, input: _ } = self;
        history.take_in(sight, recorder.journal());
    }
}
