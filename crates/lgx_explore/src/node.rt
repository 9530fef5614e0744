// Nodes.
ghost use Rattle.std.specs.Prelude.{◌≡◌, true, false, ℕ, List, Ok, IfOk, IfErr, IfSome, IfNone};
ghost use Rattle.spec_machine.specs.declared.event.Event.{Event as Events};
ghost use Rattle.spec_machine.specs.Project.{Project};
ghost use Rattle.spec_text.specs.Scripts.{Script as Scripts};
ghost use Rattle.lgx_explore.specs.Nodes.{StandsAlso, IsActed, NoneIsDue, IsStepped, NoneIsStepped, NodeShows};
ghost use Rattle.lgx_explore.specs.Shown.{IfShown, IsAction};

use lgx_num::Memory;
use spec_explore::Question;
use spec_text::Script;
use std::alloc::{AllocError, AllocFailed, Global};

/// An event that may be made next.
#[derive(Clone, Copy, PartialEq, Eq, Debug)]
pub enum Next {
    /// The due action of the lane with this number.
    Action(u32),
    /// A processor step.
    Step,
    /// The tick after a processor step.
    Tick,
}

/// Why a node isn't made of another one.
#[derive(Clone, Copy, PartialEq, Eq, Debug)]
pub enum Stop {
    /// After this event the line of the question with this number, from 0, holds, and none before it.
    Shown(Next, u32),
    /// The layer has as many nodes as it may have.
    Limit,
    Memory,
}

impl From<AllocError> for Stop {
    ghost use Rattle.lgx_explore.specs.declared.node.Stop.{Stop};

    ghost from_gives = { λ _ s. s ≡ Stop.Memory };

    fn from(_: AllocError) -> Self {
        Stop::Memory
    }
}

impl<T: Drop> From<AllocFailed<T>> for Stop {
    ghost use Rattle.lgx_explore.specs.declared.node.Stop.{Stop};

    ghost from_gives = { λ _ s. s ≡ Stop.Memory };

    fn from(_: AllocFailed<T>) -> Self {
        Stop::Memory
    }
}

impl From<Memory> for Stop {
    ghost use Rattle.lgx_explore.specs.declared.node.Stop.{Stop};

    ghost from_gives = { λ _ s. s ≡ Stop.Memory };

    fn from(_: Memory) -> Self {
        Stop::Memory
    }
}

/// What stands for journals that led to the same. It keeps one of them.
pub trait Node: Drop + Sized {
    /// It stands for this journal of the project, with these counts of the lanes' actions.
    ghost stands: { Self → Project → List ℕ → List Events → Type 0 };

    /// The counts and the journal of the script that it keeps.
    ghost keeps: { Self → Scripts → List ℕ × List Events };

    /// Whether it stands for all that the other one stands for.
    fn is_same(&self, other: &Self) -> bool
        ensures { result ≡ true → StandsAlso stands self.now other.now };

    /// The node after the due action of the lane; None if none is due, or if it would leave the window. An error if a line
    /// holds after the action, or if memory runs out.
    fn acted(
        &self,
        alloc: Global,
        script: &Script,
        question: &Question,
        lane: u32,
    ) -> Result<Option<Self>, Stop>
        ensures acted { IfOk result (λ o. IfSome o (λ node. IsActed stands keeps script.now question.now node self.now lane)) }
        ensures none { IfOk result (λ o. IfNone o (NoneIsDue stands script.now question.now self.now lane)) }
        ensures shown { IfErr result (λ stop. IfShown stop (λ made line. IsAction made × NodeShows stands script.now question.now self.now made line)) };

    /// Makes a processor step with its tick: true if it is the node after them now. False if its steps are spent, or if the
    /// tick would leave the window. An error if a line holds after the step or after its tick, or if a limit is met or memory runs
    /// out; it then stands for nothing, but keeps what it kept.
    fn step(&mut self, script: &Script, question: &Question) -> Result<bool, Stop>
        ensures stepped { result ≡ Ok true → IsStepped stands keeps script.now question.now self.new self.old }
        ensures none { result ≡ Ok false → NoneIsStepped stands script.now question.now self.old }
        ensures shown { IfErr result (λ stop. IfShown stop (λ made line. NodeShows stands script.now question.now self.old made line)) }
        ensures kept { IfErr result (λ _. keeps self.new ≡ keeps self.old) };
}
