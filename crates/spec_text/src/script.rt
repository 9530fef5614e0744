// Runs of equal events; scripts: what each lane does, and when; and the causes for which a text is no journal or script.
use lgx_num::Items;
use spec_machine::{Action, Event};
use std::marker::Model;

/// An action and the tick from which on it may be made.
#[derive(Drop)]
pub struct Timed {
    pub at: u32,
    pub action: Action,
}

/// An event and how often it comes; an action comes once.
#[derive(Drop)]
pub struct EventRun {
    pub event: Event,
    pub count: u32,
}

/// What a run has to do: at least `steps` processor steps, a tick after every `pace`-th of them, and for each lane its actions in
/// order. Steps and pace are 1 to `MAX_SCRIPT_STEPS`; there are at most `OWN_LANE` lanes and `MAX_ACTIONS` actions; and no action
/// waits for a tick after the last, which is `steps` divided by `pace`, cut.
#[derive(Drop)]
pub struct Script {
    pub steps: u32,
    pub pace: u32,
    pub lanes: Items<Items<Timed>>,
}

impl Model for Script {
    ghost use Rattle.std.specs.Prelude.{IsTrue};
    ghost use Rattle.spec_text.specs.Scripts.{Script as Seen, script, is_script};

    ghost Value = { Seen };

    ghost view = { λ s. script s.steps s.pace s.lanes };

    ghost invariant = { λ s. IsTrue (is_script (script s.steps s.pace s.lanes)) };
}

/// Why a line is none of a journal or a script: J1 it has none of the forms, J2 its lane is none, J3 its tick lies
/// after the last one, J4 a limit is passed, J5 its tick lies before that of the lane's line before.
#[derive(Clone, Copy, PartialEq, Eq, Debug)]
pub enum JournalCode {
    J1,
    J2,
    J3,
    J4,
    J5,
}

/// The first line that is refused, counted from 1, and its first cause.
#[derive(Clone, Copy, PartialEq, Eq, Debug)]
pub struct JournalFault {
    pub code: JournalCode,
    pub line: u64,
}
