// The rule under which a history is seen.
use atomic_table::{Join, Play, Split, TableRule};
use lgx_journal::Event;
use std::collections::LinkedList;
use std::marker::{Brand, PhantomData};

/// What a seat knows: the keeper all events so far, and each seat a beginning of them that it has seen. No value of it is made.
pub struct Known {
    pub keeps: bool,
    pub all: LinkedList<Event>,
    pub seen: LinkedList<Event>,
}

/// The rule: one seat at most knows all, and the others beginnings of it.
pub struct Beginnings;

impl TableRule<(), Known, ()> for Beginnings {
    ghost use Rattle.std.specs.Prelude.{[]};
    ghost use Rattle.lgx_history.specs.Seats.{AreBeginnings, knower};

    ghost holds = { λ _ state. AreBeginnings state.views };

    ghost first = { λ _. knower [] };
}

/// Names the events that a history goes on to. It has no calls.
pub trait Ahead {
    ghost use Rattle.std.specs.Prelude.{List};
    ghost use Rattle.spec_machine.specs.declared.event.Event.{Event};

    ghost events: { List Event };
}

// A caller that passes `Brand` says at the call what it names; by itself it names none.
impl Ahead for Brand {
    ghost use Rattle.std.specs.Prelude.{[]};

    ghost events = { [] };
}

/// A step of the keeper: the history goes on to what is named, and begins with what a sight saw that was taken in.
pub struct GoesOn<X> {
    ahead: PhantomData<X>,
}

impl<X: Ahead> Play<(), Known> for GoesOn<X> {
    ghost use Rattle.lgx_history.specs.Seats.{HasGoneOn};

    ghost then = { λ _ before _ after. HasGoneOn X.events before.0 after };
}

/// How the keeper gives a seat that has seen all, and takes in what another has seen.
pub struct Shows;

impl Split<Known> for Shows {
    ghost use Rattle.lgx_history.specs.Seats.{seer};

    ghost left = { λ v. v };

    ghost right = { λ v. seer v.all };
}

impl Join<Known> for Shows {
    ghost use Rattle.std.specs.Prelude.{[]};
    ghost use Rattle.lgx_history.specs.Seats.{seer, with_seen};

    ghost both = { λ v w. with_seen v w.seen };

    ghost spent = { seer [] };
}
