// Link scripts, and the causes for which a text is none.
use lgx_num::{Items, Name};
use spec_machine::Event;

/// The sendings of a link script (profile).
pub const MAX_SENDS: u32 = 10000;

/// The deliveries of a link script (profile).
pub const MAX_DELIVERS: u32 = 100000;

/// A line of a link script: events of one controller, as often as is said; a sending; or the delivery of a packet by its number.
#[derive(Drop)]
pub enum LinkStep {
    OnA(Event, u32),
    OnB(Event, u32),
    Send,
    Deliver(u32),
}

/// What a line is answered, beside the lines of its events: of a sending, or of the delivery of a packet by its number.
#[derive(Clone, Copy)]
pub enum LinkAnswer {
    Events,
    SendHeld,
    Sent(u32),
    NotSent(u32),
    DeliverHeld(u32),
    Stale(u32),
    New(u32),
}

/// The produced connection of the first controller, the consumed one of the second, and the lines.
#[derive(Drop)]
pub struct LinkScript {
    pub output: Name,
    pub input: Name,
    pub steps: Items<LinkStep>,
}

/// Why a line is none of a link script: J1 it has none of the forms, J2 its lane is none, J4 a limit is passed, U1 the two
/// connections don't go together.
#[derive(Clone, Copy, PartialEq, Eq, Debug)]
pub enum LinkCode {
    J1,
    J2,
    J4,
    U1,
}

/// The first line that is refused, counted from 1, and its first cause.
#[derive(Clone, Copy, PartialEq, Eq, Debug)]
pub struct LinkFault {
    pub code: LinkCode,
    pub line: u64,
}
