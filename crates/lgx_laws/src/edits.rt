// What is known of the edits of programs, and the laws of edits and of numbers at one event.
ghost use Rattle.std.specs.Prelude.{◌≡◌, ◌+◌, ◌<◌, ◌∷◌, ℕ, List, Some, length, nat_eq, replicate, slice_index_or, IfOk};
ghost use Rattle.spec_schedule.specs.declared.trace.TraceEvent.TheVariants.{Act};
ghost use Rattle.spec_schedule.specs.Counting.{Counted, CountedEvent, Numbers, unedited, edited, edited_all};
ghost use Rattle.lgx_audit.specs.Along.{IsOfPrograms};
ghost use Rattle.lgx_audit.specs.TraceText.{is_edit};
ghost use Rattle.lgx_laws.specs.Edits.{owned, owned_by, owns, may_be_done, may_be_refused, answers_edit, is_refused, keeps_edits, keeps_numbers};
ghost use Rattle.lgx_laws.specs.Kept.{no_booked, booked, owned_in, numbers_in, Books};

use lgx_audit::{TraceAnswer, TraceEvent, Verb};
use lgx_num::Memory;
use std::alloc::Global;

/// Of a program: the number of its last accept, whether its edits are tested, the lane that owns them, and whether that lane has
/// tested them.
#[derive(Clone, Copy)]
pub struct Booked {
    pub newest: u32,
    pub testing: bool,
    pub owner: Option<u32>,
    pub tested: bool,
}

/// What is kept of programs before the first event.
pub(crate) fn nothing_booked(alloc: Global, programs: usize) -> Result<Vec<Booked>, Memory>
    ensures { IfOk result (λ list. list.items ≡ replicate programs no_booked) }
{
    let none = Booked {
        newest: 0,
        testing: false,
        owner: None,
        tested: false,
    };
    Ok(vec![in alloc; none; programs]?)
}

/// What is kept of a program after an edit of this lane that was answered so.
fn booked_by(lane: u32, verb: Verb, answer: TraceAnswer, b: Booked) -> Booked
    ensures { result ≡ booked (edited verb answer (numbers_in b)) (owned_by lane verb answer (owned_in b)) }
{
    match (verb, answer) {
        (Verb::Accept, TraceAnswer::Number(newest)) => Booked {
            newest,
            owner: Some(lane),
            ..b
        },
        (Verb::Test, TraceAnswer::Done) => Booked {
            testing: true,
            tested: true,
            ..b
        },
        (Verb::Untest, TraceAnswer::Done) => Booked {
            testing: false,
            ..b
        },
        (Verb::Assemble, TraceAnswer::Done) => Booked {
            newest: b.newest,
            testing: false,
            owner: None,
            tested: false,
        },
        (Verb::Cancel, TraceAnswer::Done) => Booked {
            newest: b.newest,
            testing: false,
            owner: None,
            tested: false,
        },
        _ => b,
    }
}

/// What is kept of all programs after the event.
pub(crate) fn book_event(books: &mut [Booked], e: &TraceEvent)
    requires { IsOfPrograms (length books.old) e.now }
    ensures { (cs : List Counted) (ns : List Numbers) (past : List CountedEvent) → Books books.old ns past
        → Books books.new (edited_all e.now ns) (record { tasks = cs; programs = ns; event = e.now } ∷ past) }
{
    match e {
        TraceEvent::Act {
            lane,
            verb,
            program,
            answer,
            ..
        } => match program {
            Some(g) => {
                let i = *g as usize;
                books[i] = booked_by(*lane, *verb, *answer, books[i]);
            }
            None => {}
        },
        _ => {}
    }
}

/// Whether the lane is the owner.
fn owns(lane: u32, owner: Option<u32>) -> bool
    ensures { result ≡ owns lane owner }
{
    match owner {
        Some(owner) => owner == lane,
        None => false,
    }
}

/// Whether an edit of this lane may be done.
fn may_be_done(verb: Verb, lane: u32, b: Booked) -> bool
    ensures { result ≡ may_be_done verb lane (owned_in b) (numbers_in b) }
{
    match verb {
        Verb::Accept => b.owner.is_none() || owns(lane, b.owner),
        Verb::Test => owns(lane, b.owner) && !b.testing,
        Verb::Untest => owns(lane, b.owner) && b.testing,
        _ => owns(lane, b.owner),
    }
}

/// Whether it may be refused.
fn may_be_refused(verb: Verb, lane: u32, b: Booked) -> bool
    ensures { result ≡ may_be_refused verb lane (owned_in b) (numbers_in b) }
{
    match verb {
        Verb::Accept => true,
        _ => !(may_be_done(verb, lane, b) && b.tested),
    }
}

/// Whether it may be answered so.
fn answers_edit(verb: Verb, lane: u32, b: Booked, answer: TraceAnswer) -> bool
    ensures { result ≡ answers_edit verb lane (owned_in b) (numbers_in b) answer }
{
    match answer {
        TraceAnswer::No => may_be_refused(verb, lane, b),
        _ => may_be_done(verb, lane, b),
    }
}

fn is_edit(verb: Verb) -> bool
    ensures { result ≡ is_edit verb }
{
    match verb {
        Verb::Accept | Verb::Test | Verb::Untest | Verb::Assemble | Verb::Cancel => true,
        _ => false,
    }
}

fn is_refused(answer: TraceAnswer) -> bool
    ensures { result ≡ is_refused answer }
{
    match answer {
        TraceAnswer::No => true,
        _ => false,
    }
}

/// Whether an edit on program g may be answered so.
fn answers_on(books: &[Booked], g: usize, lane: u32, verb: Verb, answer: TraceAnswer) -> bool
    requires { g < length books.now }
    ensures { (ns : List Numbers) (past : List CountedEvent) → Books books.now ns past
        → result ≡ answers_edit verb lane (owned g past) (slice_index_or ns g unedited) answer }
{
    answers_edit(verb, lane, books[g], answer)
}

/// Whether the event keeps the law of edits.
pub(crate) fn keeps_edits(books: &[Booked], e: &TraceEvent) -> bool
    requires { IsOfPrograms (length books.now) e.now }
    ensures { (cs : List Counted) (ns : List Numbers) (past : List CountedEvent) → Books books.now ns past
        → result ≡ keeps_edits past (record { tasks = cs; programs = ns; event = e.now }) }
{
    match e {
        TraceEvent::Act {
            lane,
            verb,
            program,
            answer,
            ..
        } => match program {
            Some(g) => {
                let edits = is_edit(*verb);
                let right = answers_on(books, *g as usize, *lane, *verb, *answer);
                !edits || right
            }
            None => {
                let edits = is_edit(*verb);
                !edits || is_refused(*answer)
            }
        },
        _ => true,
    }
}

/// Whether an accept has the next number.
fn is_next(b: Booked, number: u32) -> bool
    ensures { result ≡ nat_eq number (b.newest + 1) }
{
    number as u64 == b.newest as u64 + 1
}

/// Whether an action on program g has the next number, if it is an accept that was done.
fn counts_on(b: Booked, verb: Verb, answer: TraceAnswer) -> bool
    ensures { (cs : List Counted) (ns : List Numbers) (lane g mask : ℕ) → (slice_index_or ns g unedited).merged ≡ b.newest
        → result ≡ keeps_numbers (record { tasks = cs; programs = ns; event = Act lane verb (Some g) answer mask }) }
{
    match verb {
        Verb::Accept => match answer {
            TraceAnswer::Number(number) => is_next(b, number),
            _ => true,
        },
        _ => true,
    }
}

/// Whether the event keeps the law of numbers.
pub(crate) fn keeps_numbers(books: &[Booked], e: &TraceEvent) -> bool
    requires { IsOfPrograms (length books.now) e.now }
    ensures { (cs : List Counted) (ns : List Numbers) (past : List CountedEvent) → Books books.now ns past
        → result ≡ keeps_numbers (record { tasks = cs; programs = ns; event = e.now }) }
{
    match e {
        TraceEvent::Act {
            verb,
            program,
            answer,
            ..
        } => match program {
            Some(g) => counts_on(books[*g as usize], *verb, *answer),
            None => true,
        },
        _ => true,
    }
}
