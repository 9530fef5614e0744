// What a trace shows of an event.
ghost use Rattle.std.specs.Prelude.{◌≡◌, ◌+◌, ◌<◌, ◌^◌, length, IfOk, IfErr, IfSome};
ghost use Rattle.std.specs.List.{position_from};
ghost use Rattle.spec_base.specs.declared.limits.TheConstants.{MAX_EVENTS};
ghost use Rattle.lgx_num.specs.Name.{same};
ghost use Rattle.spec_schedule.specs.declared.trace.TraceEvent.TheVariants.{Tick};
ghost use Rattle.spec_schedule.specs.TraceView.{mark_of, fault_of, step_seen, verb_of, answer_of, named};
ghost use Rattle.spec_machine.specs.Machine.{OfAction, OfStep, OfTick};
ghost use Rattle.cmd_trace.specs.Seen.{numbered, seen_by, Makes};

use lgx_audit::{StepFault, TraceAnswer, TraceEvent, TraceMark, Verb};
use lgx_core::{Controller, Mark, Moment, Outcome, TickReport, What};
use lgx_journal::{Action, Event, Reply};
use lgx_num::{Memory, Name};
use spec_tables::{Fault, Severity};

/// What an instruction or a copied element did.
fn mark_of(mark: Mark) -> TraceMark
    ensures { result ≡ mark_of mark }
{
    match mark {
        Mark::Plain => TraceMark::Plain,
        Mark::Up => TraceMark::Up,
        Mark::Down => TraceMark::Down,
        Mark::Trigger(task) => TraceMark::Trigger(task),
        Mark::CopyStart(false) => TraceMark::Copy,
        Mark::CopyStart(true) => TraceMark::Sync,
        Mark::CopyEnd(false) => TraceMark::CopyEnd,
        Mark::CopyEnd(true) => TraceMark::SyncEnd,
    }
}

/// How severe a fault is, if there is one.
fn fault_of(fault: Option<Fault>) -> StepFault
    ensures { result ≡ fault_of fault }
{
    match fault {
        None => StepFault::Plain,
        Some(fault) => match fault.severity {
            Severity::Minor => StepFault::Minor,
            Severity::Major => StepFault::Major,
        },
    }
}

/// What is seen of a processor step.
fn step_seen(moment: Moment) -> TraceEvent
    ensures { result ≡ step_seen moment moment.what }
{
    match moment.what {
        What::Idle => TraceEvent::Idle,
        What::Began {
            task,
            program,
            version,
        } => TraceEvent::Began {
            task,
            program,
            version,
        },
        What::Ran { task, program } => TraceEvent::Step {
            task,
            program,
            mark: mark_of(moment.mark),
            fault: fault_of(moment.fault),
        },
        What::Copied { task, program } => TraceEvent::Step {
            task,
            program,
            mark: mark_of(moment.mark),
            fault: fault_of(moment.fault),
        },
        What::Left {
            task,
            program,
            ended,
        } => TraceEvent::Left {
            task,
            program,
            ended,
        },
    }
}

/// What is seen of a tick.
fn tick_seen(report: TickReport) -> TraceEvent
    ensures { result ≡ Tick report.released report.overlapped report.watchdog }
{
    TraceEvent::Tick {
        released: report.released,
        overlapped: report.overlapped,
        watchdog: report.watchdog,
    }
}

/// The kind of an action.
fn verb_of(action: &Action) -> Verb
    ensures { result ≡ verb_of action.now }
{
    match action {
        Action::Accept(_) => Verb::Accept,
        Action::Test(_) => Verb::Test,
        Action::Untest(_) => Verb::Untest,
        Action::Assemble(_) => Verb::Assemble,
        Action::Cancel(_) => Verb::Cancel,
        Action::ModeRun => Verb::Run,
        Action::ModeProgram => Verb::Program,
        Action::Clear => Verb::Clear,
        _ => Verb::Other,
    }
}

/// The number of the program of this name, unless there is none.
fn number_of(names: &[Name], name: &Name) -> Option<u32>
    requires { length names.now < 2 ^ 32 }
    ensures { result ≡ position_from (λ n. same n name.now) 0 names.now }
{
    for (i, other) in names.iter().enumerate() {
        if other.same(name) {
            return Some(i as u32);
        }
    }
    None
}

/// The number of the program that an edit names, unless there is none.
fn program_of(names: &[Name], action: &Action) -> Option<u32>
    requires { length names.now < 2 ^ 32 }
    ensures { result ≡ numbered names.now (named action.now) }
{
    match action {
        Action::Accept(accept) => number_of(names, &accept.program),
        Action::Test(program) => number_of(names, program),
        Action::Untest(program) => number_of(names, program),
        Action::Assemble(program) => number_of(names, program),
        Action::Cancel(program) => number_of(names, program),
        _ => None,
    }
}

/// The answer to an action.
fn answer_of(reply: Reply) -> TraceAnswer
    ensures { result ≡ answer_of reply }
{
    match reply {
        Reply::Done => TraceAnswer::Done,
        Reply::Word(_) => TraceAnswer::Done,
        Reply::Version(number) => TraceAnswer::Number(number),
        _ => TraceAnswer::No,
    }
}

/// What is seen of an action.
fn action_seen(names: &[Name], lane: u32, action: &Action, outcome: Outcome) -> TraceEvent
    requires { length names.now < 2 ^ 32 }
    ensures { result ≡ seen_by names.now (OfAction lane action.now outcome) }
{
    TraceEvent::Act {
        lane,
        verb: verb_of(action),
        program: program_of(names, action),
        answer: answer_of(outcome.reply),
        released: outcome.released,
    }
}

/// Makes an event, and answers what is seen of it. Out of memory comes at an accept alone; then nothing changes.
pub(crate) fn make(
    controller: &mut Controller,
    names: &[Name],
    event: &Event,
) -> Result<TraceEvent, Memory>
    requires room { controller.old.spent < MAX_EVENTS }
    requires few { length names.now < 2 ^ 32 }
    ensures made { IfOk result (λ x. Makes controller.old controller.new names.now event.now x) }
    ensures spent { IfOk result (λ _. controller.new.spent ≡ controller.old.spent + 1) }
    ensures unchanged { IfErr result (λ _. controller.new ≡ controller.old) }
{
    match event {
        Event::Cpu => {
            let moment = controller.cpu();
            Ok(step_seen(moment))
        }
        Event::Tick => {
            let report = controller.tick();
            Ok(tick_seen(report))
        }
        Event::Act(lane, action) => match controller.act(*lane, action) {
            Ok(outcome) => Ok(action_seen(names, *lane, action, outcome)),
            Err(memory) => Err(memory),
        },
    }
}
