// Tasks.
ghost use Rattle.std.specs.Prelude.{◌≡◌, ◌<◌, ◌≤◌, length, IfSome};
ghost use Rattle.spec_base.specs.declared.limits.TheConstants.{LEAST_PRIORITY};
ghost use Rattle.test_parts.specs.Periods.{HasTicks};

use crate::trouble::Trouble;
use lgx_num::Memory;
use lgx_sched::{Release, TaskDef, TaskKind, TaskTable};
use spec_base::limits::LEAST_PRIORITY;
use std::alloc::Global;
use test_rows::{Told, number_at, word_at};

/// A table of four tasks.
#[derive(Drop)]
struct Tasks {
    table: TaskTable,
    ghost four: { length table.defs ≡ 4 },
}

/// `tasks | TASK TASK TASK TASK ? CALL; .. | ..`: what the calls answer at a table of four tasks.
///
/// A task is `E3`, `C` or `P5:10`: its kind, its priority and its period; its watchdog is 500 ticks. One after `-`
/// is inhibited. `finish NOW`,
/// `up`, `down`, `empty`, `cps` and `cop` are calls for the task that is chosen: they answer nothing.
pub fn say_tasks(alloc: Global, said: &mut Told, defs: &str, calls: &str) -> Result<(), Trouble> {
    let mut tasks = tasks_of(alloc, defs)?;
    for call in calls.split(';') {
        run(said, &mut tasks, call);
    }
    Ok(())
}

fn tasks_of(alloc: Global, defs: &str) -> Result<Tasks, Trouble> {
    let Some(first) = task(word_at(defs, 0)) else {
        return Err(Trouble::Form);
    };
    let Some(second) = task(word_at(defs, 1)) else {
        return Err(Trouble::Form);
    };
    let Some(third) = task(word_at(defs, 2)) else {
        return Err(Trouble::Form);
    };
    let Some(fourth) = task(word_at(defs, 3)) else {
        return Err(Trouble::Form);
    };
    Ok(table(alloc, first, second, third, fourth)?)
}

fn task(text: &str) -> Option<TaskDef>
    ensures { IfSome result (λ d. (0 < d.priority) × (d.priority ≤ LEAST_PRIORITY) × HasTicks d.kind) }
{
    match text.strip_prefix('-') {
        Some(text) => task_of(text, true),
        None => task_of(text, false),
    }
}

fn task_of(text: &str, inhibited: bool) -> Option<TaskDef>
    ensures { IfSome result (λ d. (0 < d.priority) × (d.priority ≤ LEAST_PRIORITY) × HasTicks d.kind) }
{
    if text == "C" {
        return Some(def(TaskKind::Continuous, LEAST_PRIORITY, inhibited));
    }
    if let Some(priority) = text.strip_prefix('E') {
        let priority = priority_of(priority)?;
        return Some(def(TaskKind::Event, priority, inhibited));
    }
    let (priority, period) = text.strip_prefix('P')?.split_once(':')?;
    let priority = priority_of(priority)?;
    let period = period.parse::<u32>().ok()?;
    if period == 0 {
        return None;
    }
    Some(def(TaskKind::Periodic(period), priority, inhibited))
}

fn def(kind: TaskKind, priority: u8, inhibited: bool) -> TaskDef
    ensures { (result.kind ≡ kind) × (result.priority ≡ priority) }
{
    TaskDef {
        kind,
        priority,
        watchdog: 500,
        inhibited,
    }
}

fn priority_of(text: &str) -> Option<u8>
    ensures { IfSome result (λ p. (0 < p) × (p ≤ LEAST_PRIORITY)) }
{
    let priority = text.parse::<u8>().ok()?;
    if priority == 0 || priority > LEAST_PRIORITY {
        return None;
    }
    Some(priority)
}

fn table(
    alloc: Global,
    first: TaskDef,
    second: TaskDef,
    third: TaskDef,
    fourth: TaskDef,
) -> Result<Tasks, Memory>
    requires first { (0 < first.priority) × (first.priority ≤ LEAST_PRIORITY) × HasTicks first.kind }
    requires second { (0 < second.priority) × (second.priority ≤ LEAST_PRIORITY) × HasTicks second.kind }
    requires third { (0 < third.priority) × (third.priority ≤ LEAST_PRIORITY) × HasTicks third.kind }
    requires fourth { (0 < fourth.priority) × (fourth.priority ≤ LEAST_PRIORITY) × HasTicks fourth.kind }
{
    let table = TaskTable::new(alloc, &[first, second, third, fourth])?;
    Ok(Tasks { table })
}

fn run(said: &mut Told, tasks: &mut Tasks, call: &str) {
    match word_at(call, 0) {
        "chosen" => said.or_none(tasks.table.chosen()),
        "held" => said.truth(tasks.table.held()),
        "rotate" => tasks.table.rotate(),
        "stop" => tasks.table.stop(),
        "regions" => say_regions(said, tasks, call),
        "release" => say_release(said, tasks, call),
        "due" => say_due(said, tasks, call),
        "ready" => say_ready(said, tasks, call),
        what => run_other(said, tasks, what, call),
    }
}

/// The calls that take a tick, and those that open something for the task that is chosen, or close it.
fn run_other(said: &mut Told, tasks: &mut Tasks, what: &str, call: &str) {
    match what {
        "start" => {
            let now = number_at(said, call, 1);
            tasks.table.start(now);
        }
        "expired" => {
            let now = number_at(said, call, 1);
            said.or_none(tasks.table.expired(now));
        }
        "finish" => finish(said, tasks, call),
        "up" => region_up(said, tasks),
        _ => open(said, tasks, what),
    }
}

fn finish(said: &mut Told, tasks: &mut Tasks, call: &str) {
    let now = number_at(said, call, 1);
    match tasks.table.chosen() {
        Some(task) => tasks.table.finish(task, now),
        None => said.malformed(),
    }
}

fn region_up(said: &mut Told, tasks: &mut Tasks) {
    match tasks.table.chosen() {
        Some(task) if task < 4 && tasks.table.region_count(task) <= 1000 => {
            tasks.table.region_up(task);
        }
        _ => said.malformed(),
    }
}

fn open(said: &mut Told, tasks: &mut Tasks, what: &str) {
    let Some(task) = tasks.table.chosen() else {
        said.malformed();
        return;
    };
    match what {
        "down" => tasks.table.region_down(task),
        "empty" => tasks.table.region_clear(task),
        "cps" => tasks.table.set_copy(task, true),
        "cop" => tasks.table.set_copy(task, false),
        _ => said.malformed(),
    }
}

fn say_regions(said: &mut Told, tasks: &Tasks, call: &str) {
    let task = number_at(said, call, 1);
    if task < 4 {
        said.number(i64::from(tasks.table.region_count(task)));
    } else {
        said.malformed();
    }
}

fn say_release(said: &mut Told, tasks: &mut Tasks, call: &str) {
    let task = number_at(said, call, 1);
    let now = number_at(said, call, 2);
    if task < 4 {
        said.word(match tasks.table.release(task, now) {
            Release::Released => "released",
            Release::Overlap => "overlap",
            Release::Inhibited => "inhibited",
        });
    } else {
        said.malformed();
    }
}

fn say_due(said: &mut Told, tasks: &Tasks, call: &str) {
    let task = number_at(said, call, 1);
    let now = number_at(said, call, 2);
    if task < 4 {
        said.truth(tasks.table.due(task, now));
    } else {
        said.malformed();
    }
}

fn say_ready(said: &mut Told, tasks: &Tasks, call: &str) {
    let priority = number_at(said, call, 1);
    let place = number_at(said, call, 2);
    if 0 < priority && priority <= u32::from(LEAST_PRIORITY) {
        said.or_none(tasks.table.ready(priority as u8, place));
    } else {
        said.malformed();
    }
}
