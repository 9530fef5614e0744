// The text of the project.
ghost use Rattle.std.specs.Prelude.{◌≡◌, ◌*◌, ◌++◌, OnOk, IfOk};
ghost use Rattle.lgx_gen.specs.Draws.{state_after};
ghost use Rattle.lgx_gen.specs.ProjectText.{tags, rung_line, program, programs, tasks, connections, initial_values, watches};
ghost use Rattle.lgx_gen.specs.Generated.{generated};

use crate::draws::Draws;
use crate::pieces::{push_comma, push_listed, push_numbered};
use crate::rungs::push_rung;
use crate::sizes::{PROGRAMS, RUNGS, TAGS, TIMERS};
use lgx_num::Memory;
use std::alloc::Global;

/// Room for the longest text.
const ROOM: usize = 8192;

/// Adds the tags.
#[tactic(auto, unfolding(crate::specs::ProjectText::tags))]
fn push_tags(text: &mut Vec<u8>) -> Result<(), Memory>
    ensures { OnOk result (text.new.items ≡ text.old.items ++ tags) }
{
    push_listed(
        text,
        TAGS,
        b"\n  {\"name\": \"a",
        b"\", \"type\": \"BOOL\"}",
    )?;
    text.push(b',')?;
    push_listed(
        text,
        TAGS,
        b"\n  {\"name\": \"n",
        b"\", \"type\": \"DINT\"}",
    )?;
    text.push(b',')?;
    push_listed(
        text,
        TIMERS,
        b"\n  {\"name\": \"t",
        b"\", \"type\": \"TIMER\"}",
    )?;
    text.push(b',')?;
    push_listed(
        text,
        TIMERS,
        b"\n  {\"name\": \"c",
        b"\", \"type\": \"COUNTER\"}",
    )?;
    text.extend_from_slice(
        br#",
  {"name": "w", "type": "DINT", "dim": 4},
  {"name": "Local:1:I", "type": "DINT", "dim": 4}"#,
    )?;
    Ok(())
}

/// Adds a drawn rung as a text of JSON, on a line of its own.
fn push_rung_line(text: &mut Vec<u8>, draws: &mut Draws) -> Result<(), Memory>
    ensures text { OnOk result (text.new.items ≡ text.old.items ++ rung_line draws.old 0) }
    ensures draws { OnOk result (draws.new ≡ state_after 4 draws.old) }
{
    text.extend_from_slice(b"\n    \"")?;
    push_rung(text, draws)?;
    text.push(b'"')?;
    Ok(())
}

/// Adds a program with drawn rungs.
fn push_program(text: &mut Vec<u8>, draws: &mut Draws, number: u32) -> Result<(), Memory>
    ensures text { OnOk result (text.new.items ≡ text.old.items ++ program draws.old 0 number) }
    ensures draws { OnOk result (draws.new ≡ state_after (4 * RUNGS) draws.old) }
{
    push_numbered(text, b"\n  {\"name\": \"P", number)?;
    text.extend_from_slice(br#"", "main": "M", "routines": [{"name": "M", "rungs": ["#)?;
    for rung in 0..RUNGS {
        push_comma(text, rung)?;
        push_rung_line(text, draws)?;
    }
    text.extend_from_slice(b"]}]}")?;
    Ok(())
}

/// Adds the programs.
fn push_programs(text: &mut Vec<u8>, draws: &mut Draws) -> Result<(), Memory>
    ensures { OnOk result (text.new.items ≡ text.old.items ++ programs draws.old PROGRAMS) }
{
    for number in 0..PROGRAMS {
        push_comma(text, number)?;
        push_program(text, draws, number)?;
    }
    Ok(())
}

/// Adds the tasks.
#[tactic(auto, unfolding(crate::specs::ProjectText::tasks))]
fn push_tasks(text: &mut Vec<u8>) -> Result<(), Memory>
    ensures { OnOk result (text.new.items ≡ text.old.items ++ tasks) }
{
    text.extend_from_slice(
        br#"
  {"name": "Cont", "kind": "continuous", "programs": ["P0"]},
  {"name": "Per1", "kind": "periodic", "priority": 4, "period": 3, "programs": ["P1"]},
  {"name": "Per2", "kind": "periodic", "priority": 4, "period": 7, "programs": ["P2"]},
  {"name": "Ev", "kind": "event", "priority": 2, "programs": ["P3"]}"#,
    )?;
    Ok(())
}

/// Adds the connections.
#[tactic(auto, unfolding(crate::specs::ProjectText::connections))]
fn push_connections(text: &mut Vec<u8>) -> Result<(), Memory>
    ensures { OnOk result (text.new.items ≡ text.old.items ++ connections) }
{
    text.extend_from_slice(
        br#"
  {"name": "In", "tag": "Local:1:I", "direction": "in", "trigger": "Ev"}"#,
    )?;
    Ok(())
}

/// Adds the presets of timers and counters.
#[tactic(auto, unfolding(crate::specs::ProjectText::initial_values))]
fn push_initial_values(text: &mut Vec<u8>) -> Result<(), Memory>
    ensures { OnOk result (text.new.items ≡ text.old.items ++ initial_values) }
{
    push_listed(text, TIMERS, b"\n  {\"tag\": \"t", b".PRE\", \"value\": 3}")?;
    text.push(b',')?;
    push_listed(text, TIMERS, b"\n  {\"tag\": \"c", b".PRE\", \"value\": 4}")
}

/// The project that a number makes: four programs of 32 drawn rungs each, under a continuous, two periodic and an event task.
///
/// It is a project file of schema 1 with each tag, rung, task, initial value and watched place on a line of its own. Its lists
/// have commas at the ends of lines, and a line feed comes after its last brace. Out of memory is the one fault.
pub fn gen_project(alloc: Global, n: u32) -> Result<Vec<u8>, Memory>
    ensures { IfOk result (λ text. text.items ≡ (generated n).project) }
{
    let mut text = Vec::with_capacity(alloc, ROOM)?;
    text.extend_from_slice(b"{\"schema\": 1, \"controller\": \"Gen\",\n \"tags\": [")?;
    push_tags(&mut text)?;
    text.extend_from_slice(b"],\n \"programs\": [")?;
    push_programs(&mut text, &mut Draws::of(n))?;
    text.extend_from_slice(b"],\n \"tasks\": [")?;
    push_tasks(&mut text)?;
    text.extend_from_slice(b"],\n \"connections\": [")?;
    push_connections(&mut text)?;
    text.extend_from_slice(b"],\n \"initial\": [")?;
    push_initial_values(&mut text)?;
    text.extend_from_slice(b"],\n \"watch\": [")?;
    push_listed(&mut text, TAGS, b"\n  \"n", b"\"")?;
    text.extend_from_slice(b"]}\n")?;
    Ok(text)
}
