// Rows of rungs that are checked, over the tags of program 0. Their routines are called Sub0 to Sub63.
use crate::errors::Refusal;
use crate::operand::say_operand;
use crate::program::read_rungs;
use crate::world::World;
use lgx_num::Operand;
use lgx_prog::{Node, Rung};
use lgx_rung::CheckFault;
use std::alloc::{AllocError, Global};
use test_rows::Told;

/// What is tried in the place of an operand: a BOOL, a SINT, an INT, a DINT, a TIMER, a COUNTER, an array of BOOLs,
/// of DINTs and of TIMERs, a structure, a flag, a number, a number out of its range, and `?`.
const SAMPLES: &str = "b s i n t c bs arr ts cell S:V 5 99999999999 ?";

fn world(alloc: Global) -> Result<World, Refusal> {
    World::new(alloc, 0, "Sub")
}

/// `check | RUNGS | ..`: `ok`, or the code of the first fault, its rung and its instruction.
pub fn say_check(alloc: Global, said: &mut Told, given: &str) -> Result<(), Refusal> {
    let world = world(alloc)?;
    say_faults(alloc, said, &world, given)
}

fn say_faults(alloc: Global, said: &mut Told, world: &World, given: &str) -> Result<(), Refusal> {
    match fault_of(alloc, world, given)? {
        Some(fault) => say_fault(said, fault),
        None => said.word("ok"),
    }
    Ok(())
}

/// The first fault of the rungs of a text, if they have one.
fn fault_of(alloc: Global, world: &World, text: &str) -> Result<Option<CheckFault>, Refusal> {
    let rungs = read_rungs(alloc, text)?;
    match world.check(alloc, &rungs) {
        Ok(_) => Ok(None),
        Err(Refusal::Check(fault)) => Ok(Some(fault)),
        Err(refusal) => Err(refusal),
    }
}

fn say_fault(said: &mut Told, fault: CheckFault) {
    let CheckFault { code, rung, ins } = fault;
    said.shown(&code);
    said.shown(&rung);
    said.shown(&ins);
}

/// `labels | COUNT RUNGS | ..`: the same of COUNT rungs `LBL(L0);`, `LBL(L1);` and so on, with others after them.
pub fn say_labels(alloc: Global, said: &mut Told, given: &str) -> Result<(), Refusal> {
    let (count, others) = given.split_once(' ').ok_or(Refusal::Form)?;
    let count = count.parse::<u32>().ok().ok_or(Refusal::Form)?;
    let text = labelled(alloc, count, others)?;
    say_check(alloc, said, text.as_str())
}

fn labelled(alloc: Global, count: u32, others: &str) -> Result<String, AllocError> {
    let mut text = String::new(alloc);
    for label in 0..count {
        write!(text, "LBL(L{label});")?;
    }
    text.push_str(others)?;
    Ok(text)
}

/// `samples | INSTRUCTION | CODES`: for each sample in the place of `*`, `ok` or the code of the fault of the
/// instruction, which is alone in its rung, in a routine with a label `here`. `each | INSTRUCTION / TEXT .. | CODES`
/// is the same with these texts, and `-` stands for no text.
pub fn say_samples(alloc: Global, said: &mut Told, given: &str) -> Result<(), Refusal> {
    say_codes(alloc, said, given, SAMPLES)
}

pub fn say_each(alloc: Global, said: &mut Told, given: &str) -> Result<(), Refusal> {
    let (instruction, texts) = given.split_once('/').ok_or(Refusal::Form)?;
    say_codes(alloc, said, instruction.trim(), texts)
}

fn say_codes(
    alloc: Global,
    said: &mut Told,
    instruction: &str,
    texts: &str,
) -> Result<(), Refusal> {
    let world = world(alloc)?;
    say_each_code(alloc, said, &world, instruction, texts)
}

fn say_each_code(
    alloc: Global,
    said: &mut Told,
    world: &World,
    instruction: &str,
    texts: &str,
) -> Result<(), Refusal> {
    for text in texts.split_whitespace() {
        let rungs = rungs_with(alloc, instruction, text)?;
        say_code(said, fault_of(alloc, world, rungs.as_str())?);
    }
    Ok(())
}

/// The instruction with a text in the place of `*`, and the label.
fn rungs_with(alloc: Global, instruction: &str, text: &str) -> Result<String, AllocError> {
    let (before, after) = instruction.split_once('*').unwrap_or((instruction, ""));
    let text = if text == "-" { "" } else { text };
    format!(in alloc; "{before}{text}{after};LBL(here);")
}

/// Says the code of a fault of the first instruction of the first rung.
fn say_code(said: &mut Told, fault: Option<CheckFault>) {
    match fault {
        None => said.word("ok"),
        Some(
            CheckFault {
                code,
                rung: 0,
                ins: 0,
            },
        ) => said.shown(&code),
        Some(fault) => said.shown(&fault),
    }
}

/// `means | RUNGS | ..`: what the operands of the instructions stand for that are in no fork.
pub fn say_meaning(alloc: Global, said: &mut Told, given: &str) -> Result<(), Refusal> {
    let rungs = read_rungs(alloc, given)?;
    let world = world(alloc)?;
    let checked = world.check(alloc, &rungs)?;
    for rung in checked.as_slice() {
        say_rung(said, rung);
    }
    Ok(())
}

fn say_rung(said: &mut Told, rung: &Rung) {
    for node in rung.nodes() {
        if let Node::Ins(ins) = node {
            say_operands(said, ins.args.as_slice());
        }
    }
}

fn say_operands(said: &mut Told, operands: &[Operand]) {
    for operand in operands {
        say_operand(said, operand);
    }
}
