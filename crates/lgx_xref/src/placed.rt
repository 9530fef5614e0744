// The instructions of a program, each with its place.
ghost use Rattle.std.specs.Prelude.{◌≡◌, ◌≤◌, ◌++◌, ◌∷◌, [], length, IfOk, OnOk};
ghost use Rattle.lgx_rung.specs.Tree.{instructions, leg_instructions, legs_of};
ghost use Rattle.lgx_edit.specs.Texts.{program_of, routine_of};
ghost use Rattle.lgx_prog.specs.Nodes.{tree_of};
ghost use Rattle.spec_uses.specs.Uses.{sites_of_rung, sites_of_routine, sites_of_program};
ghost use Rattle.lgx_xref.specs.Spots.{sites_on};

use lgx_edit::{ProgramText, RoutineText};
use lgx_num::Memory;
use lgx_prog::{Legs, Node, Rung};
use lgx_rung::Ins;
use spec_uses::Use;
use std::alloc::Global;
use std::marker::Model;

/// An instruction, and where it is.
#[derive(Drop)]
pub(crate) struct Placed<'p> {
    at: Use,
    ins: &'p Ins,
}

impl<'p> Model for Placed<'p> {
    ghost use Rattle.spec_uses.specs.Uses.{Site};

    ghost Value = { Site };

    ghost view = { λ p. record { at = p.at; ins = p.ins.now } };
}

impl<'p> Placed<'p> {
    /// Where it is.
    pub(crate) fn at(&self) -> Use
        ensures { result ≡ self.now.at }
    {
        self.at
    }

    /// The instruction.
    pub(crate) fn ins(&self) -> &Ins
        ensures { result.now ≡ self.now.ins }
    {
        self.ins
    }
}

/// A rung by its numbers, and how many instructions of its program come before it.
#[derive(Clone, Copy)]
struct RungPlace {
    program: u32,
    routine: u32,
    rung: u32,
    before: usize,
}

/// The number of a part of a project. No project has so many parts that it doesn't fit.
pub(crate) fn numbered(number: usize) -> Result<u32, Memory>
    ensures { IfOk result (λ n. n ≡ number) }
{
    match u32::try_from(number) {
        Ok(number) => Ok(number),
        Err(_) => Err(Memory),
    }
}

/// Adds an instruction.
fn place_ins<'p>(placed: &mut Vec<Placed<'p>>, here: RungPlace, ins: &'p Ins) -> Result<(), Memory>
    requires { here.before ≤ length placed.old.items }
    ensures { OnOk result (placed.new.items ≡ placed.old.items ++ sites_on here (length placed.old.items) (ins.now ∷ [])) }
{
    let at = Use {
        program: here.program,
        routine: here.routine,
        rung: here.rung,
        ins: numbered(placed.len() - here.before)?,
        op: ins.op,
    };
    placed.push(Placed { at, ins })?;
    Ok(())
}

/// Adds the instructions of a rung or a leg.
#[cycle(place)]
fn place_rung<'p>(
    placed: &mut Vec<Placed<'p>>,
    here: RungPlace,
    rung: &'p Rung,
) -> Result<(), Memory>
    requires { here.before ≤ length placed.old.items }
    ensures { OnOk result (placed.new.items ≡ placed.old.items ++ sites_on here (length placed.old.items) (instructions rung.now)) }
{
    for node in rung.nodes() {
        place_node(placed, here, node)?;
    }
    Ok(())
}

/// Adds an instruction or those of a fork.
#[cycle(place)]
fn place_node<'p>(
    placed: &mut Vec<Placed<'p>>,
    here: RungPlace,
    node: &'p Node,
) -> Result<(), Memory>
    requires { here.before ≤ length placed.old.items }
    ensures { OnOk result (placed.new.items ≡ placed.old.items ++ sites_on here (length placed.old.items) (instructions (tree_of (node.now ∷ [])))) }
{
    match node {
        Node::Ins(ins) => place_ins(placed, here, ins),
        Node::Fork(legs) => place_legs(placed, here, legs),
    }
}

/// Adds the instructions of a fork's legs.
#[cycle(place)]
fn place_legs<'p>(
    placed: &mut Vec<Placed<'p>>,
    here: RungPlace,
    legs: &'p Legs,
) -> Result<(), Memory>
    requires { here.before ≤ length placed.old.items }
    ensures { OnOk result (placed.new.items ≡ placed.old.items ++ sites_on here (length placed.old.items) (leg_instructions (legs_of legs.now))) }
{
    for leg in legs.as_slice() {
        place_rung(placed, here, leg)?;
    }
    Ok(())
}

/// Adds the instructions of a routine's rung.
fn place_next<'p>(
    placed: &mut Vec<Placed<'p>>,
    program: u32,
    routine: u32,
    number: usize,
    rung: &'p Rung,
) -> Result<(), Memory>
    ensures { OnOk result (placed.new.items ≡ placed.old.items ++ sites_of_rung program routine (number, rung.now)) }
{
    let rung_number = numbered(number)?;
    let before = placed.len();
    let here = RungPlace {
        program,
        routine,
        rung: rung_number,
        before,
    };
    place_rung(placed, here, rung)
}

/// Adds the instructions of a program's routine.
fn place_routine<'p>(
    placed: &mut Vec<Placed<'p>>,
    program: u32,
    number: usize,
    routine: &'p RoutineText,
) -> Result<(), Memory>
    ensures { OnOk result (placed.new.items ≡ placed.old.items ++ sites_of_routine program (number, routine_of routine.now)) }
{
    let routine_number = numbered(number)?;
    let rungs = routine.checked.as_slice();
    for (i, rung) in rungs.iter().enumerate() {
        place_next(placed, program, routine_number, i, rung)?;
    }
    Ok(())
}

/// The instructions of a program, in order.
pub(crate) fn placed_in<'p>(
    alloc: Global,
    number: u32,
    program: &'p ProgramText,
) -> Result<Vec<Placed<'p>>, Memory>
    ensures { IfOk result (λ placed. placed.items ≡ sites_of_program (number, program_of program.now)) }
{
    let mut placed = Vec::new(alloc);
    let routines = program.routines.as_slice();
    for (i, routine) in routines.iter().enumerate() {
        place_routine(&mut placed, number, i, routine)?;
    }
    Ok(placed)
}
