// The routines in progress, the innermost last.
ghost use Rattle.std.specs.Prelude.{◌≡◌, ◌+◌, ◌^◌, ◌<◌, ◌≤◌, ◌==◌, ℕ, List, [], ◌∷◌, drop, length, option_map, IsSome, IfSome, IfNone};
ghost use Rattle.spec_base.specs.declared.limits.TheConstants.{MAX_FRAMES};
ghost use Rattle.spec_scan.specs.Position.{Frame as MachineFrame, ProgramRungs, enter};
ghost use Rattle.lgx_prog.specs.FlatProgram.{Program, IsFlatProgram};
ghost use Rattle.lgx_engine.specs.Views.{FrameView};
ghost use Rattle.lgx_engine.specs.Rows.{control_of, inputs_of_top, returns_of_top};
ghost use Rattle.lgx_engine.specs.Represents.{RepresentsFrames};
ghost use Rattle.lgx_engine.specs.Steps.{RepresentsIn, NextFor, NextIs, HasNext, AtInstruction, after_ins, frame_after};

use crate::frame::{Frame, Frames, Inputs, Returns};
use crate::moves::{begin, code_of, step_on};
use crate::row::Control;
use crate::settling::{piece_at, settle_frame};
use lgx_num::Place;
use lgx_prog::{Code, FlatProgram, Prepared};

impl Frames {
    /// No routine is in progress.
    pub(crate) fn new() -> Frames
        ensures { result ≡ [] }
    {
        Frames {
            slots: Default::default(),
            depth: 0,
        }
    }

    /// How many there are.
    pub(crate) fn len(&self) -> usize
        ensures value { result ≡ length self.now }
        ensures few { result ≤ MAX_FRAMES }
    {
        self.depth
    }

    /// The innermost frame.
    #[inline(always)]
    pub(crate) fn top(&self) -> Option<&Frame>
        ensures some { IfSome result (λ frame. (outer : List FrameView) × (self.now ≡ frame.now ∷ outer)) }
        ensures none { IfNone result (self.now ≡ []) }
    {
        if self.depth == 0 {
            None
        } else {
            Some(&self.slots[self.depth - 1])
        }
    }

    /// The next instruction of the innermost routine; None if the routine is at its end, or if there is none.
    pub(crate) fn next_ins<'a>(&self, program: &'a FlatProgram) -> Option<&'a Prepared>
        ensures next { (fs : List MachineFrame) → RepresentsFrames program.now self.now fs → NextIs fs (option_map (λ i. i.now) result) }
        ensures room { IsSome result → HasNext self.now }
    {
        ins_at(program, self.top()?)
    }

    /// The condition of the innermost routine; false if there is none.
    pub(crate) fn condition(&self) -> bool
        ensures { (f : MachineFrame) (outer : List MachineFrame) (program : Program) → RepresentsFrames program self.now (f ∷ outer) → result ≡ f.cursor.on }
    {
        match self.top() {
            Some(frame) => frame.rung.on,
            None => false,
        }
    }

    /// What the innermost routine was handed; nothing if there is none.
    pub(crate) fn inputs(&self) -> &[i32]
        ensures { result.now ≡ inputs_of_top self.now }
    {
        match self.top() {
            Some(frame) => frame.inputs.as_slice(),
            None => &[],
        }
    }

    /// The places of the returns of the innermost routine; none if there is none.
    pub(crate) fn returns(&self) -> &[Place]
        ensures { result.now ≡ returns_of_top self.now }
    {
        match self.top() {
            Some(frame) => frame.returns.as_slice(),
            None => &[],
        }
    }

    /// The innermost routine goes on after its instruction, with this condition, as the instruction asks for.
    #[inline(always)]
    pub(crate) fn finish_instruction(&mut self, program: &FlatProgram, on: bool, control: Control)
        requires at { AtInstruction program.now self.old }
        requires room { HasNext self.old }
        ensures represents { (rungs : ProgramRungs) (at : AtInstruction program.now self.old) → IsFlatProgram program.now rungs → RepresentsFrames program.now self.new (frame_after rungs (control_of control) (after_ins at.frame at.rest on) ∷ at.outer) }
        ensures length { length self.new ≡ length self.old }
    {
        if self.depth > 0 {
            step_on(program, &mut self.slots[self.depth - 1], on, control);
        }
    }

    /// A routine is entered that is handed nothing. There must be room.
    pub(crate) fn enter(&mut self, program: &FlatProgram, routine: u32)
        requires room { length self.old < MAX_FRAMES }
        ensures represents { (rungs : ProgramRungs) (fs : List MachineFrame) → IsFlatProgram program.now rungs → RepresentsFrames program.now self.old fs → RepresentsFrames program.now self.new (enter rungs routine [] [] ∷ fs) }
        ensures length { length self.new ≡ length self.old + 1 }
    {
        enter_at(program, &mut self.slots[self.depth], routine);
        self.depth += 1;
    }

    /// The routine that was entered last is handed these inputs and places of returns.
    pub(crate) fn hand_over(&mut self, inputs: Inputs, returns: Returns)
        ensures represents { (rungs : ProgramRungs) (fs : List MachineFrame) (program : Program) (routine : ℕ) → RepresentsFrames program self.old (enter rungs routine [] [] ∷ fs) → RepresentsFrames program self.new (enter rungs routine inputs.items returns.items ∷ fs) }
        ensures length { length self.new ≡ length self.old }
    {
        if self.depth > 0 {
            hand_to(&mut self.slots[self.depth - 1], inputs, returns);
        }
    }

    /// The innermost routine is left; answers whether it was the last.
    pub(crate) fn leave(&mut self) -> bool
        ensures frames { self.new ≡ drop 1 self.old }
        ensures last { result ≡ (length self.new == 0) }
    {
        self.depth = self.depth.saturating_sub(1);
        self.depth == 0
    }

    /// All routines are left.
    pub(crate) fn leave_all(&mut self)
        ensures { self.new ≡ [] }
    {
        self.depth = 0;
    }
}

/// The next instruction of a routine in progress; None if the routine is at its end.
fn ins_at<'a>(program: &'a FlatProgram, frame: &Frame) -> Option<&'a Prepared>
    ensures next { (f : MachineFrame) → RepresentsIn program.now frame.now f → NextFor f (option_map (λ i. i.now) result) }
    ensures room { IsSome result → frame.now.pc + 1 < 2 ^ 64 }
{
    match piece_at(code_of(program, frame), frame.rung.pc) {
        Some(Code::Execute(ins)) => Some(ins),
        _ => None,
    }
}

/// A frame's place is taken by a routine that is entered: before its first instruction, in no zone, and handed nothing.
fn enter_at(program: &FlatProgram, frame: &mut Frame, routine: u32)
    ensures { (rungs : ProgramRungs) → IsFlatProgram program.now rungs → RepresentsIn program.now frame.new (enter rungs routine [] []) }
{
    begin(frame, routine);
    settle_frame(program.code(routine as usize), frame);
}

/// The routine in a frame is handed these inputs and places of returns.
fn hand_to(frame: &mut Frame, inputs: Inputs, returns: Returns)
    ensures { frame.new ≡ record frame.old { inputs = inputs.items; returns = returns.items } }
{
    frame.inputs = inputs;
    frame.returns = returns;
}
