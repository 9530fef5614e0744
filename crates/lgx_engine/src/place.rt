// Which instruction the next step of a scan executes.
ghost use Rattle.std.specs.Prelude.{◌≡◌, ℕ, List};
ghost use Rattle.spec_scan.specs.Position.{Frame as MachineFrame, Position as MachinePosition, ProgramRungs};
ghost use Rattle.lgx_engine.specs.Represents.{IsRunOf, RepresentsFrames};
ghost use Rattle.lgx_engine.specs.Steps.{RepresentsIn};
ghost use Rattle.lgx_engine.specs.Executing.{execution_of, in_frames, executing};

use crate::frame::{Frame, Frames, Position};
use crate::moves::code_of;
use lgx_prog::FlatProgram;

/// An instruction that is executed: the number of its routine, how many pieces of flat code the routine has left, from the
/// instruction on, and the condition before it.
#[derive(Clone, Copy)]
pub struct Execution {
    pub routine: u32,
    pub left: usize,
    pub on: bool,
}

impl Position {
    /// The instruction that the next step of the scan executes; None if that step copies an element or leaves a routine.
    #[inline(always)]
    pub fn executing(&self, program: &FlatProgram) -> Option<Execution>
        ensures { (rungs : ProgramRungs) (p : MachinePosition) (len : ℕ) → IsRunOf program.now self.now rungs p len → result ≡ executing p }
    {
        match self.copying {
            Some(_) => None,
            None => executing_in(program, &self.frames),
        }
    }
}

/// The next instruction of the innermost routine; None if the routine is at its end, or if there is none.
#[inline(always)]
fn executing_in(program: &FlatProgram, frames: &Frames) -> Option<Execution>
    ensures { (fs : List MachineFrame) → RepresentsFrames program.now frames.now fs → result ≡ in_frames fs }
{
    match (frames.next_ins(program), frames.top()) {
        (Some(_), Some(frame)) => Some(execution_of(program, frame)),
        _ => None,
    }
}

/// What a routine executes that is before an instruction.
#[inline(always)]
fn execution_of(program: &FlatProgram, frame: &Frame) -> Execution
    ensures { (f : MachineFrame) → RepresentsIn program.now frame.now f → result ≡ execution_of f }
{
    Execution {
        routine: frame.routine,
        left: code_of(program, frame).len().saturating_sub(frame.rung.pc),
        on: frame.rung.on,
    }
}
