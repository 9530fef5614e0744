// The prescan of a program.
ghost use Rattle.std.specs.Prelude.{◌≡◌, length, fold};
ghost use Rattle.std.specs.List.{AllByRecursion as Each};
ghost use Rattle.spec_scan.specs.Position.{ProgramRungs};
ghost use Rattle.spec_scan.specs.Prescan.{prescan_ins, prescan};
ghost use Rattle.lgx_image.specs.Grains.{ChangesOnlyMarked};
ghost use Rattle.lgx_prog.specs.Executes.{executes};
ghost use Rattle.lgx_prog.specs.FlatProgram.{IsFlatProgram};
ghost use Rattle.spec_scan.specs.Executable.{IsExecutable, IsExecutableProgram};

use crate::instruction::prescan_ins;
use lgx_image::Image;
use lgx_prog::{Code, FlatProgram};

/// The prescan of a program: what the change to Run does to its tags.
pub fn prescan(program: &FlatProgram, image: &mut Image)
    requires { (rungs : ProgramRungs) × IsFlatProgram program.now rungs × IsExecutableProgram (length image.old.bytes) rungs }
    ensures bytes { (rungs : ProgramRungs) → IsFlatProgram program.now rungs → image.new.bytes ≡ prescan rungs image.old.bytes }
    ensures only_marked { ChangesOnlyMarked image.old image.new }
{
    for routine in program.reached() {
        prescan_code(program.code(*routine), image);
    }
}

/// The prescan of a routine's code.
fn prescan_code(code: &[Code], image: &mut Image)
    requires { Each (IsExecutable (length image.old.bytes)) (executes code.now) }
    ensures bytes { image.new.bytes ≡ fold prescan_ins image.old.bytes (executes code.now) }
    ensures only_marked { ChangesOnlyMarked image.old image.new }
{
    for piece in code {
        if let Code::Execute(ins) = piece {
            prescan_ins(ins, image);
        }
    }
}
