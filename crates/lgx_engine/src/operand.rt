// What the first operand of an instruction names.
ghost use Rattle.std.specs.Prelude.{◌≡◌};
ghost use Rattle.spec_scan.specs.Fits.{IsRoutine, IsTask, operand_at};
ghost use Rattle.spec_scan.specs.Instructions.{target};

use lgx_num::Operand;

/// The number of the routine, of the label's rung or of the task that the first operand names; 0 if it names none.
pub(crate) fn target(args: &[Operand]) -> u64
    ensures { result ≡ target args.now }
{
    match args {
        [Operand::Routine(routine), ..] => u64::from(*routine),
        [Operand::Label(rung), ..] => *rung,
        [Operand::Task(task), ..] => u64::from(*task),
        _ => 0,
    }
}

/// The number of the routine that a call names.
pub(crate) fn routine_of(args: &[Operand]) -> u32
    requires { IsRoutine (operand_at args.now 0) }
    ensures { result ≡ target args.now }
{
    match args {
        [Operand::Routine(routine), ..] => *routine,
        _ => unreachable!(),
    }
}

/// The number of the task that a trigger names.
pub(crate) fn task_of(args: &[Operand]) -> u32
    requires { IsTask (operand_at args.now 0) }
    ensures { result ≡ target args.now }
{
    match args {
        [Operand::Task(task), ..] => *task,
        _ => unreachable!(),
    }
}
