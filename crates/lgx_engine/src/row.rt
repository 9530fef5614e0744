// One instruction: what it does to the image and the flags, and what else it does.
ghost use Rattle.std.specs.Prelude.{◌≡◌, ℕ, ◌+◌, ◌≤◌, true, false, ◌||◌, List, length, if◌then◌else◌, IfSome, Some, None};
ghost use Rattle.spec_base.specs.declared.limits.TheConstants.{TIMER_BYTES};
ghost use Rattle.spec_tables.specs.declared.fault.TheConstants.{BAD_TIMER};
ghost use Rattle.lgx_rung.specs.OperandTable.{family_of};
ghost use Rattle.lgx_rung.specs.declared.operands.OperandKind.{OperandKind};
ghost use Rattle.spec_scan.specs.Arguments.{arg, bind, byte_of};
ghost use Rattle.spec_scan.specs.Timers.{timer};
ghost use Rattle.spec_scan.specs.StatusWords.{reset};
ghost use Rattle.spec_scan.specs.Arithmetic.{math};
ghost use Rattle.spec_scan.specs.Copies.{start_copy};
ghost use Rattle.spec_scan.specs.Position.{Frame};
ghost use Rattle.spec_scan.specs.Instructions.{row, acts_when_false};
ghost use Rattle.spec_scan.specs.ArgBounds.{ArgInBounds, ArgsInBounds};
ghost use Rattle.lgx_image.specs.Grains.{ChangesOnlyMarked};
ghost use Rattle.spec_scan.specs.Executable.{IsExecutable, ArgsEndIn};
ghost use Rattle.spec_scan.specs.Fits.{OperandsFit, ArgFits, ArgsFit};
ghost use Rattle.lgx_prog.specs.HandsOver.{hands_over};
ghost use Rattle.lgx_engine.specs.Rows.{row_of, ControlInRows, CanFollow, stays_in_routine, StaysInRoutine};

use crate::frame::ScanContext;
use crate::operand::{target, task_of};
use lgx_bits::run_bits;
use lgx_copy::start_copy;
use lgx_image::Image;
use lgx_math::{compare, run_math};
use lgx_num::Flags;
use lgx_prog::Prepared;
use lgx_rung::{Family, Ins, Op};
use lgx_time::{reset, run_counter, run_timer};
use spec_scan::{Arg, Bound, Copying};
use spec_tables::{BAD_SUBSCRIPT, BAD_TIMER};

/// What an instruction does beside the image and the flags.
///
/// The rung of a label and a task go by their numbers. `MajorFault` has the code of a major fault of type 4.
#[derive(Clone, Copy)]
pub(crate) enum Control {
    Nothing,
    Return,
    Jump(u64),
    ToggleZone,
    Up,
    Down,
    TriggerTask(u32),
    StartCopy(Copying),
    MinorFault,
    MajorFault(u8),
}

/// The condition that goes on, and what else the instruction does.
#[derive(Clone, Copy)]
pub(crate) struct RowStep {
    pub(crate) on: bool,
    pub(crate) control: Control,
}

/// What an instruction gets: the condition before it, and what the scan gives.
#[derive(Clone, Copy)]
struct RowInput {
    on: bool,
    scan: ScanContext,
}

/// Executes an instruction (1756-RM003), with the condition before it. It is none that hands numbers over.
///
/// With a major fault the image and the flags are as before.
#[inline(always)]
pub(crate) fn run_row(
    prepared: &Prepared,
    on: bool,
    scan: ScanContext,
    flags: &mut Flags,
    image: &mut Image,
) -> RowStep
    requires executable { IsExecutable (length image.old.bytes) prepared.now }
    requires alone { hands_over prepared.now.op ≡ false }
    ensures row { (frames : List Frame) → row prepared.now.op prepared.now.args on scan.now scan.first frames flags.old image.old.bytes ≡ row_of result flags.new image.new.bytes }
    ensures can_follow { CanFollow result.control (length image.new.bytes) }
    ensures stays { stays_in_routine (family_of prepared.now.op) ≡ true → StaysInRoutine result.control }
    ensures only_marked { ChangesOnlyMarked image.old image.new }
{
    if !on && !acts_when_false(prepared.op()) {
        return pass_on(on, Control::Nothing);
    }
    let input = RowInput { on, scan };
    match prepared.bound() {
        Some(bound) => execute(prepared.ins(), bound, input, flags, image),
        None => work_out(prepared.ins(), input, flags, image),
    }
}

/// Executes an instruction that acts, of whose operands one has a variable subscript.
#[cold]
fn work_out(ins: &Ins, input: RowInput, flags: &mut Flags, image: &mut Image) -> RowStep
    requires executable { IsExecutable (length image.old.bytes) ins.now }
    requires alone { hands_over ins.now.op ≡ false }
    requires acts { (input.on || acts_when_false ins.now.op) ≡ true }
    ensures row { (frames : List Frame) → row ins.now.op ins.now.args input.on input.scan.now input.scan.first frames flags.old image.old.bytes ≡ row_of result flags.new image.new.bytes }
    ensures can_follow { CanFollow result.control (length image.new.bytes) }
    ensures stays { stays_in_routine (family_of ins.now.op) ≡ true → StaysInRoutine result.control }
    ensures only_marked { ChangesOnlyMarked image.old image.new }
{
    match image.bind(ins.args.as_slice()) {
        Some(bound) => execute(ins, &bound, input, flags, image),
        None => pass_on(input.on, Control::MajorFault(BAD_SUBSCRIPT)),
    }
}

/// Whether an instruction does something if its condition is false. Of all others nothing is read or written then.
fn acts_when_false(op: Op) -> bool
    ensures { result ≡ acts_when_false op }
{
    match op {
        Op::Ote | Op::Ons | Op::Osr | Op::Osf => true,
        Op::Ton | Op::Rto | Op::Tof | Op::Ctu | Op::Ctd => true,
        Op::Mcr => true,
        _ => false,
    }
}

/// Whether an instruction asks for nothing but that its routine goes on, unless it is a fault.
#[inline(always)]
pub(crate) fn stays_in_routine(op: Op) -> bool
    ensures { result ≡ stays_in_routine (family_of op) }
{
    match op.family() {
        Family::Bit | Family::Timer | Family::Counter | Family::Reset => true,
        Family::Comparison | Family::Arithmetic => true,
        Family::Copy | Family::ProgramControl => false,
    }
}

/// The condition goes on as it is.
#[inline(always)]
fn pass_on(on: bool, control: Control) -> RowStep
    ensures { result ≡ record { on = on; control = control } }
{
    RowStep { on, control }
}

/// Executes an instruction that acts, with its operands' places worked out.
#[inline(always)]
fn execute(
    ins: &Ins,
    bound: &Bound,
    input: RowInput,
    flags: &mut Flags,
    image: &mut Image,
) -> RowStep
    requires alone { hands_over ins.now.op ≡ false }
    requires acts { (input.on || acts_when_false ins.now.op) ≡ true }
    requires bound { bind image.old.bytes ins.now.args ≡ Some bound.now }
    requires operands { OperandsFit ins.now.op ins.now.args }
    requires fit { ArgsFit ins.now.op bound.now }
    requires lie { ArgsInBounds bound.now (length image.old.bytes) }
    requires ends { ArgsEndIn (length image.old.bytes) bound.now }
    ensures row { (frames : List Frame) → row ins.now.op ins.now.args input.on input.scan.now input.scan.first frames flags.old image.old.bytes ≡ row_of result flags.new image.new.bytes }
    ensures can_follow { CanFollow result.control (length image.new.bytes) }
    ensures stays { stays_in_routine (family_of ins.now.op) ≡ true → StaysInRoutine result.control }
    ensures only_marked { ChangesOnlyMarked image.old image.new }
{
    let op = ins.op;
    let on = input.on;
    match op.family() {
        Family::Bit => {
            let on = run_bits(op, bound, on, input.scan.first, *flags, image);
            pass_on(on, Control::Nothing)
        }
        Family::Timer => pass_on(on, count_time(op, bound.at(0), on, input.scan.now, image)),
        Family::Counter => {
            run_counter(op, bound.at(0).byte(), on, image);
            pass_on(on, Control::Nothing)
        }
        Family::Reset => {
            clear(bound.at(0), on, image);
            pass_on(on, Control::Nothing)
        }
        Family::Comparison => pass_on(compare(op, bound, image), Control::Nothing),
        Family::Arithmetic => pass_on(on, compute(op, bound, flags, image)),
        Family::Copy => pass_on(on, begin_copy(op, bound, image)),
        Family::ProgramControl => pass_on(on, program_control(ins)),
    }
}

/// TON, RTO or TOF: a timer with a negative number is a major fault.
fn count_time(op: Op, arg: Arg, on: bool, now: u32, image: &mut Image) -> Control
    requires family { family_of op ≡ Family.Timer }
    requires lies { byte_of arg + TIMER_BYTES ≤ length image.old.bytes }
    ensures counted { IfSome (timer op (byte_of arg) on now image.old.bytes) (λ after. (result ≡ Control.Nothing) × (image.new.bytes ≡ after)) }
    ensures fault { timer op (byte_of arg) on now image.old.bytes ≡ None → (result ≡ Control.MajorFault BAD_TIMER) × (image.new ≡ image.old) }
    ensures stays { StaysInRoutine result }
    ensures only_marked { ChangesOnlyMarked image.old image.new }
{
    match run_timer(op, arg.byte(), on, now, image) {
        Ok(()) => Control::Nothing,
        Err(_) => Control::MajorFault(BAD_TIMER),
    }
}

/// RES, on a timer or a counter.
fn clear(arg: Arg, on: bool, image: &mut Image)
    requires kind { ArgFits OperandKind.TimerOrCounter arg }
    requires lies { ArgInBounds arg (length image.old.bytes) }
    ensures bytes { image.new.bytes ≡ reset (byte_of arg) on image.old.bytes }
    ensures only_marked { ChangesOnlyMarked image.old image.new }
{
    match arg {
        Arg::Timer(at) => reset(true, at, on, image),
        Arg::Counter(at) => reset(false, at, on, image),
        _ => unreachable!(),
    }
}

/// Arithmetic: an overflow is a minor fault.
fn compute(op: Op, bound: &Bound, flags: &mut Flags, image: &mut Image) -> Control
    requires family { family_of op ≡ Family.Arithmetic }
    requires fit { ArgsFit op bound.now }
    requires lie { ArgsInBounds bound.now (length image.old.bytes) }
    ensures due { result ≡ (if (math op bound.now image.old.bytes).flags.v then Control.MinorFault else Control.Nothing) }
    ensures flags { flags.new ≡ (math op bound.now image.old.bytes).flags }
    ensures bytes { image.new.bytes ≡ (math op bound.now image.old.bytes).image }
    ensures can_follow { (len : ℕ) → CanFollow result len }
    ensures stays { StaysInRoutine result }
    ensures only_marked { ChangesOnlyMarked image.old image.new }
{
    if run_math(op, bound, flags, image) {
        Control::MinorFault
    } else {
        Control::Nothing
    }
}

/// COP, CPS or FLL: a copy without an element doesn't start.
fn begin_copy(op: Op, bound: &Bound, image: &Image) -> Control
    requires fit { ArgsFit op bound.now }
    requires lie { ArgsInBounds bound.now (length image.now.bytes) }
    requires ends { ArgsEndIn (length image.now.bytes) bound.now }
    ensures starts { IfSome (start_copy op bound.now image.now.bytes) (λ copying. result ≡ Control.StartCopy copying) }
    ensures nothing { start_copy op bound.now image.now.bytes ≡ None → result ≡ Control.Nothing }
    ensures can_follow { CanFollow result (length image.now.bytes) }
{
    match start_copy(op, bound, image) {
        Some(copying) => Control::StartCopy(copying),
        None => Control::Nothing,
    }
}

/// Jumps, zones, regions and triggers, and what does nothing.
fn program_control(ins: &Ins) -> Control
    requires family { family_of ins.now.op ≡ Family.ProgramControl }
    requires alone { hands_over ins.now.op ≡ false }
    requires operands { OperandsFit ins.now.op ins.now.args }
    ensures rows { ControlInRows ins.now.op ins.now.args result }
    ensures can_follow { (len : ℕ) → CanFollow result len }
{
    match ins.op {
        Op::Tnd => Control::Return,
        Op::Jmp => Control::Jump(target(ins.args.as_slice())),
        Op::Mcr => Control::ToggleZone,
        Op::Uid => Control::Up,
        Op::Uie => Control::Down,
        Op::Event => Control::TriggerTask(task_of(ins.args.as_slice())),
        Op::Lbl | Op::Nop => Control::Nothing,
        _ => unreachable!(),
    }
}
