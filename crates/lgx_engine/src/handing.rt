// Numbers that are handed to a routine and back: JSR, SBR and RET (1756-PM008).
ghost use Rattle.std.specs.Prelude.{◌≡◌, ℕ, ◌<◌, ◌≤◌, Bool, true, false, List, length, drop, nat_le, option_map, slice_index_or, pos};
ghost use Rattle.std.specs.List.{AllByRecursion as Each};
ghost use Rattle.spec_base.specs.declared.limits.TheConstants.{MAX_PARAMETERS};
ghost use Rattle.lgx_num.specs.declared.place.Flags.{Flags};
ghost use Rattle.lgx_num.specs.Image.{InBounds};
ghost use Rattle.lgx_rung.specs.declared.op.Op.{Op};
ghost use Rattle.spec_scan.specs.Fits.{OperandsFit, IsCell};
ghost use Rattle.spec_scan.specs.Position.{Frame as MachineFrame};
ghost use Rattle.spec_scan.specs.Parameters.{inputs_handed, returns_wanted, store_all};
ghost use Rattle.spec_scan.specs.Executable.{IsExecutable};
ghost use Rattle.spec_scan.specs.Instructions.{row};
ghost use Rattle.lgx_image.specs.Args.{OperandsInBounds};
ghost use Rattle.lgx_image.specs.Grains.{ChangesOnlyMarked};
ghost use Rattle.lgx_prog.specs.HandsOver.{hands_over};
ghost use Rattle.lgx_engine.specs.Rows.{handing_control, HasFrame, IsHandingRow, inputs_of_top, returns_of_top, HandsOver, AreNumbers, ArePlaces, inputs_in};

use crate::frame::{Frames, Inputs, Returns};
use crate::operand::routine_of;
use arrayvec::ArrayVec;
use lgx_image::Image;
use lgx_num::{Operand, Place};
use lgx_prog::Prepared;
use lgx_rung::Op;
use spec_base::limits::MAX_FRAMES;
use spec_tables::{BAD_SUBSCRIPT, MISSING_PARAMETERS, TOO_DEEP};

/// A call: the routine's number, its inputs as they are now, and where its returns go.
#[derive(Drop)]
pub(crate) struct Call {
    pub(crate) routine: u32,
    pub(crate) inputs: Inputs,
    pub(crate) returns: Returns,
}

/// What a JSR, an SBR or a RET does beside the image. `MajorFault` has the code of a major fault of type 4.
#[derive(Drop)]
pub(crate) enum Handing {
    Passed,
    Returned,
    Called(Call),
    MajorFault(u8),
}

/// Executes a JSR, an SBR or a RET, with the condition before it. With a major fault the image is as before.
pub(crate) fn run_handing(
    prepared: &Prepared,
    on: bool,
    frames: &Frames,
    image: &mut Image,
) -> Handing
    requires executable { IsExecutable (length image.old.bytes) prepared.now }
    requires hands_over { hands_over prepared.now.op ≡ true }
    requires returns { Each (λ p. InBounds p (length image.old.bytes)) (returns_of_top frames.now) }
    ensures row { IsHandingRow prepared.now on frames.now image.old.bytes image.new.bytes result }
    ensures has_frame { HasFrame result (length frames.now) }
    ensures only_marked { ChangesOnlyMarked image.old image.new }
{
    if !on {
        return Handing::Passed;
    }
    match prepared.op() {
        Op::Jsr => make_call(prepared.args(), frames, image),
        Op::Sbr => take_inputs(prepared.args(), frames, image),
        Op::Ret => give_returns(prepared.args(), frames, image),
        _ => unreachable!(),
    }
}

/// A true JSR: subscripts come first, and then whether a frame is free.
fn make_call(args: &[Operand], frames: &Frames, image: &Image) -> Handing
    requires fit { OperandsFit Op.Jsr args.now }
    requires lie { OperandsInBounds args.now (length image.now.bytes) }
    ensures row { (now : ℕ) (first : Bool) (fs : List MachineFrame) (flags : Flags) → length fs ≡ length frames.now → row Op.Jsr args.now true now first fs flags image.now.bytes ≡ record { on = true; image = image.now.bytes; flags = flags; control = handing_control result } }
    ensures has_frame { HasFrame result (length frames.now) }
{
    match handed_over(args, image) {
        Some(_) if frames.len() >= MAX_FRAMES => Handing::MajorFault(TOO_DEEP),
        Some(call) => Handing::Called(call),
        None => Handing::MajorFault(BAD_SUBSCRIPT),
    }
}

/// The routine, the inputs and the places of the returns that a JSR names; None if a subscript is out of range.
fn handed_over(args: &[Operand], image: &Image) -> Option<Call>
    requires fit { OperandsFit Op.Jsr args.now }
    requires lie { OperandsInBounds args.now (length image.now.bytes) }
    ensures { HandsOver image.now.bytes args.now result }
{
    let (inputs, returns) = after_two(args).split_at(inputs_in(args));
    let inputs = numbers_of(inputs, image)?;
    let returns = places_of(returns, image)?;
    Some(Call {
        routine: routine_of(args),
        inputs,
        returns,
    })
}

/// How many inputs the count of a JSR gives; 0 if it has none.
fn inputs_in(args: &[Operand]) -> usize
    requires { OperandsFit Op.Jsr args.now }
    ensures { result ≡ inputs_in args.now }
{
    match args.get(1) {
        Some(Operand::Number(count)) => *count as usize,
        _ => 0,
    }
}

/// The operands after the first two.
fn after_two(args: &[Operand]) -> &[Operand]
    ensures { result.now ≡ drop 2 args.now }
{
    if args.len() < 2 { &[] } else { &args[2..] }
}

/// A true SBR: its places take the inputs of the call, in order.
fn take_inputs(args: &[Operand], frames: &Frames, image: &mut Image) -> Handing
    requires fit { OperandsFit Op.Sbr args.now }
    requires lie { OperandsInBounds args.now (length image.old.bytes) }
    ensures row { (now : ℕ) (first : Bool) (fs : List MachineFrame) (flags : Flags) → inputs_handed fs ≡ inputs_of_top frames.now → row Op.Sbr args.now true now first fs flags image.old.bytes ≡ record { on = true; image = image.new.bytes; flags = flags; control = handing_control result } }
    ensures has_frame { (depth : ℕ) → HasFrame result depth }
    ensures only_marked { ChangesOnlyMarked image.old image.new }
{
    match places_of(args, image) {
        Some(places) => {
            if store(places.as_slice(), frames.inputs(), image) {
                Handing::Passed
            } else {
                Handing::MajorFault(MISSING_PARAMETERS)
            }
        }
        None => Handing::MajorFault(BAD_SUBSCRIPT),
    }
}

/// A true RET: the places of the call's returns take its operands, in order.
fn give_returns(args: &[Operand], frames: &Frames, image: &mut Image) -> Handing
    requires fit { OperandsFit Op.Ret args.now }
    requires lie { OperandsInBounds args.now (length image.old.bytes) }
    requires returns { Each (λ p. InBounds p (length image.old.bytes)) (returns_of_top frames.now) }
    ensures row { (now : ℕ) (first : Bool) (fs : List MachineFrame) (flags : Flags) → returns_wanted fs ≡ returns_of_top frames.now → row Op.Ret args.now true now first fs flags image.old.bytes ≡ record { on = true; image = image.new.bytes; flags = flags; control = handing_control result } }
    ensures has_frame { (depth : ℕ) → HasFrame result depth }
    ensures only_marked { ChangesOnlyMarked image.old image.new }
{
    match numbers_of(args, image) {
        Some(numbers) => {
            if store(frames.returns(), numbers.as_slice(), image) {
                Handing::Returned
            } else {
                Handing::MajorFault(MISSING_PARAMETERS)
            }
        }
        None => Handing::MajorFault(BAD_SUBSCRIPT),
    }
}

/// The numbers that operands are; None if a subscript is out of range.
fn numbers_of(operands: &[Operand], image: &Image) -> Option<Inputs>
    requires few { length operands.now ≤ MAX_PARAMETERS }
    requires lie { OperandsInBounds operands.now (length image.now.bytes) }
    ensures { AreNumbers image.now.bytes operands.now (option_map (λ numbers. numbers.items) result) }
{
    let mut numbers = ArrayVec::new();
    for operand in operands {
        let arg = image.bind_one(operand)?;
        numbers.push(image.value(arg));
    }
    Some(numbers)
}

/// The places that operands are; None if a subscript is out of range.
fn places_of(operands: &[Operand], image: &Image) -> Option<Returns>
    requires few { length operands.now ≤ MAX_PARAMETERS }
    requires cells { Each IsCell operands.now }
    requires lie { OperandsInBounds operands.now (length image.now.bytes) }
    ensures { ArePlaces image.now.bytes operands.now (option_map (λ places. places.items) result) }
{
    let mut places = ArrayVec::new();
    for operand in operands {
        let arg = image.bind_one(operand)?;
        places.push(arg.place());
    }
    Some(places)
}

/// Stores the low bits of each number at the place beside it, in order; with fewer numbers than places it stores nothing, and
/// answers false.
fn store(places: &[Place], numbers: &[i32], image: &mut Image) -> bool
    requires { Each (λ p. InBounds p (length image.old.bytes)) places.now }
    ensures enough { result ≡ nat_le (length places.now) (length numbers.now) }
    ensures stored { result ≡ true → image.new.bytes ≡ store_all image.old.bytes places.now numbers.now }
    ensures none { result ≡ false → image.new ≡ image.old }
    ensures only_marked { ChangesOnlyMarked image.old image.new }
{
    if numbers.len() < places.len() {
        return false;
    }
    for (number, place) in places.iter().enumerate() {
        image.put(*place, number_at(numbers, number));
    }
    true
}

/// The number of this place in a list.
fn number_at(numbers: &[i32], index: usize) -> i32
    requires { index < length numbers.now }
    ensures { result ≡ slice_index_or numbers.now index (pos 0) }
{
    numbers[index]
}
