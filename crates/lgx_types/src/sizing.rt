// The sizes of structures, each worked out after those inside it.
ghost use Rattle.std.specs.Prelude.{◌≡◌, ℕ, ◌+◌, ◌*◌, ◌-◌, ◌^◌, ◌<◌, ◌≤◌, true, [], ◌∷◌, ◌++◌, length, drop, slice_get, slice_set, map, Some, IfOk, IfSome, IfNone, OnOk};
ghost use Rattle.spec_base.specs.declared.limits.TheConstants.{MAX_STRUCTURE_BYTES};
ghost use Rattle.spec_language.specs.Layout.{begin_after, round_up, alignment};
ghost use Rattle.spec_language.specs.TypeFaults.{among, parts, reaches_itself};
ghost use Rattle.lgx_types.specs.declared.sizing.Visit.TheVariants.{Sized, InProgress};
ghost use Rattle.lgx_types.specs.Sizing.{capped, sized_by, element_of, IsSized, IsBegun, AreVisits, IsSizing, IsVisited, ReachesItself, IsOutcome, size_of_visit, remaining, types_at};

use crate::resolved::Resolved;
use lgx_num::Memory;
use spec_base::limits::{COUNTER_BYTES, MAX_STRUCTURE_BYTES, TIMER_BYTES};
use spec_language::{Base, DataType};
use std::alloc::Global;

/// A size that is too large for a structure: all larger ones count as this one.
const LARGE: u64 = MAX_STRUCTURE_BYTES as u64 + 1;

/// What is known of a structure: nothing yet, that it is being worked out, or its size in bytes.
#[derive(Clone, Copy)]
pub enum Visit {
    Unvisited,
    InProgress,
    Sized(u32),
}

/// A structure that is being worked out: its number, the member that is next, and the byte after those before it.
#[derive(Clone, Copy)]
pub struct Frame {
    pub structure: u32,
    pub next: u32,
    pub at: u32,
}

/// The sizes of all structures, or one that reaches itself.
#[derive(Drop)]
pub enum Outcome {
    Sizes(Vec<u32>),
    Cycle(u32),
}

/// The size of an element, or the structure whose size isn't known yet.
fn element_of(visits: &[Visit], base: Base) -> Result<u32, u32>
    ensures { result ≡ element_of visits.now base }
{
    match base {
        Base::Bool | Base::Sint => Ok(1),
        Base::Int => Ok(2),
        Base::Dint => Ok(4),
        Base::Timer => Ok(TIMER_BYTES),
        Base::Counter => Ok(COUNTER_BYTES),
        Base::User(i) => match visits.get(i as usize) {
            Some(Visit::Sized(size)) => Ok(*size),
            _ => Err(i),
        },
    }
}

pub fn alignment(of: DataType) -> u32
    ensures value { result ≡ alignment of }
    ensures some { 0 < result }
    ensures low { result ≤ 4 }
{
    match of.base {
        Base::Bool if of.dim == 0 => 1,
        Base::Sint => 1,
        Base::Int => 2,
        _ => 4,
    }
}

pub fn round_up(step: u32, n: u32) -> u32
    requires some { 0 < step }
    requires low { step ≤ 4 }
    requires small { n + step ≤ 2 ^ 32 }
    ensures value { result ≡ round_up step n }
    ensures near { result < n + step }
{
    (n + (step - 1)) / step * step
}

fn sized(element: u32, of: DataType) -> u64
    ensures value { result ≡ sized_by element of.base of.dim }
    ensures fits { result < 2 ^ 64 - 2 ^ 16 }
{
    if of.dim == 0 {
        u64::from(element)
    } else if of.base == Base::Bool {
        u64::from(of.dim / 8)
    } else {
        u64::from(of.dim) * u64::from(element)
    }
}

/// The byte after a member, if what comes before it ends at byte `at` and the member's elements have this size.
fn end_after(at: u32, of: DataType, element: u32) -> u32
    requires { at ≤ MAX_STRUCTURE_BYTES + 1 }
    ensures { result ≡ capped (begin_after at of + sized_by element of.base of.dim) }
{
    let begin = round_up(alignment(of), at);
    (u64::from(begin) + sized(element, of)).min(LARGE) as u32
}

/// Goes over the members that are left, up to one of a structure whose size isn't known yet.
fn size_members(resolved: &Resolved, visits: &[Visit], frame: &mut Frame) -> Option<u32>
    requires visits { AreVisits resolved.now visits.now }
    requires begun { IsBegun resolved.now frame.old }
    ensures begun { IsBegun resolved.now frame.new }
    ensures same { frame.new.structure ≡ frame.old.structure }
    ensures all { IfNone result (drop frame.new.next (types_at resolved.now frame.new.structure) ≡ []) }
    ensures inner { IfSome result (λ j. among (parts resolved.now frame.new.structure) j ≡ true) }
    ensures unknown { IfSome result (λ j. (size : ℕ) → slice_get visits.now j ≡ Some (Sized size) → ⊥) }
{
    let types = resolved.types_at(frame.structure);
    for k in frame.next as usize..types.len() {
        let of = types[k];
        match element_of(visits, of.base) {
            Ok(size) => {
                frame.at = end_after(frame.at, of, size);
                frame.next = k as u32 + 1;
            }
            Err(inner) => return Some(inner),
        }
    }
    None
}

/// Begins with structure `i`.
fn enter(visits: &mut [Visit], stack: &mut Vec<Frame>, i: u32) -> Result<(), Memory>
    requires { i < length visits.old }
    ensures visits { visits.new ≡ slice_set visits.old i InProgress }
    ensures stack { OnOk result (stack.new.items ≡ stack.old.items ++ record { structure = i; next = 0; at = 0 } ∷ []) }
{
    visits[i as usize] = Visit::InProgress;
    stack.push(Frame {
        structure: i,
        next: 0,
        at: 0,
    })?;
    Ok(())
}

/// Goes on with the structure that was begun last, up to its end or to a structure inside it that is begun then. The
/// answer is a structure inside it that is in progress already: it reaches itself.
fn step(
    resolved: &Resolved,
    visits: &mut [Visit],
    stack: &mut Vec<Frame>,
    frame: Frame,
) -> Result<Option<u32>, Memory>
    requires { IsSizing resolved.now visits.old (stack.old.items ++ frame ∷ []) }
    ensures sizing { IfOk result (λ o. IfNone o (IsSizing resolved.now visits.new stack.new.items)) }
    ensures less { IfOk result (λ o. IfNone o (remaining visits.new stack.new.items < remaining visits.old (stack.old.items ++ frame ∷ []))) }
    ensures visited { IfOk result (λ o. (i : ℕ) → IsVisited visits.old i → IsVisited visits.new i) }
    ensures cycle { IfOk result (λ o. IfSome o (ReachesItself resolved.now)) }
{
    let mut frame = frame;
    match size_members(resolved, visits, &mut frame) {
        None => {
            visits[frame.structure as usize] = Visit::Sized(round_up(4, frame.at));
            Ok(None)
        }
        Some(inner) => {
            stack.push(frame)?;
            if let Visit::InProgress = visits[inner as usize] {
                return Ok(Some(inner));
            }
            enter(visits, stack, inner)?;
            Ok(None)
        }
    }
}

fn finish(
    resolved: &Resolved,
    visits: &mut [Visit],
    stack: &mut Vec<Frame>,
) -> Result<Option<u32>, Memory>
    requires { IsSizing resolved.now visits.old stack.old.items }
    ensures sizing { IfOk result (λ o. IfNone o (IsSizing resolved.now visits.new [])) }
    ensures stack { IfOk result (λ o. IfNone o (stack.new.items ≡ [])) }
    ensures visited { IfOk result (λ o. (i : ℕ) → IsVisited visits.old i → IsVisited visits.new i) }
    ensures cycle { IfOk result (λ o. IfSome o (ReachesItself resolved.now)) }
{
    while let Some(frame) = stack.pop() {
        if let Some(cycle) = step(resolved, visits, stack, frame)? {
            return Ok(Some(cycle));
        }
    }
    Ok(None)
}

/// Works out structure `i`, unless it was worked out before.
fn size_structure(
    resolved: &Resolved,
    visits: &mut [Visit],
    stack: &mut Vec<Frame>,
    i: u32,
) -> Result<Option<u32>, Memory>
    requires sizing { IsSizing resolved.now visits.old [] }
    requires stack { stack.old.items ≡ [] }
    requires there { i < length resolved.now }
    ensures sizing { IfOk result (λ o. IfNone o (IsSizing resolved.now visits.new [])) }
    ensures stack { IfOk result (λ o. IfNone o (stack.new.items ≡ [])) }
    ensures visited { IfOk result (λ o. (j : ℕ) → IsVisited visits.old j → IsVisited visits.new j) }
    ensures own { IfOk result (λ o. IsVisited visits.new i) }
    ensures cycle { IfOk result (λ o. IfSome o (ReachesItself resolved.now)) }
{
    if let Visit::Unvisited = visits[i as usize] {
        enter(visits, stack, i)?;
        return finish(resolved, visits, stack);
    }
    Ok(None)
}

/// The sizes of all structures, or one that reaches itself. Each structure is begun once and each member gone over once.
pub fn size_all(alloc: Global, resolved: &Resolved) -> Result<Outcome, Memory>
    ensures { IfOk result (IsOutcome resolved.now) }
{
    let mut visits = vec![in alloc; Visit::Unvisited; resolved.decls().len()]?;
    match size_each(alloc, resolved, &mut visits)? {
        Some(cycle) => Ok(Outcome::Cycle(cycle)),
        None => Ok(Outcome::Sizes(sizes_of(alloc, &visits)?)),
    }
}

/// Works out each structure, up to one that reaches itself.
fn size_each(
    alloc: Global,
    resolved: &Resolved,
    visits: &mut [Visit],
) -> Result<Option<u32>, Memory>
    requires { IsSizing resolved.now visits.old [] }
    ensures sizing { IfOk result (λ o. IfNone o (IsSizing resolved.now visits.new [])) }
    ensures visited { IfOk result (λ o. IfNone o ((i : ℕ) → i < length resolved.now → IsVisited visits.new i)) }
    ensures cycle { IfOk result (λ o. IfSome o (ReachesItself resolved.now)) }
{
    let mut stack = Vec::new(alloc);
    for i in 0..resolved.decls().len() {
        let cycle = size_structure(resolved, visits, &mut stack, i as u32)?;
        if cycle.is_some() {
            return Ok(cycle);
        }
    }
    Ok(None)
}

fn size_of(visit: Visit) -> u32
    ensures { result ≡ size_of_visit visit }
{
    match visit {
        Visit::Sized(size) => size,
        Visit::Unvisited | Visit::InProgress => 0,
    }
}

fn sizes_of(alloc: Global, visits: &[Visit]) -> Result<Vec<u32>, Memory>
    ensures { IfOk result (λ sizes. sizes.items ≡ map size_of_visit visits.now) }
{
    let mut sizes = Vec::with_capacity(alloc, visits.len())?;
    for i in 0..visits.len() {
        sizes.push(size_of(visits[i]))?;
    }
    Ok(sizes)
}
