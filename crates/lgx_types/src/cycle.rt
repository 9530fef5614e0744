// Structures that reach themselves.
ghost use Rattle.std.specs.Prelude.{◌≡◌, ℕ, ◌<◌, ◌≤◌, ◌++◌, ◌∷◌, [], ◌⊎◌, true, false, List, length, slice_get, Some, IfOk};
ghost use Rattle.spec_language.specs.TypeFaults.{among, parts, reaches_itself};
ghost use Rattle.spec_language.specs.declared.types.TypeDecl.{TypeDecl};
ghost use Rattle.lgx_types.specs.Tables.{IsNumbered};
ghost use Rattle.lgx_types.specs.Sizing.{ReachesItself, number_of};
ghost use Rattle.lgx_types.specs.Cycles.{Reaches, AllSeen, IsSearch, IsFirstCycle, Keeps, to_see};

use crate::resolved::Resolved;
use lgx_num::Memory;
use spec_language::Base;
use std::alloc::Global;

/// The first structure that reaches itself, if one is known that does.
///
/// Every structure before it is tried, each in time that grows with the members that it reaches.
pub fn first_cycle(alloc: Global, resolved: &Resolved, cycle: u32) -> Result<u32, Memory>
    requires { ReachesItself resolved.now cycle }
    ensures { IfOk result (λ i. IsFirstCycle resolved.now i) }
{
    for i in 0..cycle {
        if reaches_itself(alloc, resolved, i)? {
            return Ok(i);
        }
    }
    Ok(cycle)
}

fn reaches_itself(alloc: Global, resolved: &Resolved, i: u32) -> Result<bool, Memory>
    requires { i < length resolved.now }
    ensures { IfOk result (λ b. b ≡ reaches_itself resolved.now i) }
{
    let mut all = vec![in alloc; false; resolved.decls().len()]?;
    let seen = all.as_mut_slice();
    let mut waiting = Vec::new(alloc);
    see_parts(resolved, i, seen, &mut waiting)?;
    while let Some(j) = waiting.pop() {
        see_parts(resolved, j, seen, &mut waiting)?;
    }
    Ok(seen[i as usize])
}

/// Every structure that members of structure `j` are of is seen; those that weren't are to be gone on from.
fn see_parts(
    resolved: &Resolved,
    j: u32,
    seen: &mut [bool],
    waiting: &mut Vec<u32>,
) -> Result<(), Memory>
    requires there { j < length resolved.now }
    requires many { length seen.old ≡ length resolved.now }
    ensures search { IfOk result (λ u. (i : ℕ) → IsSearch resolved.now i j seen.old waiting.old.items → (i ≡ j) ⊎ Reaches resolved.now i j → IsSearch resolved.now i j seen.new waiting.new.items) }
    ensures parts { IfOk result (λ u. AllSeen resolved.now seen.new j) }
    ensures kept { IfOk result (λ u. Keeps seen.old seen.new) }
    ensures less { IfOk result (λ u. to_see seen.new waiting.new.items ≤ to_see seen.old waiting.old.items) }
{
    let types = resolved.types_at(j);
    for k in 0..types.len() {
        see(seen, waiting, types[k].base)?;
    }
    Ok(())
}

/// A structure is seen.
fn see(seen: &mut [bool], waiting: &mut Vec<u32>, base: Base) -> Result<(), Memory>
    requires { IsNumbered (length seen.old) base }
    ensures search { IfOk result (λ u. (types : List TypeDecl) (i j : ℕ) → IsSearch types i j seen.old waiting.old.items → ((y : ℕ) → among (number_of base) y ≡ true → Reaches types i y) → IsSearch types i j seen.new waiting.new.items) }
    ensures own { IfOk result (λ u. (y : ℕ) → among (number_of base) y ≡ true → slice_get seen.new y ≡ Some true) }
    ensures kept { IfOk result (λ u. Keeps seen.old seen.new) }
    ensures less { IfOk result (λ u. to_see seen.new waiting.new.items ≤ to_see seen.old waiting.old.items) }
{
    match base {
        Base::User(x) => see_structure(seen, waiting, x),
        _ => Ok(()),
    }
}

fn see_structure(seen: &mut [bool], waiting: &mut Vec<u32>, x: u32) -> Result<(), Memory>
    requires { x < length seen.old }
    ensures search { IfOk result (λ u. (types : List TypeDecl) (i j : ℕ) → IsSearch types i j seen.old waiting.old.items → Reaches types i x → IsSearch types i j seen.new waiting.new.items) }
    ensures own { IfOk result (λ u. slice_get seen.new x ≡ Some true) }
    ensures kept { IfOk result (λ u. Keeps seen.old seen.new) }
    ensures less { IfOk result (λ u. to_see seen.new waiting.new.items ≤ to_see seen.old waiting.old.items) }
{
    if seen[x as usize] {
        return Ok(());
    }
    seen[x as usize] = true;
    waiting.push(x)?;
    Ok(())
}
