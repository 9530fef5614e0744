// Tables of forces copied and compared.
ghost use Rattle.std.specs.Prelude.{◌≡◌, true, IfOk};

use crate::table::{ForceTable, StoredForce};
use lgx_num::Memory;
use std::alloc::Global;

/// Whether a word is forced the same in both.
fn same_force(a: Option<StoredForce>, b: Option<StoredForce>) -> bool
    ensures { result ≡ true → a ≡ b }
{
    match (a, b) {
        (None, None) => true,
        (Some(x), Some(y)) => x.mask == y.mask && x.value == y.value,
        _ => false,
    }
}

/// Whether all words are forced the same in both.
fn same_forces(a: &[Option<StoredForce>], b: &[Option<StoredForce>]) -> bool
    ensures { result ≡ true → a.now ≡ b.now }
{
    if a.len() != b.len() {
        return false;
    }
    for i in 0..a.len() {
        if !same_force(a[i], b[i]) {
            return false;
        }
    }
    true
}

impl ForceTable {
    /// The table once more.
    pub fn copied(&self, alloc: Global) -> Result<ForceTable, Memory>
        ensures { IfOk result (λ copy. copy ≡ self.now) }
    {
        Ok(ForceTable {
            words: Vec::from_slice(alloc, &self.words)?,
            installed: self.installed,
            enabled: self.enabled,
        })
    }

    /// Whether the tables are the same. Of tables that are, it answers yes.
    pub fn is_same(&self, other: &ForceTable) -> bool
        ensures { result ≡ true → self.now ≡ other.now }
    {
        self.enabled == other.enabled && same_forces(&self.words, &other.words)
    }
}
