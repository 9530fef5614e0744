// Connections copied and compared.
ghost use Rattle.std.specs.Prelude.{◌≡◌, true, IfOk};

use crate::conns::Conns;
use lgx_num::Memory;
use spec_tables::ConnDef;
use std::alloc::Global;

/// Whether the connections are defined the same.
fn same_def(a: &ConnDef, b: &ConnDef) -> bool
    ensures { result ≡ true → a.now ≡ b.now }
{
    a.name.is_spelled_as(&b.name)
        && a.output == b.output
        && a.byte == b.byte
        && a.words == b.words
        && a.trigger == b.trigger
}

/// Whether the connections are defined the same, one by one.
fn same_defs(a: &[ConnDef], b: &[ConnDef]) -> bool
    ensures { result ≡ true → a.now ≡ b.now }
{
    if a.len() != b.len() {
        return false;
    }
    for i in 0..a.len() {
        if !same_def(&a[i], &b[i]) {
            return false;
        }
    }
    true
}

impl Conns {
    /// The connections once more.
    pub fn copied(&self, alloc: Global) -> Result<Conns, Memory>
        ensures { IfOk result (λ copy. copy ≡ self.now) }
    {
        Conns::new(alloc, self.defs.as_slice())
    }

    /// Whether the connections are the same.
    pub fn is_same(&self, other: &Conns) -> bool
        ensures { result ≡ true → self.now ≡ other.now }
    {
        same_defs(self.defs.as_slice(), other.defs.as_slice())
    }
}
