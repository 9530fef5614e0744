// Logs of faults copied and compared.
ghost use Rattle.std.specs.Prelude.{◌≡◌, true, IfOk};

use crate::fault_log::FaultLog;
use lgx_num::Memory;
use spec_tables::Fault;
use std::alloc::Global;

/// Whether the faults are the same.
fn same_fault(a: Option<Fault>, b: Option<Fault>) -> bool
    ensures { result ≡ true → a ≡ b }
{
    a == b
}

impl FaultLog {
    /// The log once more.
    #[tactic(auto, using(crate::proofs::Few::next_kept))]
    pub fn copied(&self, alloc: Global) -> Result<FaultLog, Memory>
        ensures { IfOk result (λ copy. copy ≡ self.now) }
    {
        let mut copy = FaultLog::new(alloc)?;
        for i in 0..self.len() {
            if let Some(fault) = self.get(i) {
                copy.note(fault);
            }
        }
        Ok(copy)
    }

    /// Whether the logs are the same. Of logs that are, it answers yes.
    #[tactic(auto, using(crate::proofs::Few::next_same))]
    pub fn is_same(&self, other: &FaultLog) -> bool
        ensures { result ≡ true → self.now ≡ other.now }
    {
        if self.len() != other.len() {
            return false;
        }
        for i in 0..self.len() {
            if !same_fault(self.get(i), other.get(i)) {
                return false;
            }
        }
        true
    }
}
