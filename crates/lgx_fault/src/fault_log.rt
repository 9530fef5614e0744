// The last faults, in a ring of fixed room.
ghost use Rattle.std.specs.Prelude.{◌≡◌, ℕ, ◌≤◌, ◌==◌, ◌↔◌, List, [], ◌∷◌, ◌++◌, length, slice_get, IfOk, IsNone};
ghost use Rattle.spec_tables.specs.declared.fault.Fault.{Fault};
ghost use Rattle.spec_base.specs.declared.limits.TheConstants.{FAULT_LOG_LENGTH};
ghost use Rattle.lgx_fault.specs.Kept.{last_faults};

use circular_buffer::HeapCircularBuffer;
use lgx_num::Memory;
use spec_base::limits::FAULT_LOG_LENGTH;
use spec_tables::Fault;
use std::alloc::Global;
use std::marker::Model;

/// The last [`FAULT_LOG_LENGTH`] faults that were noted, oldest first. Its room is taken once, by [`FaultLog::new`].
///
/// A controller records minor and major faults as long as it runs; how many it keeps is this project's own choice.
pub struct FaultLog {
    ring: HeapCircularBuffer<Fault>,
}

impl Drop for FaultLog {
    fn drop(self) {
        let FaultLog { ring: _ } = self;
    }
}

impl Model for FaultLog {
    ghost use Rattle.std.specs.Prelude.{◌≡◌, List};
    ghost use Rattle.spec_base.specs.declared.limits.TheConstants.{FAULT_LOG_LENGTH};
    ghost use Rattle.spec_tables.specs.declared.fault.Fault.{Fault};

    ghost Value = { List Fault };

    ghost view = { λ l. l.ring.items };

    ghost invariant = { λ l. l.ring.capacity ≡ FAULT_LOG_LENGTH };
}

impl FaultLog {
    /// A log without a fault.
    pub fn new(alloc: Global) -> Result<FaultLog, Memory>
        ensures { IfOk result (λ log. log ≡ []) }
    {
        let ring = HeapCircularBuffer::with_capacity(alloc, FAULT_LOG_LENGTH)?;
        Ok(FaultLog { ring })
    }

    /// Notes a fault after the others. If the log is full, the oldest is given up. It takes no memory.
    pub fn note(&mut self, fault: Fault)
        ensures step { self.new ≡ last_faults (self.old ++ fault ∷ []) }
        ensures holds { (all : List Fault) → self.old ≡ last_faults all → self.new ≡ last_faults (all ++ fault ∷ []) }
    {
        self.ring.push_back(fault);
    }

    /// The number of faults that are held.
    pub fn len(&self) -> u32
        ensures value { result ≡ length self.now }
        ensures room { result ≤ FAULT_LOG_LENGTH }
    {
        self.ring.len() as u32
    }

    /// Whether no fault was noted.
    pub fn is_empty(&self) -> bool
        ensures { result ≡ (length self.now == 0) }
    {
        self.ring.is_empty()
    }

    /// Fault number `i` of those that are held, counted from 0 at the oldest.
    pub fn get(&self, i: u32) -> Option<Fault>
        ensures value { result ≡ slice_get self.now i }
        ensures none { IsNone result ↔ (length self.now ≤ i) }
    {
        self.ring.get(i as usize).copied()
    }
}
