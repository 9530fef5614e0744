// Controllers copied and compared.
use crate::controller::Controller;
use lgx_num::Memory;
use std::alloc::Global;

impl Controller {
    ghost use Rattle.std.specs.Prelude.{◌≡◌, true, IfOk};

    /// A controller that is as this one. The error is that memory ran out.
    pub fn copied(&self, alloc: Global) -> Result<Controller, Memory>
        ensures { IfOk result (λ copy. copy ≡ self.now) }
    {
        let parts = self.parts.again(alloc)?;
        let boxed = Box::new(alloc, parts)?;
        Ok(Controller {
            parts: boxed,
            spent: self.spent,
        })
    }

    /// Whether the two are the same; where it says yes, they are.
    pub fn is_same(&self, other: &Controller) -> bool
        ensures { result ≡ true → self.now ≡ other.now }
    {
        self.spent == other.spent && self.parts.is_same(&other.parts)
    }
}
