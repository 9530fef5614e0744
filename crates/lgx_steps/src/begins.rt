// The begins within a stretch.
ghost use Rattle.std.specs.Prelude.{◌≡◌, true, false, []};
ghost use Rattle.lgx_steps.specs.Stretches.{IsRefused, Noted};

use arrayvec::ArrayVec;
use spec_machine::What;

/// How many begins a stretch notes at most before its last step.
pub const MAX_BEGINS: usize = lgx_engine::MAX_BEGINS;

/// The steps before the last of a stretch of which there is something to report. All of them began the same version of the same
/// program.
#[derive(Drop)]
pub struct Begins {
    /// What each of them did.
    pub began: What,
    /// Their numbers, counted from the start of the stretch, in order.
    pub steps: ArrayVec<u32, MAX_BEGINS>,
}

impl Begins {
    /// No begin is noted.
    pub fn new() -> Begins
        ensures { result.steps.items ≡ [] }
    {
        Begins {
            began: What::Idle,
            steps: ArrayVec::new(),
        }
    }

    /// Forgets what was noted.
    #[inline(always)]
    pub(crate) fn clear(&mut self)
        ensures { self.new.steps.items ≡ [] }
    {
        self.steps.clear();
    }

    /// Notes a step, if there is room, and it began what the others began.
    #[inline(always)]
    pub(crate) fn note(&mut self, what: What, step: u32) -> bool
        ensures noted { result ≡ true → Noted self.old self.new what step }
        ensures unchanged { result ≡ false → self.new ≡ self.old }
        ensures refused { result ≡ false → IsRefused self.new what }
    {
        if self.steps.is_full() {
            return false;
        }
        if self.steps.is_empty() {
            self.began = what;
        } else if self.began != what {
            return false;
        }
        self.steps.push(step);
        true
    }
}
