// Rungs that books share.
use crate::count::count_of;
use crate::same_texts::same_rung;
use lgx_check::is_plain;
use lgx_num::{Items, Memory, Name};
use lgx_prog::{Rung, RungCode, same_rung as same_checked};
use lgx_rung::SourceRung;
use std::alloc::Global;
use std::marker::Model;
use std::sync::Arc;

/// A rung as it was written and as it runs, with what is worked out of it once.
#[derive(Drop)]
struct RungParts {
    source: SourceRung,
    checked: Rung,
    code: RungCode,
    /// How many instructions it has.
    count: u32,
    /// Whether what it is checked to depends on its own text and the scope alone.
    plain: bool,
}

/// A rung of a book, as it was written and as it runs. What it is checked to and its flat code are made once: a copy is one
/// more owner of the same rung, and takes no memory.
pub struct SharedRung {
    parts: Arc<RungParts, Global>,
}

impl Drop for SharedRung {
    fn drop(self) {
        let SharedRung { parts: _ } = self;
    }
}

impl Model for SharedRung {
    ghost use Rattle.std.specs.Coded.{codes};
    ghost use Rattle.lgx_edit.specs.Shared.{RungPair, pair_code};

    ghost Value = { RungPair };

    ghost coded = { pair_code (Prim.hlevel codes) (Prim.hlevel codes) };

    ghost view = { λ r. record { source = r.parts.value.source; checked = r.parts.value.checked } };

    ghost use Rattle.lgx_edit.specs.WorkedOut.{AreWorkedOut};

    ghost invariant = { λ r. AreWorkedOut r.parts.value };
}

impl SharedRung {
    ghost use Rattle.std.specs.Prelude.{◌≡◌, true, IfOk};
    ghost use Rattle.lgx_edit.specs.Counting.{rung_count};
    ghost use Rattle.lgx_prog.specs.Joining.{IsCodeOf};
    ghost use Rattle.lgx_check.specs.Known.{is_plain};

    /// The rung of this text, which is checked to that. 4,294,967,295 instructions have no room.
    pub fn of(alloc: Global, source: SourceRung, checked: Rung) -> Result<SharedRung, Memory>
        ensures { IfOk result (λ r. r ≡ record { source = source; checked = checked }) }
    {
        let count = count_of(&source)?;
        let code = RungCode::of(alloc, &checked)?;
        let plain = is_plain(&source);
        let parts = Arc::new(
            alloc,
            RungParts {
                source,
                checked,
                code,
                count,
                plain,
            },
        )?;
        Ok(SharedRung { parts })
    }

    /// One more owner of the rung. Memory is short only where there are as many owners as can be counted.
    pub fn again(&self) -> Result<SharedRung, Memory>
        ensures { IfOk result (λ r. r ≡ self.now) }
    {
        let parts = Arc::try_clone(&self.parts)?;
        Ok(SharedRung { parts })
    }

    /// The rung as it was written.
    pub fn source(&self) -> &SourceRung
        ensures { result.now ≡ self.now.source }
    {
        &self.parts.source
    }

    /// The rung as it runs.
    pub fn checked(&self) -> &Rung
        ensures { result.now ≡ self.now.checked }
    {
        &self.parts.checked
    }

    /// Its flat code.
    pub fn code(&self) -> &RungCode
        ensures { IsCodeOf result.now self.now.checked }
    {
        &self.parts.code
    }

    /// How many instructions it has.
    pub fn count(&self) -> u32
        ensures { result ≡ rung_count self.now.source }
    {
        self.parts.count
    }

    /// Whether what it is checked to depends on its own text and the scope alone.
    pub fn is_plain(&self) -> bool
        ensures { result ≡ is_plain self.now.source }
    {
        self.parts.plain
    }

    /// Whether the rungs are the same, as they were written and as they run.
    pub fn is_same(&self, other: &SharedRung) -> bool
        ensures { result ≡ true → self.now ≡ other.now }
    {
        same_rung(self.source(), other.source()) && same_checked(self.checked(), other.checked())
    }
}

/// The rungs of a routine.
pub type SharedRungs = Items<SharedRung>;

/// A routine of a book.
#[derive(Drop)]
pub struct SharedText {
    pub name: Name,
    pub rungs: SharedRungs,
}
