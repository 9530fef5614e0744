// The rungs of a merged routine before they are checked.
ghost use Rattle.std.specs.Prelude.{◌≡◌, true};
ghost use Rattle.lgx_check.specs.Known.{is_plain};
ghost use Rattle.lgx_edit.specs.Picks.{pick_source};

use crate::shared::SharedRung;
use lgx_rung::SourceRung;

/// A rung that a routine had before, or a new one.
#[derive(Drop)]
pub enum Pick {
    Old(SharedRung),
    New(SourceRung),
}

impl Pick {
    /// The rung as it was written.
    pub fn source(&self) -> &SourceRung
        ensures { result.now ≡ pick_source self.now }
    {
        match self {
            Pick::Old(rung) => rung.source(),
            Pick::New(source) => source,
        }
    }

    /// Whether it is a plain rung that the routine had before. Any other may have labels.
    pub fn is_old_and_plain(&self) -> bool
        ensures { result ≡ true → is_plain (pick_source self.now) ≡ true }
    {
        match self {
            Pick::Old(rung) => rung.is_plain(),
            Pick::New(_) => false,
        }
    }
}
