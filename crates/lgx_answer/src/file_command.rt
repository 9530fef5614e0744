// A command that is under way.
ghost use Rattle.std.specs.Prelude.{◌≡◌, ◌<◌, List, ℕ, Ok};
ghost use Rattle.lgx_answer.specs.Plan.{Plan, Read, Says};
ghost use Rattle.lgx_answer.specs.Answered.{LeadsTo};

use crate::lines::Lines;
use crate::status::Verdict;
use lgx_num::{Items, Memory};
use std::alloc::Global;

/// What follows from the bytes of a file.
#[derive(Drop)]
pub enum Step<W: Drop, L: Drop> {
    /// A verdict with a text that is one piece.
    Say(Verdict, Items<u8>),
    /// A verdict with a text.
    Write(Verdict, L),
    /// The next file.
    Read(W),
}

/// A command that is to read a file.
pub trait FileCommand: Drop + Sized {
    /// What it writes if it accepts its files.
    type Text: Lines;

    /// The name of the file that it reads next.
    ghost file: { Self → List ℕ };

    /// What the bytes of that file lead to.
    ghost next: { Self → List ℕ → Plan };

    /// How many files more it may read after that one.
    ghost left: { Self → ℕ };

    /// The name of the file.
    fn name(&self) -> &str
        ensures { result.now ≡ file self.now };

    /// Judges the bytes of the file.
    fn judge(self, alloc: Global, bytes: Vec<u8>) -> Result<Step<Self, Self::Text>, Memory>
        ensures say { (said : Verdict) (line : List ℕ) → result ≡ Ok (Step.Say said line) → Says (next self bytes.items) said line }
        ensures write { (said : Verdict) (lines : Self.Text) → result ≡ Ok (Step.Write said lines) → Says (next self bytes.items) said (Self.Text.rest lines) }
        ensures read { (w : Self) → result ≡ Ok (Step.Read w) → LeadsTo (next self bytes.items) (Read (file w) (next w)) }
        ensures fewer { (w : Self) → result ≡ Ok (Step.Read w) → left w < left self };
}
