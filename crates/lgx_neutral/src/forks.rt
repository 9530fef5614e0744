// The forks that are open while a rung is read.
use lgx_num::Memory;
use lgx_rung::OpenFork;
use spec_base::limits::MAX_FORKS;
use std::alloc::Global;
use std::marker::Model;
use std::mem;

/// The open forks, at most [`MAX_FORKS`], of which the innermost is closed first. One alone takes no memory.
#[derive(Drop)]
pub(crate) struct Forks {
    inner: Option<OpenFork>,
    outer: Vec<OpenFork>,
}

impl Model for Forks {
    ghost use Rattle.std.specs.Prelude.{List, ◌≤◌, length};
    ghost use Rattle.std.specs.Coded.{codes, coded_list};
    ghost use Rattle.spec_base.specs.declared.limits.TheConstants.{MAX_FORKS};
    ghost use Rattle.lgx_rung.specs.ForkCode.{fork_code};
    ghost use Rattle.lgx_rung.specs.Tokens.{Fork};

    ghost Value = { List Fork };

    ghost coded = { coded_list (fork_code (Prim.hlevel codes)) };

    ghost use Rattle.lgx_neutral.specs.OpenForks.{forks_of};

    ghost view = { λ f. forks_of f.inner f.outer.items };

    ghost invariant = { λ f. length (forks_of f.inner f.outer.items) ≤ MAX_FORKS };
}

impl Forks {
    ghost use Rattle.spec_base.specs.declared.limits.TheConstants.{MAX_FORKS};
    ghost use Rattle.std.specs.Prelude.{◌≡◌, ◌<◌, ◌≤◌, ◌==◌, [], ◌∷◌, nat_lt, length, MatchOption, OnOk, OnSome};

    /// No fork is open.
    pub(crate) fn new(alloc: Global) -> Self
        ensures { result ≡ [] }
    {
        Forks {
            inner: None,
            outer: Vec::new(alloc),
        }
    }

    /// How many forks are open.
    fn len(&self) -> usize
        ensures { result ≡ length self.now }
    {
        match self.inner {
            Some(_) => self.outer.len() + 1,
            None => self.outer.len(),
        }
    }

    /// Whether no fork is open.
    pub(crate) fn is_empty(&self) -> bool
        ensures { result ≡ (length self.now == 0) }
    {
        self.len() == 0
    }

    /// Whether one fork more may be open.
    pub(crate) fn has_room(&self) -> bool
        ensures { result ≡ nat_lt (length self.now) MAX_FORKS }
    {
        self.len() < MAX_FORKS
    }

    /// Opens a fork inside the others.
    pub(crate) fn push(&mut self, fork: OpenFork) -> Result<(), Memory>
        requires { length self.old < MAX_FORKS }
        ensures { OnOk result (self.new ≡ fork ∷ self.old) }
    {
        let inner = mem::replace(&mut self.inner, Some(fork));
        if let Some(inner) = inner {
            self.outer.push(inner)?;
        }
        Ok(())
    }

    /// Takes the innermost fork out, or gives none if no fork is open.
    pub(crate) fn pop(&mut self) -> Option<OpenFork>
        ensures forks { MatchOption result (self.old ≡ [] × self.new ≡ []) (λ fork. self.old ≡ fork ∷ self.new) }
        ensures room { OnSome result (length self.new < MAX_FORKS) }
    {
        match self.inner.take() {
            Some(fork) => Some(fork),
            None => self.outer.pop(),
        }
    }
}
