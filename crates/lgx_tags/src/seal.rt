// What the aliases stand for: their chains are resolved once, when the table is sealed.
ghost use Rattle.std.specs.Prelude.{◌^◌, ◌≡◌, ◌<◌, ◌≤◌, length, slice_index_or, Err, IfOk, IfSome, OnOk};
ghost use Rattle.std.specs.List.{AllByRecursion as Each};
ghost use Rattle.spec_language.specs.declared.tag.TagCode.TheVariants.{G7};
ghost use Rattle.spec_language.specs.Resolution.{numbers_alone, in_form};
ghost use Rattle.lgx_tags.specs.Chains.{answer, answer_at, named_by, is_open, open_in, bad_from, count_aliases, PartlyResolved, ResolvesEntry, ResolvesPass, AllResolved};

use crate::declared::Declared;
use crate::entry::Entry;
use crate::error::TagError;
use crate::layout::{FixedPlace, Resolved};
use crate::near::Hash;
use crate::part::split_word;
use crate::resolve::{Names, Subscripts, resolve_text};
use lgx_num::Memory;
use spec_language::{Found, Scope, TagCode};

/// What the names of tags stand for, seen from one scope, by what is known of the entries.
#[derive(Drop)]
pub(crate) struct ScopeView<'a> {
    pub(crate) declared: &'a Declared,
    pub(crate) known: &'a [Resolved],
    pub(crate) scope: Scope,
}

impl Names for ScopeView<'_> {
    ghost use Rattle.spec_language.specs.Declarations.{bytes as image_bytes};
    ghost use Rattle.lgx_tags.specs.Chains.{named_by as seen_by};

    ghost named = { λ s. seen_by s.declared.now.entries s.known.now s.scope };

    ghost bytes = { λ s. image_bytes s.declared.now };

    fn named(&self, name: &[u8]) -> Result<Found, TagCode> {
        match self.declared.seen_number(self.scope, name) {
            Some(i) => answer(known_at(self.known, i)),
            None => Err(TagCode::G3),
        }
    }

    #[inline(always)]
    fn spelled(&self, name: &[u8], hash: Hash) -> Option<FixedPlace> {
        let i = self.declared.seen_guessed(self.scope, name, hash)?;
        match known_at(self.known, i) {
            Ok(spot) => Some(spot),
            Err(_) => None,
        }
    }
}

/// What is known of an entry.
fn known_at(known: &[Resolved], i: usize) -> Resolved
    ensures { result ≡ slice_index_or known.now i (Err G7) }
{
    if i < known.len() {
        known[i]
    } else {
        Err(TagCode::G7)
    }
}

/// The answer that it gives.
fn answer(known: Resolved) -> Result<Found, TagCode>
    ensures { result ≡ answer known }
{
    match known {
        Ok(spot) => Ok(spot.found()),
        Err(code) => Err(code),
    }
}

/// Whether it isn't known yet.
fn is_open(known: Resolved) -> bool
    ensures { result ≡ is_open known }
{
    matches!(known, Err(TagCode::G7))
}

fn open_in(known: &[Resolved]) -> usize
    ensures { result ≡ open_in known.now }
{
    known.iter().filter(|known| is_open(**known)).count()
}

/// What a target names, by what is known of the entries.
fn named_target(
    declared: &Declared,
    known: &[Resolved],
    scope: Scope,
    target: &[u8],
) -> Result<Resolved, Memory>
    requires { PartlyResolved declared.now known.now }
    ensures { IfOk result (λ k. answer k ≡ in_form numbers_alone declared.now.types (named_by declared.now.entries known.now scope) target.now) }
{
    let seen = ScopeView {
        declared,
        known,
        scope,
    };
    let types = declared.types();
    match resolve_text(
        declared.alloc(),
        target,
        Subscripts::NumbersAlone,
        types,
        &seen,
    ) {
        Ok(found) => Ok(Ok(FixedPlace {
            at: found.at,
            of: found.of,
            stop: found.stop,
        })),
        Err(TagError::Tag(code)) => Ok(Err(code)),
        Err(TagError::Memory) => Err(Memory),
    }
}

/// Resolves an entry, if it is an alias that isn't known yet, by what its target names.
fn resolve_entry(declared: &Declared, known: &mut Vec<Resolved>, i: usize) -> Result<(), Memory>
    requires partly { PartlyResolved declared.now known.old.items }
    requires within { i < length declared.now.entries }
    ensures resolves { OnOk result (ResolvesEntry declared.now i known.old.items known.new.items) }
{
    let entry = &declared.entries()[i];
    let Some(target) = entry.target() else {
        return Ok(());
    };
    if !is_open(known_at(known.as_slice(), i)) {
        return Ok(());
    }
    let found = named_target(declared, known.as_slice(), entry.scope(), target)?;
    known[i] = found;
    Ok(())
}

/// Resolves what it can of all entries, in order.
fn resolve_pass(declared: &Declared, known: &mut Vec<Resolved>) -> Result<(), Memory>
    requires partly { PartlyResolved declared.now known.old.items }
    ensures resolves { OnOk result (ResolvesPass declared.now known.old.items known.new.items) }
{
    for i in 0..declared.entries().len() {
        resolve_entry(declared, known, i)?;
    }
    Ok(())
}

/// The alias with which the target of an entry begins, if that isn't known yet.
fn next_open(declared: &Declared, known: &[Resolved], i: usize) -> Option<usize>
    requires { i < length declared.now.entries }
    ensures { IfSome result (λ j. j < length declared.now.entries) }
{
    let entry = declared.entry(i);
    let (name, _) = split_word(entry.target()?);
    let next = declared.seen_number(entry.scope(), name)?;
    if is_open(known_at(known, next)) {
        Some(next)
    } else {
        None
    }
}

/// The chain of an entry, as far as it isn't known and wasn't met before.
fn open_chain(
    declared: &Declared,
    known: &[Resolved],
    met: &mut Vec<bool>,
    first: usize,
) -> Result<Vec<usize>, Memory>
    requires within { first < length declared.now.entries }
    requires long { length met.old.items ≡ length declared.now.entries }
    ensures within { IfOk result (λ chain. Each (λ j. j < length declared.now.entries) chain.items) }
    ensures long { length met.new.items ≡ length declared.now.entries }
{
    let mut chain = Vec::new(declared.alloc());
    let mut next = Some(first);
    for _ in 0..met.len() {
        let Some(i) = next else {
            break;
        };
        if met[i] {
            break;
        }
        met[i] = true;
        chain.push(i)?;
        next = next_open(declared, known, i);
    }
    Ok(chain)
}

/// Resolves the entries of a chain, the last first.
fn resolve_chain(
    declared: &Declared,
    known: &mut Vec<Resolved>,
    chain: &[usize],
) -> Result<(), Memory>
    requires partly { PartlyResolved declared.now known.old.items }
    requires within { Each (λ j. j < length declared.now.entries) chain.now }
    ensures partly { OnOk result (PartlyResolved declared.now known.new.items) }
{
    for k in 0..chain.len() {
        resolve_entry(declared, known, chain[chain.len() - 1 - k])?;
    }
    Ok(())
}

/// Resolves each entry after those that its chain reaches.
fn resolve_chains(declared: &Declared, known: &mut Vec<Resolved>) -> Result<(), Memory>
    requires partly { PartlyResolved declared.now known.old.items }
    ensures partly { OnOk result (PartlyResolved declared.now known.new.items) }
{
    let count = declared.entries().len();
    let mut met = vec![in declared.alloc(); false; count]?;
    for i in 0..count {
        let chain = open_chain(declared, known.as_slice(), &mut met, i)?;
        resolve_chain(declared, known, chain.as_slice())?;
    }
    Ok(())
}

/// Resolves the aliases, as far as their chains end, in a time that grows with the number of entries: first each entry
/// after those that its chain reaches, and then a pass shows that no more is found.
pub(crate) fn resolve_all(declared: &Declared, known: &mut Vec<Resolved>) -> Result<(), Memory>
    requires partly { PartlyResolved declared.now known.old.items }
    ensures all_resolved { OnOk result (AllResolved declared.now known.new.items) }
{
    resolve_chains(declared, known)?;
    let mut open = open_in(known.as_slice());
    loop {
        resolve_pass(declared, known)?;
        let left = open_in(known.as_slice());
        if left == open {
            return Ok(());
        }
        open = left;
    }
}

/// The first alias of which a fault is known, with its number among the aliases.
pub(crate) fn first_bad(entries: &[Entry], known: &[Resolved]) -> Option<(TagCode, u32)>
    requires long { length known.now ≡ length entries.now }
    requires few { count_aliases entries.now < 2 ^ 32 }
    ensures { result ≡ bad_from known.now 0 0 entries.now }
{
    let mut alias = 0;
    for (i, entry) in entries.iter().enumerate() {
        if !entry.is_alias() {
            continue;
        }
        if let Err(code) = known[i] {
            return Some((code, alias));
        }
        alias += 1;
    }
    None
}
