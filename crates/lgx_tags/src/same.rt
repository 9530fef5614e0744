// Tables of tags copied and compared.
ghost use Rattle.std.specs.Prelude.{◌≡◌, true, is_some, IfOk};
ghost use Rattle.spec_language.specs.Declarations.{Declarations};
ghost use Rattle.lgx_tags.specs.Sealed.{HoldsWhenSealed};
ghost use Rattle.lgx_tags.specs.Sealing.{IsSealOf};

use crate::declared::Declared;
use crate::entry::{Entry, Meaning, copied as text_again};
use crate::key::Key;
use crate::near::Near;
use crate::table::{Seal, TableParts, TagTable};
use indexmap::IndexSet;
use lgx_num::Memory;
use lgx_types::{TypeError, TypeTable};
use spec_language::{DataType, MemberDecl, Scope, TypeDecl};
use std::alloc::Global;

/// Whether the members are declared the same.
fn same_member(a: &MemberDecl, b: &MemberDecl) -> bool
    ensures { result ≡ true → a.now ≡ b.now }
{
    a.dim == b.dim && a.name.is_spelled_as(&b.name) && a.of.is_spelled_as(&b.of)
}

/// Whether the members are declared the same, one by one.
fn same_members(a: &[MemberDecl], b: &[MemberDecl]) -> bool
    ensures { result ≡ true → a.now ≡ b.now }
{
    if a.len() != b.len() {
        return false;
    }
    for i in 0..a.len() {
        if !same_member(&a[i], &b[i]) {
            return false;
        }
    }
    true
}

/// Whether the structures are declared the same.
fn same_structure(a: &TypeDecl, b: &TypeDecl) -> bool
    ensures { result ≡ true → a.now ≡ b.now }
{
    a.name.is_spelled_as(&b.name) && same_members(a.members.as_slice(), b.members.as_slice())
}

/// Whether the structures are declared the same, one by one.
fn same_structures(a: &[TypeDecl], b: &[TypeDecl]) -> bool
    ensures { result ≡ true → a.now ≡ b.now }
{
    if a.len() != b.len() {
        return false;
    }
    for i in 0..a.len() {
        if !same_structure(&a[i], &b[i]) {
            return false;
        }
    }
    true
}

/// The types once more, laid out anew.
fn types_again(alloc: Global, types: &TypeTable) -> Result<TypeTable, Memory>
    ensures { IfOk result (λ copy. copy ≡ types.now) }
{
    match TypeTable::build(alloc, types.structures()) {
        Ok(copy) => Ok(copy),
        Err(TypeError::Memory) => Err(Memory),
        Err(TypeError::Fault(_)) => unreachable!(),
    }
}

/// Whether the scopes are the same.
pub(crate) fn same_scope(a: Scope, b: Scope) -> bool
    ensures { result ≡ true → a ≡ b }
{
    a == b
}

/// Whether the types are the same.
fn same_type(a: DataType, b: DataType) -> bool
    ensures { result ≡ true → a ≡ b }
{
    a == b
}

/// Whether the texts are the same, in case too.
pub(crate) fn same_text(a: &[u8], b: &[u8]) -> bool
    ensures { result ≡ true → a.now ≡ b.now }
{
    a == b
}

/// What a name is declared as once more.
fn meaning_again(alloc: Global, meaning: &Meaning) -> Result<Meaning, Memory>
    ensures { IfOk result (λ copy. copy ≡ meaning.now) }
{
    match meaning {
        Meaning::Tag(of) => Ok(Meaning::Tag(*of)),
        Meaning::Alias(target) => {
            let target = text_again(alloc, target.as_slice())?;
            Ok(Meaning::Alias(target))
        }
    }
}

/// Whether names are declared as the same.
fn same_meaning(a: &Meaning, b: &Meaning) -> bool
    ensures { result ≡ true → a.now ≡ b.now }
{
    match (a, b) {
        (Meaning::Tag(x), Meaning::Tag(y)) => same_type(*x, *y),
        (Meaning::Alias(x), Meaning::Alias(y)) => same_text(x.as_slice(), y.as_slice()),
        _ => false,
    }
}

impl Entry {
    /// The entry once more.
    fn copied(&self, alloc: Global) -> Result<Entry, Memory>
        ensures { IfOk result (λ copy. copy ≡ self.now) }
    {
        let name = text_again(alloc, self.name())?;
        let meaning = meaning_again(alloc, &self.meaning)?;
        Ok(Entry {
            scope: self.scope,
            name,
            meaning,
        })
    }

    /// Whether the entries are the same.
    fn is_same(&self, other: &Entry) -> bool
        ensures { result ≡ true → self.now ≡ other.now }
    {
        same_scope(self.scope, other.scope)
            && same_text(self.name(), other.name())
            && same_meaning(&self.meaning, &other.meaning)
    }
}

/// The entries once more.
fn entries_again(alloc: Global, entries: &[Entry]) -> Result<Vec<Entry>, Memory>
    ensures { IfOk result (λ copy. copy.items ≡ entries.now) }
{
    let mut list = Vec::with_capacity(alloc, entries.len())?;
    for entry in entries {
        let copy = entry.copied(alloc)?;
        list.push(copy)?;
    }
    Ok(list)
}

/// Whether the entries are the same, one by one.
fn same_entries(a: &[Entry], b: &[Entry]) -> bool
    ensures { result ≡ true → a.now ≡ b.now }
{
    if a.len() != b.len() {
        return false;
    }
    for i in 0..a.len() {
        if !a[i].is_same(&b[i]) {
            return false;
        }
    }
    true
}

/// The keys once more.
fn keys_again(keys: &IndexSet<Key>) -> Result<IndexSet<Key>, Memory>
    ensures { IfOk result (λ copy. copy.keys ≡ keys.now.keys) }
{
    let copy = keys.clone()?;
    Ok(copy)
}

impl Declared {
    /// The declarations once more.
    fn copied(&self, alloc: Global) -> Result<Declared, Memory>
        ensures { IfOk result (λ copy. copy ≡ self.now) }
    {
        let types = types_again(alloc, &self.types)?;
        let entries = entries_again(alloc, &self.entries)?;
        let keys = keys_again(&self.keys)?;
        let near = self.near.copied(alloc)?;
        Ok(Declared {
            alloc,
            types,
            programs: self.programs,
            keys,
            entries,
            near,
            bytes: self.bytes,
            any_own: self.any_own,
        })
    }

    /// Whether the same is declared.
    fn is_same(&self, other: &Declared) -> bool
        ensures { result ≡ true → self.now ≡ other.now }
    {
        self.programs == other.programs
            && same_entries(&self.entries, &other.entries)
            && same_structures(self.types.structures(), other.types.structures())
    }
}

impl Seal {
    /// What was worked out when a table was sealed once more.
    fn copied(&self, alloc: Global) -> Result<Seal, Memory>
        ensures { (d : Declarations) → IsSealOf d self.now.laid.items self.now.known.items → IfOk result (λ copy. IsSealOf d copy.laid.items copy.known.items) }
    {
        let laid = Vec::from_slice(alloc, &self.laid)?;
        let known = Vec::from_slice(alloc, &self.known)?;
        Ok(Seal { laid, known })
    }
}

/// What was worked out when a table was sealed once more, if it is sealed.
fn seal_again(alloc: Global, seal: &Option<Seal>) -> Result<Option<Seal>, Memory>
    ensures sealed { IfOk result (λ copy. is_some copy ≡ is_some seal.now) }
    ensures holds { (d : Declarations) → HoldsWhenSealed d seal.now → IfOk result (λ copy. HoldsWhenSealed d copy) }
{
    match seal {
        None => Ok(None),
        Some(seal) => {
            let copy = seal.copied(alloc)?;
            Ok(Some(copy))
        }
    }
}

impl TagTable {
    /// The table once more, sealed if it is.
    pub fn copied(&self, alloc: Global) -> Result<TagTable, Memory>
        ensures { IfOk result (λ copy. copy ≡ self.now) }
    {
        let declared = self.parts.declared.copied(alloc)?;
        let seal = seal_again(alloc, &self.parts.seal)?;
        let parts = TableParts { declared, seal };
        Ok(TagTable {
            parts: Box::new(alloc, parts)?,
        })
    }

    /// Whether the tables are the same: the same is declared in both, and both or none is sealed.
    pub fn is_same(&self, other: &TagTable) -> bool
        ensures { result ≡ true → self.now ≡ other.now }
    {
        self.parts.seal.is_some() == other.parts.seal.is_some()
            && self.parts.declared.is_same(&other.parts.declared)
    }
}
