// Tags and aliases in the order in which they are declared.
ghost use Rattle.std.specs.Prelude.{◌^◌, ◌-◌, ◌≡◌, ℕ, ◌<◌, ◌≤◌, ◌||◌, List, [], ◌∷◌, ◌++◌, None, Some, true, slice_get, length, vec_len, vec_capacity, position, IfOk, IfSome, IfErr, IsNone, OnOk, OnErr};
ghost use Rattle.spec_base.specs.Causes.{IsFaultOf};
ghost use Rattle.spec_base.specs.declared.limits.TheConstants.{MAX_IMAGE_BYTES, MAX_TAG_NAME_BYTES};
ghost use Rattle.spec_language.specs.declared.tag.Scope.{Scope as In};
ghost use Rattle.spec_language.specs.Declarations.{tag, alias, is_named, is_name_in, bytes, declared_as, declare_fault, alias_fault};
ghost use Rattle.spec_language.specs.OperandForm.{is_tag_name};
ghost use Rattle.spec_language.specs.Resolution.{aliases};
ghost use Rattle.spec_language.specs.ResolutionLaws.{Sound};
ghost use Rattle.std.specs.List.{AllByRecursion as Each};
ghost use Rattle.std.specs.Option.{option_or};
ghost use Rattle.lgx_types.specs.Tables.{HasSize};
ghost use Rattle.lgx_tags.specs.Chains.{seen_number};
ghost use Rattle.lgx_tags.specs.Layouts.{placed_tags, IsOfEntries};
ghost use Rattle.lgx_tags.specs.Scopes.{IsScopeOf, is_own};
ghost use Rattle.lgx_tags.specs.Errors.{fault_of};
ghost use Rattle.lgx_tags.specs.Keys.{key_of};
ghost use Rattle.lgx_tags.specs.Tables.{IsAdmitted, keys_of};

use crate::entry::Entry;
use crate::error::TagError;
use crate::key::Key;
use crate::layout::{PlacedTag, Resolved, by_scope, in_order, place_tags, round_up};
use crate::near::{Hash, Near};
use crate::tag_name::is_tag_name;
use indexmap::IndexSet;
use lgx_num::{Memory, is_name};
use lgx_types::TypeTable;
use spec_base::limits::{MAX_IMAGE_BYTES, MAX_TAG_NAME_BYTES};
use spec_language::{DataType, Scope, TagCode};
use std::alloc::Global;
use std::marker::Model;

/// Whether a text may be a tag's name in a scope: a controller's tag may have a name of several parts.
fn is_name_in(scope: Scope, name: &[u8]) -> bool
    ensures { result ≡ is_name_in scope name.now }
{
    match scope {
        Scope::Controller => is_tag_name(name),
        Scope::Program(_) => is_name(name),
    }
}

/// Whether a program has an entry of its own, with one more entry of this scope.
fn with_own(any_own: bool, scope: Scope) -> bool
    ensures { result ≡ (any_own || is_own scope) }
{
    any_own || matches!(scope, Scope::Program(_))
}

/// Adds the key of an entry that is to be pushed, and makes room for it.
fn add_key(keys: &mut IndexSet<Key>, entries: &mut Vec<Entry>, entry: &Entry) -> Result<(), Memory>
    requires short { length entry.now.name ≤ MAX_TAG_NAME_BYTES }
    requires keyed { keys.old.keys ≡ keys_of entries.old.items }
    requires free { position (is_named entry.now.scope entry.now.name) entries.old.items ≡ None }
    ensures ok { OnOk result (keys.new.keys ≡ keys_of entries.old.items ++ key_of entry.now.scope entry.now.name ∷ []) }
    ensures err { OnErr result (keys.new.keys ≡ keys.old.keys) }
    ensures same { entries.new.items ≡ entries.old.items }
    ensures room { OnOk result (vec_len entries.new < vec_capacity entries.new) }
{
    let key = Key::of(entry.scope(), entry.name());
    entries.reserve(1)?;
    keys.insert(key)?;
    Ok(())
}

/// Pushes an entry, for which there is room.
fn push_within(entries: &mut Vec<Entry>, entry: Entry)
    requires { vec_len entries.old < vec_capacity entries.old }
    ensures { entries.new.items ≡ entries.old.items ++ entry ∷ [] }
{
    let _ = entries.push(entry);
}

/// The types, the number of programs, and the tags and aliases in order of declaration. Their keys are kept beside them, in the
/// same order, and the length of the image is counted as they come, since it doesn't depend on their order.
#[derive(Drop)]
pub(crate) struct Declared {
    pub(crate) alloc: Global,
    pub(crate) types: TypeTable,
    pub(crate) programs: u32,
    pub(crate) keys: IndexSet<Key>,
    pub(crate) entries: Vec<Entry>,
    pub(crate) near: Near,
    pub(crate) bytes: u32,
    /// Whether a program has an entry of its own.
    pub(crate) any_own: bool,
}

impl Model for Declared {
    ghost use Rattle.spec_language.specs.Declarations.{Declarations};

    ghost Value = { Declarations };

    ghost use Rattle.lgx_tags.specs.Tables.{RepresentsDeclarations};

    ghost view = { λ t. record { types = t.types; programs = t.programs; entries = t.entries.items } };

    ghost invariant = { λ t. RepresentsDeclarations (record { types = t.types; programs = t.programs; entries = t.entries.items }) t.keys.keys t.bytes t.any_own };
}

impl Declared {
    /// No entries.
    pub(crate) fn new(alloc: Global, types: TypeTable, programs: u32) -> Declared
        ensures { result ≡ record { types = types; programs = programs; entries = [] } }
    {
        Declared {
            alloc,
            types,
            programs,
            keys: IndexSet::new(alloc),
            entries: Vec::new(alloc),
            near: Near::new(alloc),
            bytes: 0,
            any_own: false,
        }
    }

    /// The number of the first entry of a name in a scope; case doesn't matter. It takes no memory.
    ///
    /// A name that is spelled as it was declared is mostly where it is guessed to be.
    pub(crate) fn index_of(&self, scope: Scope, name: &[u8]) -> Option<usize>
        ensures number { result ≡ position (is_named scope name.now) self.now.entries }
        ensures within { IfSome result (λ i. i < length self.now.entries) }
    {
        if let Some(i) = self.guessed(scope, name, Hash::of(name)) {
            return Some(i);
        }
        self.find(scope, name)
    }

    /// The number of the entry of a scope and a name of this hash, if the name is spelled as it was declared, and the number as it
    /// is guessed.
    #[inline(always)]
    fn guessed(&self, scope: Scope, name: &[u8], hash: Hash) -> Option<usize>
        ensures first { IfSome result (λ i. position (is_named scope name.now) self.now.entries ≡ Some i) }
        ensures within { IfSome result (λ i. i < length self.now.entries) }
        ensures name { IfSome result (λ _. is_tag_name name.now ≡ true) }
    {
        let i = self.near.guess(hash);
        if self.is_at(i, scope, name) {
            return Some(i);
        }
        self.guessed_again(scope, name, hash)
    }

    /// The same by another guess.
    #[inline(never)]
    fn guessed_again(&self, scope: Scope, name: &[u8], hash: Hash) -> Option<usize>
        ensures first { IfSome result (λ i. position (is_named scope name.now) self.now.entries ≡ Some i) }
        ensures within { IfSome result (λ i. i < length self.now.entries) }
        ensures name { IfSome result (λ _. is_tag_name name.now ≡ true) }
    {
        let i = self.near.guess_again(hash);
        if self.is_at(i, scope, name) {
            Some(i)
        } else {
            None
        }
    }

    /// The number of the entry that a name of this hash is seen as from a scope, if the name is spelled as it was declared, and the
    /// number as it is guessed.
    #[inline(always)]
    pub(crate) fn seen_guessed(&self, scope: Scope, name: &[u8], hash: Hash) -> Option<usize>
        ensures number { IfSome result (λ i. seen_number self.now.entries scope name.now ≡ Some i) }
        ensures name { IfSome result (λ _. is_tag_name name.now ≡ true) }
    {
        if !self.any_own {
            return self.guessed(Scope::Controller, name, hash);
        }
        self.guessed(scope, name, hash)
    }

    /// Whether the entry of this number is there, and has this scope and a name that is spelled so.
    #[inline(always)]
    fn is_at(&self, i: usize, scope: Scope, name: &[u8]) -> bool
        ensures first { result ≡ true → position (is_named scope name.now) self.now.entries ≡ Some i }
        ensures within { result ≡ true → i < length self.now.entries }
        ensures name { result ≡ true → is_tag_name name.now ≡ true }
    {
        let entries = &self.entries;
        if i >= entries.len() {
            return false;
        }
        entries[i].is_spelled(scope, name)
    }

    /// The same by the keys.
    fn find(&self, scope: Scope, name: &[u8]) -> Option<usize>
        ensures number { result ≡ position (is_named scope name.now) self.now.entries }
        ensures within { IfSome result (λ i. i < length self.now.entries) }
    {
        let keys = &self.keys;
        if name.len() > MAX_TAG_NAME_BYTES {
            return None;
        }
        let key = Key::of(scope, name);
        keys.get_index_of(&key)
    }

    /// What is wrong with a name that is to be declared: it is no name of its scope, or its scope has it already.
    fn name_fault(&self, scope: Scope, name: &[u8]) -> Option<TagCode>
        ensures fault { result ≡ alias_fault self.now scope name.now }
        ensures short { IsNone result → length name.now ≤ MAX_TAG_NAME_BYTES }
        ensures named { IsNone result → is_tag_name name.now ≡ true }
        ensures free { IsNone result → position (is_named scope name.now) self.now.entries ≡ None }
    {
        if !is_name_in(scope, name) {
            return Some(TagCode::G1);
        }
        match self.index_of(scope, name) {
            Some(_) => Some(TagCode::G2),
            None => None,
        }
    }

    /// The length of the image with one more tag of a type.
    fn bytes_with(&self, of: DataType) -> u32
        requires sized { HasSize self.now.types of }
        ensures value { (scope : In) (name : List ℕ) → IsScopeOf self.now.programs scope → result ≡ bytes (declared_as self.now scope name (tag of)) }
    {
        self.bytes + round_up(self.types.size_of(of))
    }

    /// Adds an entry after the others, with which the image has `count` bytes.
    fn add(&mut self, entry: Entry, count: u32) -> Result<(), Memory>
        requires admitted { IsAdmitted self.old.types self.old.programs entry }
        requires free { position (is_named entry.scope entry.name) self.old.entries ≡ None }
        requires counted { count ≡ bytes (record self.old { entries = self.old.entries ++ entry ∷ [] }) }
        requires room { count ≤ MAX_IMAGE_BYTES }
        requires few { length (aliases (record self.old { entries = self.old.entries ++ entry ∷ [] })) < 2 ^ 32 }
        ensures ok { OnOk result (self.new ≡ record self.old { entries = self.old.entries ++ entry ∷ [] }) }
        ensures err { OnErr result (self.new ≡ self.old) }
    {
        let any_own = with_own(self.any_own, entry.scope());
        self.near
            .note_next(self.alloc, &self.entries, entry.name())?;
        add_key(&mut self.keys, &mut self.entries, &entry)?;
        push_within(&mut self.entries, entry);
        self.bytes = count;
        self.any_own = any_own;
        Ok(())
    }

    /// Declares a tag: G1, G2, or G8 if the image would be too long. Where it is refused or out of memory, the
    /// declarations are as before.
    pub(crate) fn declare(
        &mut self,
        scope: Scope,
        name: &[u8],
        of: DataType,
    ) -> Result<(), TagError>
        requires scope { IsScopeOf self.old.programs scope }
        requires sized { HasSize self.old.types of }
        ensures ok { OnOk result (self.new ≡ declared_as self.old scope name.now (tag of)) }
        ensures faultless { OnOk result (declare_fault self.old scope name.now of ≡ None) }
        ensures fault { IfErr result (λ e. IsFaultOf (declare_fault self.old scope name.now of) (fault_of e)) }
        ensures err { OnErr result (self.new ≡ self.old) }
    {
        if let Some(code) = self.name_fault(scope, name) {
            return Err(TagError::Tag(code));
        }
        let bytes = self.bytes_with(of);
        if bytes > MAX_IMAGE_BYTES {
            return Err(TagError::Tag(TagCode::G8));
        }
        let entry = Entry::tag(self.alloc, scope, name, of)?;
        self.add(entry, bytes)?;
        Ok(())
    }

    /// Declares an alias: G1 or G2. If it is refused or out of memory, the declarations are as before.
    pub(crate) fn alias(&mut self, scope: Scope, name: &[u8], target: &[u8]) -> Result<(), TagError>
        requires scope { IsScopeOf self.old.programs scope }
        requires few { length (aliases self.old) < 2 ^ 32 - 1 }
        ensures ok { OnOk result (self.new ≡ declared_as self.old scope name.now (alias target.now)) }
        ensures faultless { OnOk result (alias_fault self.old scope name.now ≡ None) }
        ensures fault { IfErr result (λ e. IsFaultOf (alias_fault self.old scope name.now) (fault_of e)) }
        ensures err { OnErr result (self.new ≡ self.old) }
    {
        if let Some(code) = self.name_fault(scope, name) {
            return Err(TagError::Tag(code));
        }
        let bytes = self.bytes;
        let entry = Entry::alias(self.alloc, scope, name, target)?;
        self.add(entry, bytes)?;
        Ok(())
    }

    /// The number of the entry that a name is seen as from a scope: a program's own entries hide the controller's.
    pub(crate) fn seen_number(&self, scope: Scope, name: &[u8]) -> Option<usize>
        ensures number { result ≡ seen_number self.now.entries scope name.now }
        ensures within { IfSome result (λ i. i < length self.now.entries) }
    {
        if !self.any_own {
            return self.index_of(Scope::Controller, name);
        }
        let own = self.index_of(scope, name);
        match (own, scope) {
            (Some(i), _) => Some(i),
            (None, Scope::Controller) => None,
            (None, Scope::Program(_)) => self.index_of(Scope::Controller, name),
        }
    }

    /// The entries in order of declaration.
    pub(crate) fn entries(&self) -> &[Entry]
        ensures value { result.now ≡ self.now.entries }
        ensures admitted { Each (IsAdmitted self.now.types self.now.programs) self.now.entries }
        ensures few { length (aliases self.now) < 2 ^ 32 }
    {
        &self.entries
    }

    /// The entry of a number.
    pub(crate) fn entry(&self, i: usize) -> &Entry
        requires { i < length self.now.entries }
        ensures { slice_get self.now.entries i ≡ Some result.now }
    {
        &self.entries[i]
    }

    /// The types, and with them what holds of the declarations always.
    pub(crate) fn types(&self) -> &TypeTable
        ensures value { result.now ≡ self.now.types }
        ensures sound { Sound self.now }
        ensures admitted { Each (IsAdmitted self.now.types self.now.programs) self.now.entries }
        ensures room { bytes self.now ≤ MAX_IMAGE_BYTES }
    {
        // the table of types shows here that they are sound
        self.types.structures();
        &self.types
    }

    /// The length of the image.
    pub(crate) fn bytes(&self) -> u32
        ensures value { result ≡ bytes self.now }
        ensures room { result ≤ MAX_IMAGE_BYTES }
    {
        self.bytes
    }

    pub(crate) fn alloc(&self) -> Global {
        self.alloc
    }

    /// The tags in the order of the layout, each where it lies.
    pub(crate) fn laid(&self) -> Result<Vec<PlacedTag>, Memory>
        ensures value { IfOk result (λ laid. laid.items ≡ placed_tags self.now) }
        ensures few { OnOk result (length (placed_tags self.now) ≤ MAX_IMAGE_BYTES) }
        ensures within { OnOk result (Each (IsOfEntries (length self.now.entries)) (placed_tags self.now)) }
    {
        let rows = by_scope(self.alloc, &self.entries, self.programs)?;
        let order = in_order(self.alloc, &rows)?;
        place_tags(self.alloc, self.types(), &order)
    }
}
