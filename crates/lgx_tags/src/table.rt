// The table of tags.
ghost use Rattle.std.specs.Prelude.{◌^◌, ◌-◌, ◌≡◌, ◌<◌, ◌≤◌, [], true, false, length, map, slice_get, option_map, None, Some, Ok, IfOk, IfErr, IfSome, OnOk, OnErr};
ghost use Rattle.spec_base.specs.Causes.{IsFaultOf};
ghost use Rattle.spec_base.specs.declared.limits.TheConstants.{MAX_IMAGE_BYTES};
ghost use Rattle.spec_language.specs.Layout.{single};
ghost use Rattle.spec_language.specs.Declarations.{tag, alias, bytes, declared_as, declare_fault, alias_fault};
ghost use Rattle.spec_language.specs.Resolution.{aliases, found, found_fixed, in_form, named, seal_fault};
ghost use Rattle.spec_language.specs.ResolutionLaws.{LiesIn, Sound};
ghost use Rattle.lgx_types.specs.Tables.{HasSize};
ghost use Rattle.lgx_tags.specs.Chains.{AllResolved};
ghost use Rattle.lgx_tags.specs.Layouts.{placed_tags};
ghost use Rattle.lgx_tags.specs.Scopes.{IsScopeOf};
ghost use Rattle.lgx_tags.specs.Errors.{bad_alias, fault_of};
ghost use Rattle.lgx_tags.specs.Sealing.{IsSealOf};
ghost use Rattle.spec_language.specs.TagSpans.{spans_of, tag_names};
ghost use Rattle.lgx_tags.specs.TextReading.{AnswersTag, subscripts_of};

use crate::declared::Declared;
use crate::error::{SealError, TagError};
use crate::layout::{PlacedTag, Resolved, known_from};
use crate::resolve::{Subscripts, resolve_text};
use crate::seal::{ScopeView, first_bad, resolve_all};
use crate::spelled::find_alone;
use lgx_num::Memory;
use lgx_types::TypeTable;
use spec_language::{DataType, Found, Scope, TagSpan};
use std::alloc::Global;
use std::marker::Model;

/// What is worked out when a table is sealed: its tags as they are laid, and what each entry stands for.
#[derive(Drop)]
pub(crate) struct Seal {
    pub(crate) laid: Vec<PlacedTag>,
    pub(crate) known: Vec<Resolved>,
}

/// The table of tags and aliases: declared first, then sealed, and then resolved from.
///
/// Contracts see its declarations, and whether it is sealed.
pub struct TagTable {
    pub(crate) parts: Box<TableParts>,
}

impl Drop for TagTable {
    fn drop(self) {
        let TagTable { parts: _ } = self;
    }
}

/// What is declared, and what was worked out when it was sealed.
#[derive(Drop)]
pub(crate) struct TableParts {
    pub(crate) declared: Declared,
    pub(crate) seal: Option<Seal>,
}

impl Model for TagTable {
    ghost use Rattle.std.specs.Prelude.{is_some};
    ghost use Rattle.lgx_tags.specs.Tables.{Table};

    ghost Value = { Table };

    ghost use Rattle.lgx_tags.specs.Sealed.{HoldsWhenSealed};

    ghost view = { λ t. record { declarations = t.parts.value.declared; sealed = is_some t.parts.value.seal } };

    ghost invariant = { λ t. HoldsWhenSealed t.parts.value.declared t.parts.value.seal };
}

/// Lays the tags out and walks the chains, or names the first alias with a fault.
fn sealed(declared: &Declared) -> Result<Seal, SealError>
    ensures ok { IfOk result (λ s. IsSealOf declared.now s.laid.items s.known.items) }
    ensures fault { IfErr result (λ e. IsFaultOf (seal_fault declared.now) (bad_alias e)) }
{
    let laid = declared.laid()?;
    let entries = declared.entries();
    let mut known = known_from(declared.alloc(), entries.len(), laid.as_slice())?;
    resolve_all(declared, &mut known)?;
    match first_bad(entries, known.as_slice()) {
        Some((code, alias)) => Err(SealError::Alias { code, alias }),
        None => Ok(Seal { laid, known }),
    }
}

impl TagTable {
    /// A table with no entries, not sealed, over these types and `programs` programs.
    pub fn new(alloc: Global, types: TypeTable, programs: u32) -> Result<TagTable, Memory>
        ensures { IfOk result (λ table. table ≡ record { declarations = record { types = types; programs = programs; entries = [] }; sealed = false }) }
    {
        let parts = TableParts {
            declared: Declared::new(alloc, types, programs),
            seal: None,
        };
        Ok(TagTable {
            parts: Box::new(alloc, parts)?,
        })
    }

    /// Declares a tag: G1 it is no name of its scope, G2 its scope has the name already, G8 the image would be longer
    /// than 262,144 bytes (profile). If it is refused or out of memory, the table is as before.
    pub fn declare(&mut self, scope: Scope, name: &[u8], of: DataType) -> Result<(), TagError>
        requires unsealed { self.old.sealed ≡ false }
        requires scope { IsScopeOf self.old.declarations.programs scope }
        requires sized { HasSize self.old.declarations.types of }
        ensures ok { OnOk result (self.new ≡ record { declarations = declared_as self.old.declarations scope name.now (tag of); sealed = false }) }
        ensures faultless { OnOk result (declare_fault self.old.declarations scope name.now of ≡ None) }
        ensures fault { IfErr result (λ e. IsFaultOf (declare_fault self.old.declarations scope name.now of) (fault_of e)) }
        ensures err { OnErr result (self.new ≡ self.old) }
    {
        self.parts.declared.declare(scope, name, of)
    }

    /// Declares an alias, another name for what its target names: G1, G2. The target is judged when the table is sealed.
    /// If it is refused or out of memory, the table is as before.
    pub fn alias(&mut self, scope: Scope, name: &[u8], target: &[u8]) -> Result<(), TagError>
        requires unsealed { self.old.sealed ≡ false }
        requires scope { IsScopeOf self.old.declarations.programs scope }
        requires few { length (aliases self.old.declarations) < 2 ^ 32 - 1 }
        ensures ok { OnOk result (self.new ≡ record { declarations = declared_as self.old.declarations scope name.now (alias target.now); sealed = false }) }
        ensures faultless { OnOk result (alias_fault self.old.declarations scope name.now ≡ None) }
        ensures fault { IfErr result (λ e. IsFaultOf (alias_fault self.old.declarations scope name.now) (fault_of e)) }
        ensures err { OnErr result (self.new ≡ self.old) }
    {
        self.parts.declared.alias(scope, name, target)
    }

    /// Seals the table: lays the tags out, the controller's first and then each program's, and walks the chains of the
    /// aliases. It is refused at the first alias, in order of declaration, whose chain has a fault: G10, G3 to G6, or G7
    /// if it doesn't end. If it is refused or out of memory, the table is as before.
    pub fn seal(&mut self) -> Result<(), SealError>
        ensures ok { OnOk result (self.new ≡ record { declarations = self.old.declarations; sealed = true }) }
        ensures faultless { OnOk result (seal_fault self.old.declarations ≡ None) }
        ensures fault { IfErr result (λ e. IsFaultOf (seal_fault self.old.declarations) (bad_alias e)) }
        ensures err { OnErr result (self.new ≡ self.old) }
    {
        let seal = sealed(&self.parts.declared)?;
        self.parts.seal = Some(seal);
        Ok(())
    }

    fn declared(&self) -> &Declared
        ensures { result.now ≡ self.now.declarations }
    {
        &self.parts.declared
    }

    /// What was worked out when the table was sealed.
    fn seal_of(&self) -> &Seal
        requires { self.now.sealed ≡ true }
        ensures { IsSealOf self.now.declarations result.now.laid.items result.now.known.items }
    {
        match &self.parts.seal {
            Some(seal) => seal,
            None => unreachable!(),
        }
    }

    /// What an operand's text names, seen from a scope.
    fn resolve_with(
        &self,
        alloc: Global,
        scope: Scope,
        text: &[u8],
        subscripts: Subscripts,
    ) -> Result<Found, TagError>
        requires { self.now.sealed ≡ true }
        ensures answer { AnswersTag (in_form (subscripts_of subscripts) self.now.declarations.types (named self.now.declarations scope) text.now) result }
        ensures lies { IfOk result (λ f. LiesIn self.now.declarations.types (bytes self.now.declarations) f) }
        ensures sized { IfOk result (λ f. HasSize self.now.declarations.types (single f.of.base)) }
        ensures fixed { subscripts ≡ Subscripts.NumbersAlone → IfOk result (λ f. f.steps ≡ []) }
    {
        let known = self.seal_of().known.as_slice();
        let declared = self.declared();
        let types = declared.types();
        let seen = ScopeView {
            declared,
            known,
            scope,
        };
        resolve_text(alloc, text, subscripts, types, &seen)
    }

    /// What an operand's text names, seen from a scope, whose own names hide the controller's; or the first cause why it
    /// names nothing, as it is met from left to right: G10, then G3 to G6 and G9.
    pub fn resolve(&self, alloc: Global, scope: Scope, text: &[u8]) -> Result<Found, TagError>
        requires { self.now.sealed ≡ true }
        ensures answer { AnswersTag (found self.now.declarations scope text.now) result }
        ensures lies { IfOk result (λ f. LiesIn self.now.declarations.types (bytes self.now.declarations) f) }
        ensures sized { IfOk result (λ f. HasSize self.now.declarations.types (single f.of.base)) }
    {
        self.resolve_with(alloc, scope, text, Subscripts::Operands)
    }

    /// What a text names that is the name of a tag or an alias alone, spelled as it was declared. There may be none of others, and of
    /// some of these.
    #[inline(always)]
    pub fn resolve_alone(&self, scope: Scope, text: &[u8]) -> Option<Found>
        requires { self.now.sealed ≡ true }
        ensures answer { IfSome result (λ f. found self.now.declarations scope text.now ≡ Ok f) }
        ensures sized { IfSome result (λ f. HasSize self.now.declarations.types (single f.of.base)) }
    {
        let known = self.seal_of().known.as_slice();
        let declared = self.declared();
        let types = declared.types();
        let seen = ScopeView {
            declared,
            known,
            scope,
        };
        find_alone(text, types, &seen)
    }

    /// What an operand's text names if numbers alone may be subscripts: any other subscript is G6.
    pub fn resolve_fixed(&self, alloc: Global, scope: Scope, text: &[u8]) -> Result<Found, TagError>
        requires { self.now.sealed ≡ true }
        ensures answer { AnswersTag (found_fixed self.now.declarations scope text.now) result }
        ensures lies { IfOk result (λ f. LiesIn self.now.declarations.types (bytes self.now.declarations) f) }
        ensures sized { IfOk result (λ f. HasSize self.now.declarations.types (single f.of.base)) }
        ensures fixed { IfOk result (λ f. f.steps ≡ []) }
    {
        self.resolve_with(alloc, scope, text, Subscripts::NumbersAlone)
    }

    /// The length of the image, in bytes.
    pub fn bytes(&self) -> u32
        ensures value { result ≡ bytes self.now.declarations }
        ensures room { result ≤ MAX_IMAGE_BYTES }
    {
        self.declared().bytes()
    }

    /// The types that `new` took. With them all that is declared is sound.
    pub fn types(&self) -> &TypeTable
        ensures value { result.now ≡ self.now.declarations.types }
        ensures sound { Sound self.now.declarations }
    {
        self.declared().types()
    }

    /// The number of tags; aliases aren't counted.
    pub fn tag_count(&self) -> u32
        requires { self.now.sealed ≡ true }
        ensures { result ≡ length (spans_of self.now.declarations) }
    {
        let laid = self.seal_of().laid.as_slice();
        laid.len() as u32
    }

    /// Tag `i` in the order of the layout; none if there are no more than `i` tags.
    pub fn tag_at(&self, i: u32) -> Option<TagSpan>
        requires { self.now.sealed ≡ true }
        ensures { result ≡ slice_get (spans_of self.now.declarations) i }
    {
        let laid = self.seal_of().laid.as_slice();
        if i as usize >= laid.len() {
            return None;
        }
        let tag = laid[i as usize];
        let entry = self.declared().entry(tag.entry);
        Some(TagSpan {
            scope: entry.scope(),
            start: tag.start,
            end: tag.end,
        })
    }

    /// The name of tag `i`, as it was written.
    pub fn tag_name(&self, i: u32) -> &[u8]
        requires sealed { self.now.sealed ≡ true }
        requires within { i < length (spans_of self.now.declarations) }
        ensures { Some result.now ≡ slice_get (tag_names self.now.declarations) i }
    {
        let laid = self.seal_of().laid.as_slice();
        let tag = laid[i as usize];
        let entry = self.declared().entry(tag.entry);
        entry.name()
    }
}
