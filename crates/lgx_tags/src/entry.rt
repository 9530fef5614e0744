// Tags and aliases as they are declared.
ghost use Rattle.std.specs.Prelude.{◌≡◌, true, IfOk, option_copied};
ghost use Rattle.spec_language.specs.Declarations.{alias, tag};
ghost use Rattle.spec_language.specs.Resolution.{target_of};
ghost use Rattle.lgx_tags.specs.Chains.{is_target};
ghost use Rattle.lgx_tags.specs.Meanings.{type_in};

use crate::same::{same_scope, same_text};
use lgx_num::{Items, Memory};
use spec_language::{DataType, Scope};
use std::alloc::Global;
use std::marker::Model;

/// What a name is declared as: a tag of a type, or another name for what its target text names.
#[derive(Drop)]
pub(crate) enum Meaning {
    Tag(DataType),
    Alias(Items<u8>),
}

/// A tag or an alias, with its scope and its name as it was written.
#[derive(Drop)]
pub(crate) struct Entry {
    pub(crate) scope: Scope,
    pub(crate) name: Items<u8>,
    pub(crate) meaning: Meaning,
}

impl Model for Entry {
    ghost use Rattle.spec_language.specs.Declarations.{Entry as Declared};

    ghost Value = { Declared };

    ghost use Rattle.lgx_tags.specs.Meanings.{meaning_of};

    ghost view = { λ e. record { scope = e.scope; name = e.name; meaning = meaning_of e.meaning } };
}

/// The text once more.
pub(crate) fn copied(alloc: Global, text: &[u8]) -> Result<Items<u8>, Memory>
    ensures { IfOk result (λ copy. copy ≡ text.now) }
{
    Ok(Items::of(Vec::from_slice(alloc, text)?))
}

impl Entry {
    /// A tag.
    pub(crate) fn tag(
        alloc: Global,
        scope: Scope,
        name: &[u8],
        of: DataType,
    ) -> Result<Entry, Memory>
        ensures { IfOk result (λ e. e ≡ record { scope = scope; name = name.now; meaning = tag of }) }
    {
        Ok(Entry {
            scope,
            name: copied(alloc, name)?,
            meaning: Meaning::Tag(of),
        })
    }

    /// An alias.
    pub(crate) fn alias(
        alloc: Global,
        scope: Scope,
        name: &[u8],
        target: &[u8],
    ) -> Result<Entry, Memory>
        ensures { IfOk result (λ e. e ≡ record { scope = scope; name = name.now; meaning = alias target.now }) }
    {
        Ok(Entry {
            scope,
            name: copied(alloc, name)?,
            meaning: Meaning::Alias(copied(alloc, target)?),
        })
    }

    pub(crate) fn scope(&self) -> Scope
        ensures { result ≡ self.now.scope }
    {
        self.scope
    }

    /// The name as it was written.
    pub(crate) fn name(&self) -> &[u8]
        ensures { result.now ≡ self.now.name }
    {
        self.name.as_slice()
    }

    /// Whether it is declared in the scope with a name that is spelled so.
    #[inline(always)]
    pub(crate) fn is_spelled(&self, scope: Scope, name: &[u8]) -> bool
        ensures { result ≡ true → (self.now.scope ≡ scope) × (self.now.name ≡ name.now) }
    {
        same_scope(self.scope, scope) && same_text(self.name.as_slice(), name)
    }

    /// The type of a tag; none for an alias.
    pub(crate) fn tag_type(&self) -> Option<DataType>
        ensures { result ≡ type_in self.now.meaning }
    {
        match self.meaning {
            Meaning::Tag(of) => Some(of),
            Meaning::Alias(_) => None,
        }
    }

    /// The target of an alias; none for a tag.
    pub(crate) fn target(&self) -> Option<&[u8]>
        ensures { option_copied result ≡ target_of self.now.meaning }
    {
        match &self.meaning {
            Meaning::Tag(_) => None,
            Meaning::Alias(target) => Some(target.as_slice()),
        }
    }

    /// Whether it is an alias.
    pub(crate) fn is_alias(&self) -> bool
        ensures { result ≡ is_target self.now.meaning }
    {
        matches!(self.meaning, Meaning::Alias(_))
    }
}
