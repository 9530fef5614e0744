// Numbers of tags, each once.
ghost use Rattle.std.specs.Prelude.{◌≡◌, ◌++◌, ℕ, List, [], ◌∷◌, nat_eq, IfOk, OnOk};
ghost use Rattle.std.specs.List.{IsDistinct, list_any};
ghost use Rattle.lgx_xref.specs.Apart.{AreApart};
ghost use Rattle.lgx_xref.specs.TagSets.{with_tag, AreTagsOf};

use crate::spans::tag_with;
use lgx_num::Memory;
use lgx_tags::TagSpan;
use std::alloc::Global;
use std::marker::Model;

/// Numbers of tags, each once. An empty set takes no memory.
#[derive(Drop)]
pub(crate) struct TagSet {
    tags: Vec<usize>,
}

impl Model for TagSet {
    ghost use Rattle.std.specs.Prelude.{ℕ, List, nat_eq};
    ghost use Rattle.std.specs.List.{IsDistinct};

    ghost Value = { List ℕ };

    ghost view = { λ s. s.tags.items };

    ghost invariant = { λ s. IsDistinct nat_eq s.tags.items };
}

impl TagSet {
    /// No tag.
    pub(crate) fn new(alloc: Global) -> TagSet
        ensures { result ≡ [] }
    {
        TagSet {
            tags: Vec::new(alloc),
        }
    }

    /// The tags.
    pub(crate) fn as_slice(&self) -> &[usize]
        ensures value { result.now ≡ self.now }
        ensures distinct { IsDistinct nat_eq result.now }
    {
        &self.tags
    }

    /// The same tags again.
    pub(crate) fn copied(&self, alloc: Global) -> Result<TagSet, Memory>
        ensures { IfOk result (λ set. set ≡ self.now) }
    {
        let mut tags = Vec::new(alloc);
        tags.extend_from_slice(&self.tags)?;
        Ok(TagSet { tags })
    }

    /// Whether a tag is among them.
    fn has(&self, tag: usize) -> bool
        ensures { result ≡ list_any (nat_eq tag) self.now }
    {
        self.tags.iter().any(|other| tag == *other)
    }

    /// Adds a tag, unless it is there.
    fn add(&mut self, tag: usize) -> Result<(), Memory>
        ensures { OnOk result (self.new ≡ with_tag self.old tag) }
    {
        if !self.has(tag) {
            self.tags.push(tag)?;
        }
        Ok(())
    }

    /// Adds the tag that has a bit, if there is one.
    fn add_bit(&mut self, spans: &[TagSpan], bit: u32) -> Result<(), Memory>
        requires { AreApart spans.now }
        ensures { OnOk result ((before : List ℕ) → AreTagsOf spans.now before self.old → AreTagsOf spans.now (before ++ bit ∷ []) self.new) }
    {
        match tag_with(spans, bit) {
            Some(tag) => self.add(tag),
            None => Ok(()),
        }
    }

    /// Adds the tags that have these bits.
    pub(crate) fn add_bits(&mut self, spans: &[TagSpan], bits: &[u32]) -> Result<(), Memory>
        requires { AreApart spans.now }
        ensures { OnOk result ((before : List ℕ) → AreTagsOf spans.now before self.old → AreTagsOf spans.now (before ++ bits.now) self.new) }
    {
        for bit in bits {
            self.add_bit(spans, *bit)?;
        }
        Ok(())
    }
}
