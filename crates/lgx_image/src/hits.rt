// Words of an image that are watched, and those of them that are hit: in which a byte changed.
ghost use Rattle.std.specs.Prelude.{◌≡◌, ◌/◌};
ghost use Rattle.lgx_image.specs.Grains.{word_of};

use crate::number_sets::{clear_words, has_bit, next_bit, set_bit};
use crate::same::same_words;
use lgx_num::Memory;
use spec_base::limits::MAX_IMAGE_BYTES;
use std::alloc::Global;
use std::marker::Model;

/// The bytes of a word, by which an image notes that a watched place changed.
pub const WORD_BYTES: u32 = 4;

/// The words of the largest image.
pub(crate) const MAX_WORDS: u32 = MAX_IMAGE_BYTES / WORD_BYTES;

/// The rows of bits that keep them, a bit for each word.
const ROWS: usize = (MAX_WORDS / u64::BITS) as usize;

/// Which words are watched and which are hit. The least word that is hit is `first`, and none from `end` on is; while none is
/// hit `end` is 0. So what isn't hit costs nothing to look for or to clear.
#[derive(Drop)]
pub(crate) struct Hits {
    watched: Box<[u64; ROWS]>,
    hits: Box<[u64; ROWS]>,
    first: u32,
    end: u32,
}

impl Model for Hits {
    ghost use Rattle.lgx_image.specs.declared.hits.TheConstants.{MAX_WORDS};
    ghost use Rattle.lgx_image.specs.Words.{HitsView, AreBetween, marks_of};

    ghost Value = { HitsView };

    ghost view = { λ h. record { watched = marks_of h.watched.value MAX_WORDS; hits = marks_of h.hits.value MAX_WORDS } };

    ghost invariant = { λ h. AreBetween h.hits.value h.first h.end };
}

impl Hits {
    ghost use Rattle.std.specs.Prelude.{◌≡◌, ◌≢◌, ℕ, ◌+◌, ◌<◌, ◌≤◌, true, false, length, slice_set, IfOk};
    ghost use Rattle.spec_base.specs.declared.limits.TheConstants.{MAX_IMAGE_BYTES};
    ghost use Rattle.lgx_num.specs.Image.{piece, splice};
    ghost use Rattle.lgx_image.specs.declared.hits.TheConstants.{MAX_WORDS};
    ghost use Rattle.lgx_image.specs.Grains.{is_marked, watch_range, word_of, HitsAfter, NextMarked};
    ghost use Rattle.lgx_image.specs.Words.{IsNoted};

    /// No word is watched, and none is hit.
    pub(crate) fn new(alloc: Global) -> Result<Hits, Memory>
        ensures watched { IfOk result (λ kept. (word : ℕ) → is_marked kept.watched word ≡ false) }
        ensures hits { IfOk result (λ kept. (word : ℕ) → is_marked kept.hits word ≡ false) }
    {
        let watched = Box::new(alloc, [0; ROWS])?;
        let hits = Box::new(alloc, [0; ROWS])?;
        Ok(Hits {
            watched,
            hits,
            first: 0,
            end: 0,
        })
    }

    /// The words that are watched and hit once more.
    pub(crate) fn copied(&self, alloc: Global) -> Result<Hits, Memory>
        ensures { IfOk result (λ copy. copy ≡ self.now) }
    {
        let watched = Box::new(alloc, *self.watched)?;
        let hits = Box::new(alloc, *self.hits)?;
        Ok(Hits {
            watched,
            hits,
            first: self.first,
            end: self.end,
        })
    }

    /// Whether the same words are watched and hit.
    pub(crate) fn is_same(&self, other: &Hits) -> bool
        ensures { result ≡ true → self.now ≡ other.now }
    {
        same_words(&*self.watched, &*other.watched) && same_words(&*self.hits, &*other.hits)
    }

    /// The words that hold bytes of a piece are watched from now on.
    pub(crate) fn watch_range(&mut self, at: u32, size: u32)
        requires { at + size ≤ MAX_IMAGE_BYTES }
        ensures watched { self.new.watched ≡ watch_range self.old.watched at size }
        ensures all { (byte : ℕ) → at ≤ byte → byte < at + size → is_marked self.new.watched (word_of byte) ≡ true }
        ensures hits { self.new.hits ≡ self.old.hits }
    {
        for byte in at..at + size {
            self.watch(word_of(byte));
        }
    }

    /// A word is watched from now on.
    fn watch(&mut self, word: u32)
        requires { word < MAX_WORDS }
        ensures watched { self.new.watched ≡ slice_set self.old.watched word true }
        ensures its { is_marked self.new.watched word ≡ true }
        ensures hits { self.new.hits ≡ self.old.hits }
    {
        set_bit(&mut *self.watched, word);
    }

    /// A byte of a word changed, so the word is hit if it is watched.
    #[inline(always)]
    pub(crate) fn note(&mut self, word: u32)
        requires { word < MAX_WORDS }
        ensures watched { self.new.watched ≡ self.old.watched }
        ensures hits { IsNoted self.old.watched self.old.hits self.new.hits word }
    {
        if has_bit(&*self.watched, word) {
            self.hit(word);
        }
    }

    /// A word is hit.
    #[cold]
    #[inline(never)]
    fn hit(&mut self, word: u32)
        requires { word < MAX_WORDS }
        ensures watched { self.new.watched ≡ self.old.watched }
        ensures its { is_marked self.new.hits word ≡ true }
        ensures others { (other : ℕ) → other ≢ word → is_marked self.new.hits other ≡ is_marked self.old.hits other }
    {
        set_bit(&mut *self.hits, word);
        self.first = if self.end == 0 {
            word
        } else {
            self.first.min(word)
        };
        self.end = self.end.max(word + 1);
    }

    /// Notes which words will change when `size` bytes from byte `source` are copied to byte `target`.
    pub(crate) fn note_copy(&mut self, bytes: &[u8], source: u32, target: u32, size: u32)
        requires room { length bytes.now ≤ MAX_IMAGE_BYTES }
        requires source { source + size ≤ length bytes.now }
        requires target { target + size ≤ length bytes.now }
        ensures watched { self.new.watched ≡ self.old.watched }
        ensures hits { HitsAfter self.old.watched self.old.hits self.new.hits bytes.now (splice bytes.now target (piece bytes.now source size)) }
    {
        for offset in 0..size {
            let byte = target + offset;
            if bytes[byte as usize] != bytes[(source + offset) as usize] {
                self.note(word_of(byte));
            }
        }
    }

    /// Whether a word is hit.
    #[inline(always)]
    pub(crate) fn is_hit(&self) -> bool
        ensures some { result ≡ true → (word : ℕ) × (is_marked self.now.hits word ≡ true) }
        ensures none { result ≡ false → (word : ℕ) → is_marked self.now.hits word ≡ false }
    {
        self.end > 0
    }

    /// The least word that is hit and not below `from`.
    pub(crate) fn next(&self, from: u32) -> Option<u32>
        ensures { NextMarked self.now.hits from result }
    {
        if from >= self.end {
            return None;
        }
        next_bit(&*self.hits, from.max(self.first))
    }

    /// No word is hit from now on.
    pub(crate) fn clear(&mut self)
        ensures watched { self.new.watched ≡ self.old.watched }
        ensures hits { (word : ℕ) → is_marked self.new.hits word ≡ false }
    {
        if self.end == 0 {
            return;
        }
        clear_words(
            &mut *self.hits,
            self.first / u64::BITS,
            (self.end - 1) / u64::BITS + 1,
        );
        self.end = 0;
    }
}

/// The word that holds a byte of the image.
#[inline(always)]
pub fn word_of(byte: u32) -> u32
    ensures { result ≡ word_of byte }
{
    byte / WORD_BYTES
}
