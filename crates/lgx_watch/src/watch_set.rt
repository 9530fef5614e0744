// Sets of watched places.
ghost use Rattle.std.specs.Prelude.{◌≡◌, ℕ, ◌<◌, ◌≤◌, ◌||◌, false, IfSome};
ghost use Rattle.lgx_image.specs.Words.{bit_of_words};
ghost use Rattle.lgx_watch.specs.declared.bits.TheConstants.{MAX_WATCHES};
ghost use Rattle.lgx_watch.specs.Watches.{is_member, NextMember};

use crate::bits::{MAX_WATCHES, WORDS, join_bits, no_bits};
use lgx_image::number_sets::next_bit;
use std::marker::Model;

/// A set of watched places by their numbers, which are below [`MAX_WATCHES`]. It takes no memory.
#[derive(Drop)]
pub struct WatchSet {
    words: [u64; WORDS],
}

impl Model for WatchSet {
    ghost use Rattle.std.specs.Prelude.{List, Bool};
    ghost use Rattle.lgx_image.specs.Words.{marks_of};
    ghost use Rattle.lgx_watch.specs.declared.bits.TheConstants.{MAX_WATCHES};

    ghost Value = { List Bool };

    ghost view = { λ s. marks_of s.words MAX_WATCHES };
}

impl WatchSet {
    /// The set without a member.
    pub fn new() -> WatchSet
        ensures { (w : ℕ) → is_member result w ≡ false }
    {
        WatchSet { words: no_bits() }
    }

    /// The set of the numbers whose bits are set.
    pub(crate) fn of_words(words: [u64; WORDS]) -> WatchSet
        ensures within { (w : ℕ) → w < MAX_WATCHES → is_member result w ≡ bit_of_words words w }
        ensures past { (w : ℕ) → MAX_WATCHES ≤ w → is_member result w ≡ false }
    {
        WatchSet { words }
    }

    /// Takes in the members of another set.
    pub fn join(&mut self, other: &WatchSet)
        ensures { (w : ℕ) → is_member self.new w ≡ (is_member self.old w || is_member other.now w) }
    {
        join_bits(&mut self.words, &other.words);
    }

    /// The least member that isn't below `from`; None if there is none.
    pub fn next(&self, from: u32) -> Option<u32>
        ensures next { NextMember self.now from result }
        ensures within { IfSome result (λ w. w < MAX_WATCHES) }
    {
        let member = next_bit(&self.words, from)?;
        if member < MAX_WATCHES {
            Some(member)
        } else {
            None
        }
    }
}
