// The watched places of each word of the image, and of each grain.
ghost use Rattle.std.specs.Prelude.{◌≡◌, ℕ, ◌+◌, ◌/◌, ◌^◌, ◌<◌, ◌≤◌, true, length, slice_get, Some, IfOk, IfSome};
ghost use Rattle.lgx_num.specs.declared.place.Place.{Place};
ghost use Rattle.lgx_num.specs.Number.{bytes_in};
ghost use Rattle.lgx_image.specs.Grains.{word_of};
ghost use Rattle.lgx_watch.specs.declared.bits.TheConstants.{MAX_WATCHES};
ghost use Rattle.lgx_watch.specs.Watches.{is_member, LiesIn, LiesInWord, last_word};
ghost use Rattle.lgx_watch.specs.Index.{AreLone, IsLone, NumberAdded};

use crate::bits::{MAX_WATCHES, WORDS, no_bits, set_bit};
use crate::watch_set::WatchSet;
use lgx_image::{GRAIN, WORD_BYTES, word_of};
use lgx_num::{Memory, Place, bytes_in};
use std::alloc::Global;
use std::marker::Model;

/// The words of a grain.
const GRAIN_WORDS: usize = (GRAIN / WORD_BYTES) as usize;

/// Watched places, and for each word of the image the set of those that have a byte in it. Where that is one alone, `lones` has
/// its number, so that it is found at once.
pub struct WatchIndex {
    places: Vec<Place>,
    rows: Vec<[u64; WORDS]>,
    lones: Vec<u32>,
}

impl Drop for WatchIndex {
    fn drop(self) {
        let WatchIndex {
            places: _,
            rows: _,
            lones: _,
        } = self;
    }
}

impl Model for WatchIndex {
    ghost use Rattle.std.specs.Prelude.{List};
    ghost use Rattle.lgx_num.specs.declared.place.Place.{Place};
    ghost use Rattle.lgx_watch.specs.Index.{IsIndex, AreLone};

    ghost Value = { List Place };

    ghost view = { λ i. i.places.items };

    ghost invariant = { λ i. IsIndex i.places.items i.rows.items × AreLone i.rows.items i.lones.items };
}

impl WatchIndex {
    /// The index of watched places, which are at most `MAX_WATCHES`. A place's number is the one that it has among them.
    pub fn new(alloc: Global, places: &[Place]) -> Result<WatchIndex, Memory>
        requires { length places.now ≤ MAX_WATCHES }
        ensures { IfOk result (λ index. index ≡ places.now) }
    {
        let mut kept = Vec::with_capacity(alloc, places.len())?;
        kept.extend_from_slice(places)?;
        let mut rows = vec![in alloc; no_bits(); words_of(places)]?;
        for (number, place) in places.iter().enumerate() {
            add_place(&mut rows, *place, number as u32);
        }
        let lones = lones_of(alloc, &rows, places)?;
        Ok(WatchIndex {
            places: kept,
            rows,
            lones,
        })
    }

    /// The watched places, in order.
    pub fn places(&self) -> &[Place]
        ensures value { result.now ≡ self.now }
        ensures room { length result.now ≤ MAX_WATCHES }
    {
        &self.places
    }

    /// The watched places that have a byte in a grain.
    pub fn of(&self, grain: u32) -> WatchSet
        ensures members { (w : ℕ) (p : Place) → slice_get self.now w ≡ Some p → LiesIn p grain → is_member result w ≡ true }
        ensures no_other { (w : ℕ) → is_member result w ≡ true → (p : Place) × (slice_get self.now w ≡ Some p) × LiesIn p grain }
    {
        let first = grain as usize * GRAIN_WORDS;
        let mut set = WatchSet::new();
        for word in 0..GRAIN_WORDS {
            set.join(&self.of_row(first + word));
        }
        set
    }

    /// The watched places that have a byte in a word.
    #[inline]
    pub fn of_word(&self, word: u32) -> WatchSet
        ensures members { (w : ℕ) (p : Place) → slice_get self.now w ≡ Some p → LiesInWord p word → is_member result w ≡ true }
        ensures no_other { (w : ℕ) → is_member result w ≡ true → (p : Place) × (slice_get self.now w ≡ Some p) × LiesInWord p word }
    {
        self.of_row(word as usize)
    }

    /// The one watched place that has a byte in a word; None if there isn't one alone.
    #[inline(always)]
    pub fn lone_of(&self, word: u32) -> Option<u32>
        ensures known { IfSome result (λ n. n < length self.now) }
        ensures lone { IfSome result (λ n. (w : ℕ) (p : Place) → slice_get self.now w ≡ Some p → LiesInWord p word → w ≡ n) }
    {
        match self.lones.get(word as usize) {
            Some(lone) => {
                if (*lone as usize) < self.places.len() {
                    Some(*lone)
                } else {
                    None
                }
            }
            None => None,
        }
    }

    /// The watched places that have a byte in the word of a row.
    fn of_row(&self, word: usize) -> WatchSet
        ensures members { (w : ℕ) (p : Place) → slice_get self.now w ≡ Some p → LiesInWord p word → is_member result w ≡ true }
        ensures no_other { (w : ℕ) → is_member result w ≡ true → (p : Place) × (slice_get self.now w ≡ Some p) × LiesInWord p word }
    {
        match self.rows.get(word) {
            Some(words) => WatchSet::of_words(*words),
            None => WatchSet::new(),
        }
    }
}

/// How many words reach to the last byte of all places.
fn words_of(places: &[Place]) -> usize
    ensures { (w : ℕ) (p : Place) → slice_get places.now w ≡ Some p → last_word p < result }
{
    let mut words = 0;
    for place in places {
        words = words.max(last_word(*place) as usize + 1);
    }
    words
}

/// Adds a place with its number to the row of each word that it has a byte in.
fn add_place(rows: &mut [[u64; WORDS]], place: Place, number: u32)
    requires room { last_word place < length rows.old }
    requires number { number < MAX_WATCHES }
    ensures { NumberAdded number (word_of (place.at / 8)) (last_word place + 1) rows.old rows.new }
{
    for word in word_of(place.at / 8)..last_word(place) + 1 {
        set_bit(&mut rows[word as usize], number);
    }
}

/// For each row the number of its one member, as far as it is asked for. Rows without a place have none.
fn lones_of(alloc: Global, rows: &[[u64; WORDS]], places: &[Place]) -> Result<Vec<u32>, Memory>
    requires { (w : ℕ) (p : Place) → slice_get places.now w ≡ Some p → last_word p < length rows.now }
    ensures { IfOk result (λ lones. AreLone rows.now lones.items) }
{
    let mut lones = vec![in alloc; MAX_WATCHES; rows.len()]?;
    for place in places {
        note_lones(&mut lones, rows, *place);
    }
    Ok(lones)
}

/// Notes the one member of each row of words that a place has a byte in.
fn note_lones(lones: &mut [u32], rows: &[[u64; WORDS]], place: Place)
    requires room { last_word place < length rows.now }
    requires same { length lones.old ≡ length rows.now }
    requires lone { AreLone rows.now lones.old }
    ensures lone { AreLone rows.now lones.new }
    ensures len { length lones.new ≡ length lones.old }
{
    let end = last_word(place) + 1;
    for word in word_of(place.at / 8)..end {
        lones[word as usize] = lone_in(rows[word as usize]);
    }
}

/// The one member of a row; `MAX_WATCHES` if there isn't one alone.
fn lone_in(words: [u64; WORDS]) -> u32
    ensures { IsLone words result }
{
    let set = WatchSet::of_words(words);
    match set.next(0) {
        Some(first) => match set.next(first + 1) {
            Some(_) => MAX_WATCHES,
            None => first,
        },
        None => MAX_WATCHES,
    }
}

/// The word of the last byte of a place.
fn last_word(place: Place) -> u32
    ensures value { result ≡ last_word place }
    ensures small { result < 2 ^ 29 }
{
    word_of(place.at / 8 + bytes_in(place.kind) - 1)
}
