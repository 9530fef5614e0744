// What a program's words ask for.
ghost use Rattle.std.specs.Prelude.{◌≡◌, ◌<◌, ◌≤◌, ◌∷◌, length, map, string_bytes, Some, None, IfOk, IfSome, IsNone, IsTrue, IsFalse};
ghost use Rattle.std.specs.Option.{option_and_then};
ghost use Rattle.spec_base.specs.Pieces.{pieces};
ghost use Rattle.lgx_chart.specs.declared.asked.TheConstants.{MAX_WIDTH};
ghost use Rattle.lgx_chart.specs.Asked.{whole, is_width, with_number, started, place_of, is_told, may_tell, with_place, with_option, asked_by, untold, forward, asked_of};

use crate::clock::Clock;
use crate::words::{is_word, owned};
use lgx_journal::{signed_of, unsigned_of};
use lgx_num::{Items, Memory, split_first};
use spec_machine::limits::MAX_WATCHES;
use std::alloc::Global;
use std::marker::Model;

/// The least width of a drawing, in pixels.
pub const MIN_WIDTH: u32 = 640;

/// The greatest.
pub const MAX_WIDTH: u32 = 20000;

/// What a picture shows: its clock, its first and its last time, and its width if that is asked for.
#[derive(Clone, Copy)]
pub struct View {
    pub clock: Clock,
    pub from: u32,
    pub to: u32,
    pub width: Option<u16>,
}

/// A watched place: its name, whether it is a BOOL, and its value at the first time that is shown, if that is known.
#[derive(Drop)]
pub struct WatchedPlace {
    pub name: Items<u8>,
    pub is_bool: bool,
    pub start: Option<i32>,
}

/// What words ask for: what is shown, and the watched places that they name, each with its value before the first line.
#[derive(Drop)]
pub struct Asked {
    pub view: View,
    pub places: Items<WatchedPlace>,
}

impl View {
    /// All of the time.
    fn whole(clock: Clock) -> View
        ensures { result ≡ whole clock }
    {
        View {
            clock,
            from: 0,
            to: u32::MAX,
            width: None,
        }
    }

    /// With the option that this word and a number are.
    fn with_number(self, word: &[u8], number: Option<u32>) -> Option<View>
        ensures { result ≡ with_number self word.now number }
    {
        let Some(number) = number else {
            return None;
        };
        if word == b"--from".as_slice() {
            return Some(View {
                from: number,
                ..self
            });
        }
        if word == b"--to".as_slice() {
            return Some(View { to: number, ..self });
        }
        if word == b"--width".as_slice() && is_width(number) {
            return Some(View {
                width: Some(number as u16),
                ..self
            });
        }
        None
    }
}

/// Whether a drawing may be so wide.
fn is_width(number: u32) -> bool
    ensures value { result ≡ is_width number }
    ensures few { IsTrue result → number ≤ MAX_WIDTH }
{
    MIN_WIDTH <= number && number <= MAX_WIDTH
}

/// The place that `NAME=VALUE` gives.
#[tactic(auto, using(crate::proofs::WordLists::three_parts))]
fn started(alloc: Global, is_bool: bool, text: &[u8]) -> Result<Option<WatchedPlace>, Memory>
    ensures { IfOk result (λ place. place ≡ started is_bool (pieces 61 text.now)) }
{
    let Some((name, value)) = split_first(text, b'=') else {
        return Ok(None);
    };
    if split_first(value, b'=').is_some() {
        return Ok(None);
    }
    if !is_word(name) {
        return Ok(None);
    }
    let Some(value) = signed_of(value) else {
        return Ok(None);
    };
    Ok(Some(WatchedPlace {
        name: owned(alloc, name)?,
        is_bool,
        start: Some(value),
    }))
}

/// The place that an option gives.
fn place_of(alloc: Global, word: &[u8], value: &[u8]) -> Result<Option<WatchedPlace>, Memory>
    ensures { IfOk result (λ place. place ≡ place_of word.now value.now) }
{
    let is_bool = word == b"--bool".as_slice();
    if is_bool || word == b"--number".as_slice() {
        return started(alloc, is_bool, value);
    }
    Ok(None)
}

/// Whether a place of that name is among these.
pub(crate) fn is_told(places: &[WatchedPlace], name: &[u8]) -> bool
    ensures { result ≡ is_told places.now name.now }
{
    places.iter().any(|place| place.name.as_slice() == name)
}

/// Whether a place of that name may be given beside these.
fn may_tell(places: &[WatchedPlace], name: &[u8]) -> bool
    ensures { result ≡ may_tell places.now name.now }
{
    !is_told(places, name) && places.len() < MAX_WATCHES
}

/// The first two words, and those after them.
fn first_two(words: &[String]) -> Option<(&[u8], &[u8], &[String])>
    ensures some { IfSome result (λ r. map string_bytes words.now ≡ r.0.now ∷ r.1.now ∷ map string_bytes r.2.now) }
    ensures shorter { IfSome result (λ r. length r.2.now < length words.now) }
    ensures none { IsNone result → length words.now < 2 }
{
    match words {
        [] => None,
        [_] => None,
        [word, value, more @ ..] => Some((word.as_bytes(), value.as_bytes(), more)),
    }
}

/// What was read of the options.
#[derive(Drop)]
struct Reading {
    view: View,
    places: Vec<WatchedPlace>,
}

impl Model for Reading {
    ghost use Rattle.lgx_chart.specs.declared.asked.Asked.{Asked as AskedView};

    ghost Value = { AskedView };

    ghost view = { λ r. record { view = r.view; places = r.places.items } };
}

impl Reading {
    /// What is asked before an option is read: all of the report, by this clock.
    fn new(alloc: Global, clock: Clock) -> Reading
        ensures { result ≡ untold clock }
    {
        Reading {
            view: View::whole(clock),
            places: Vec::new(alloc),
        }
    }

    /// Adds a place, if it may be given. Answers whether it may.
    fn add(&mut self, place: WatchedPlace) -> Result<bool, Memory>
        ensures taken { IfOk result (λ ok. IsTrue ok → with_place self.old place ≡ Some self.new) }
        ensures refused { IfOk result (λ ok. IsFalse ok → with_place self.old place ≡ None) }
    {
        if !may_tell(&self.places, place.name.as_slice()) {
            return Ok(false);
        }
        self.places.push(place)?;
        Ok(true)
    }

    /// Takes an option. Answers whether it is one.
    fn take(&mut self, alloc: Global, word: &[u8], value: &[u8]) -> Result<bool, Memory>
        ensures taken { IfOk result (λ ok. IsTrue ok → with_option self.old word.now value.now ≡ Some self.new) }
        ensures refused { IfOk result (λ ok. IsFalse ok → with_option self.old word.now value.now ≡ None) }
    {
        if let Some(view) = self.view.with_number(word, unsigned_of(value)) {
            self.view = view;
            return Ok(true);
        }
        let Some(place) = place_of(alloc, word, value)? else {
            return Ok(false);
        };
        self.add(place)
    }

    /// Takes the options of all words. Answers whether they are options.
    fn take_all(&mut self, alloc: Global, words: &[String]) -> Result<bool, Memory>
        ensures taken { IfOk result (λ ok. IsTrue ok → asked_by self.old (map string_bytes words.now) ≡ Some self.new) }
        ensures refused { IfOk result (λ ok. IsFalse ok → asked_by self.old (map string_bytes words.now) ≡ None) }
    {
        let mut rest = words;
        while let Some((word, value, more)) = first_two(rest) {
            if !self.take(alloc, word, value)? {
                return Ok(false);
            }
            rest = more;
        }
        Ok(rest.is_empty())
    }

    /// What was asked for, if its time doesn't end before it begins.
    fn forward(self) -> Option<Asked>
        ensures { result ≡ forward self }
    {
        if self.view.to < self.view.from {
            return None;
        }
        Some(Asked {
            view: self.view,
            places: Items::of(self.places),
        })
    }
}

/// What options after the clock ask for.
fn read_options(alloc: Global, clock: Clock, words: &[String]) -> Result<Option<Asked>, Memory>
    ensures { IfOk result (λ asked. asked ≡ option_and_then forward (asked_by (untold clock) (map string_bytes words.now))) }
{
    let mut reading = Reading::new(alloc, clock);
    if !reading.take_all(alloc, words)? {
        return Ok(None);
    }
    Ok(reading.forward())
}

/// What the words of a program ask for: the word `tick` or none, and then options of two words; None if they are others.
pub fn asked_of(alloc: Global, words: &[String]) -> Result<Option<Asked>, Memory>
    ensures { IfOk result (λ asked. asked ≡ asked_of (map string_bytes words.now)) }
{
    match words {
        [word, options @ ..] if word.as_str() == "tick" => read_options(
            alloc,
            Clock::Tick,
            options,
        ),
        _ => read_options(alloc, Clock::Step, words),
    }
}
