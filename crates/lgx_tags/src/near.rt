// Where a name was declared, as a guess.
use crate::entry::Entry;
use lgx_num::Memory;
use std::alloc::Global;

/// How many places there are for the first entries.
const FIRST_PLACES: usize = 64;

/// How many places there are for each entry, or more.
const PLACES_OF_ENTRY: usize = 2;

/// By how much the places grow.
const GROWTH: usize = 4;

/// The numbers of entries by their names' bytes, each counted from 1. What it tells is a guess: a name is in one of two places, which
/// it may share with others, and the last one has it.
#[derive(Drop)]
pub(crate) struct Near {
    places: Vec<u32>,
}

/// What the bytes of a name come to, one after another.
#[derive(Clone, Copy)]
pub(crate) struct Hash {
    sum: u32,
}

impl Hash {
    /// No byte.
    #[inline(always)]
    pub(crate) fn new() -> Hash {
        Hash { sum: 0 }
    }

    /// With one more byte.
    #[inline(always)]
    pub(crate) fn with(self, byte: u8) -> Hash {
        Hash {
            sum: (self.sum ^ u32::from(byte)).wrapping_mul(0x0100_0193),
        }
    }

    /// That of a name.
    #[inline(always)]
    pub(crate) fn of(name: &[u8]) -> Hash {
        let mut hash = Hash::new();
        for byte in name {
            hash = hash.with(*byte);
        }
        hash
    }

    /// The place among so many, a power of 2.
    #[inline(always)]
    fn place(self, count: usize) -> usize {
        (self.sum ^ (self.sum >> 15)) as usize & count.wrapping_sub(1)
    }
}

/// The second place of what has this one.
#[inline(always)]
fn beside(place: usize) -> usize {
    place ^ 1
}

impl Near {
    /// No places.
    pub(crate) fn new(alloc: Global) -> Near {
        Near {
            places: Vec::new(alloc),
        }
    }

    /// The number of an entry that may have the name.
    #[inline(always)]
    pub(crate) fn guess(&self, hash: Hash) -> usize {
        self.number_at(hash.place(self.places.len()))
    }

    /// The number of another entry that may have it.
    pub(crate) fn guess_again(&self, hash: Hash) -> usize {
        self.number_at(beside(hash.place(self.places.len())))
    }

    /// The number of the entry that has a place, and else one that no entry has.
    #[inline(always)]
    fn number_at(&self, place: usize) -> usize {
        match self.places.get(place) {
            Some(number) => (*number as usize).wrapping_sub(1),
            None => usize::MAX,
        }
    }

    /// Notes the number of an entry of a name.
    fn note(&mut self, name: &[u8], number: usize) {
        let place = Hash::of(name).place(self.places.len());
        if self.is_taken(place) && !self.is_taken(beside(place)) {
            self.note_at(beside(place), number);
        } else {
            self.note_at(place, number);
        }
    }

    /// Whether an entry has a place.
    fn is_taken(&self, place: usize) -> bool {
        self.number_at(place) < usize::MAX
    }

    /// Notes the number of an entry in a place.
    fn note_at(&mut self, place: usize, number: usize) {
        if place < self.places.len() && number < u32::MAX as usize {
            self.places[place] = number as u32 + 1;
        }
    }

    /// Notes the number of an entry of a name that is to come after these.
    pub(crate) fn note_next(
        &mut self,
        alloc: Global,
        entries: &[Entry],
        name: &[u8],
    ) -> Result<(), Memory> {
        if entries.len() >= self.places.len() / PLACES_OF_ENTRY {
            let count = self.places.len().saturating_mul(GROWTH).max(FIRST_PLACES);
            *self = Near::of(alloc, entries, count)?;
        }
        self.note(name, entries.len());
        Ok(())
    }

    /// So many places, with those of entries.
    fn of(alloc: Global, entries: &[Entry], count: usize) -> Result<Near, Memory> {
        let mut near = Near {
            places: vec![in alloc; 0u32; count]?,
        };
        for (number, entry) in entries.iter().enumerate() {
            near.note(entry.name(), number);
        }
        Ok(near)
    }

    /// The same places once more.
    pub(crate) fn copied(&self, alloc: Global) -> Result<Near, Memory> {
        Ok(Near {
            places: Vec::from_slice(alloc, &self.places)?,
        })
    }
}
