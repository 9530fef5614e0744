// Grains of an image, and which are marked.
ghost use Rattle.std.specs.Prelude.{◌≡◌, ◌/◌};
ghost use Rattle.lgx_image.specs.Grains.{grain_of};

use crate::same::same_flags;
use spec_base::limits::MAX_IMAGE_BYTES;
use std::marker::Model;

/// The bytes of a grain, by which an image marks what was written.
pub const GRAIN: u32 = 64;

/// The grains of the largest image.
const GRAINS: usize = (MAX_IMAGE_BYTES / GRAIN) as usize;

/// The marks of an image: of each grain of the largest one whether it is marked. A byte for each, so that a mark is one store.
#[derive(Drop)]
pub(crate) struct Marks {
    marks: [bool; GRAINS],
}

impl Model for Marks {
    ghost use Rattle.std.specs.Prelude.{Bool, List};

    ghost Value = { List Bool };

    ghost view = { λ m. m.marks };
}

impl Marks {
    ghost use Rattle.std.specs.Prelude.{◌≡◌, ℕ, ◌+◌, ◌-◌, ◌/◌, ◌<◌, ◌≤◌, ◌≢◌, ◌⊎◌, true, false, replicate};
    ghost use Rattle.spec_base.specs.declared.limits.TheConstants.{MAX_IMAGE_BYTES};
    ghost use Rattle.lgx_image.specs.Grains.{grain_of, is_marked, mark_range, NextMarked};
    ghost use Rattle.lgx_image.specs.Words.{flags_of};

    /// No mark.
    pub(crate) fn new() -> Marks
        ensures { (grains : ℕ) → flags_of result grains ≡ replicate grains false }
    {
        Marks {
            marks: [false; GRAINS],
        }
    }

    /// Sets the marks of the grains that hold bytes of a piece.
    #[inline]
    pub(crate) fn mark_range(&mut self, at: u32, size: u32)
        requires { at + size ≤ MAX_IMAGE_BYTES }
        ensures { (grains : ℕ) → flags_of self.new grains ≡ mark_range (flags_of self.old grains) at size }
    {
        if size == 0 {
            return;
        }
        let first = grain_of(at);
        let last = grain_of(at + size - 1);
        self.mark(first);
        if first != last {
            self.mark_from(first + 1, last);
        }
    }

    /// Sets the mark of the grain that holds all bytes of a piece.
    #[inline(always)]
    pub(crate) fn mark_inside(&mut self, at: u32, size: u32)
        requires within { at + size ≤ MAX_IMAGE_BYTES }
        requires some { 0 < size }
        requires one { grain_of (at + size - 1) ≡ grain_of at }
        ensures { (grains : ℕ) → flags_of self.new grains ≡ mark_range (flags_of self.old grains) at size }
    {
        self.mark(grain_of(at));
    }

    /// Sets the marks of the grains from one to another.
    fn mark_from(&mut self, first: u32, last: u32)
        requires order { first ≤ last }
        requires within { last < GRAINS }
        ensures marked { (g : ℕ) → first ≤ g → g ≤ last → is_marked self.new g ≡ true }
        ensures others { (g : ℕ) → (g < first) ⊎ (last < g) → is_marked self.new g ≡ is_marked self.old g }
    {
        for grain in first..last + 1 {
            self.mark(grain);
        }
    }

    /// Sets the mark of a grain.
    #[inline(always)]
    fn mark(&mut self, grain: u32)
        requires { grain < GRAINS }
        ensures set { is_marked self.new grain ≡ true }
        ensures others { (other : ℕ) → other ≢ grain → is_marked self.new other ≡ is_marked self.old other }
    {
        self.marks[grain as usize] = true;
    }

    /// The least marked grain that isn't below `from`.
    pub(crate) fn next(&self, from: u32) -> Option<u32>
        ensures { NextMarked self.now from result }
    {
        for grain in from as usize..GRAINS {
            if self.marks[grain] {
                return Some(grain as u32);
            }
        }
        None
    }

    /// The marks once more.
    pub(crate) fn copied(&self) -> Marks
        ensures { result ≡ self.now }
    {
        Marks { marks: self.marks }
    }

    /// Whether the marks are the same.
    pub(crate) fn is_same(&self, other: &Marks) -> bool
        ensures { result ≡ true → self.now ≡ other.now }
    {
        same_flags(&self.marks, &other.marks)
    }

    /// Takes every mark.
    pub(crate) fn clear(&mut self)
        ensures { (grains : ℕ) → flags_of self.new grains ≡ replicate grains false }
    {
        self.marks = [false; GRAINS];
    }
}

/// The grain that holds a byte of the image.
#[inline(always)]
pub fn grain_of(byte: u32) -> u32
    ensures { result ≡ grain_of byte }
{
    byte / GRAIN
}
