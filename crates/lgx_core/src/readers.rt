// What a controller shows of its state.
ghost use Rattle.std.specs.Prelude.{◌≡◌, ◌/◌, true, false, length, replicate};
ghost use Rattle.lgx_num.specs.Number.{bytes_in};
ghost use Rattle.lgx_num.specs.Image.{number, InBounds};
ghost use Rattle.spec_tables.specs.Tasks.{held};
ghost use Rattle.spec_machine.specs.State.{State};
ghost use Rattle.lgx_fault.specs.Kept.{last_faults};
ghost use Rattle.lgx_image.specs.Grains.{NextMarked, NextHit, SomeIsHit, NoneIsHit, watch_range};
ghost use Rattle.lgx_image.specs.Laws.{AllWatched};
ghost use Rattle.lgx_core.specs.Represents.{RepresentsController};

use crate::controller::Controller;
use lgx_fault::FaultLog;
use lgx_num::Place;
use spec_machine::Mode;

impl Controller {
    /// The number at a place, which lies in the image.
    #[inline(always)]
    pub fn read(&self, place: Place) -> i32
        requires { InBounds place (length self.now.parts.image.bytes) }
        ensures { (s : State) → RepresentsController self.now s → result ≡ number s.image place }
    {
        self.parts.image.get(place)
    }

    /// The number of the image's bytes.
    #[inline(always)]
    pub fn image_len(&self) -> u32
        ensures { result ≡ length self.now.parts.image.bytes }
    {
        self.parts.image.len()
    }

    /// The present tick.
    #[inline(always)]
    pub fn now(&self) -> u32
        ensures { (s : State) → RepresentsController self.now s → result ≡ s.tick }
    {
        self.parts.tick
    }

    pub fn mode(&self) -> Mode
        ensures { (s : State) → RepresentsController self.now s → result ≡ s.mode }
    {
        self.parts.mode
    }

    /// Whether a CPS is in progress.
    pub fn copy_open(&self) -> bool
        ensures { (s : State) → RepresentsController self.now s → result ≡ held s.table }
    {
        self.parts.table.held()
    }

    /// The last faults.
    pub fn fault_log(&self) -> &FaultLog
        ensures { (s : State) → RepresentsController self.now s → result.now ≡ last_faults s.faults }
    {
        &self.parts.faults
    }

    /// How many events were counted.
    pub fn spent(&self) -> u32
        ensures { result ≡ self.now.spent }
    {
        self.spent
    }

    /// The words in which a place of the image lies are watched from now on. It is no event, and what the controller represents
    /// is as before.
    pub fn watch(&mut self, place: Place)
        requires { InBounds place (length self.old.parts.image.bytes) }
        ensures represents { (s : State) → RepresentsController self.old s → RepresentsController self.new s }
        ensures spent { self.new.spent ≡ self.old.spent }
        ensures image { self.new.parts.image ≡ record self.old.parts.image { watched = watch_range self.old.parts.image.watched (place.at / 8) (bytes_in place.kind) } }
        ensures watched { AllWatched self.new.parts.image.watched place }
    {
        self.parts.image.watch(place);
    }

    /// Whether a word of the image is hit.
    #[inline(always)]
    pub fn is_hit(&self) -> bool
        ensures some { result ≡ true → SomeIsHit self.now.parts.image }
        ensures none { result ≡ false → NoneIsHit self.now.parts.image }
    {
        self.parts.image.is_hit()
    }

    /// The least word of the image that is hit and isn't below `from`; None if there is none.
    pub fn next_hit(&self, from: u32) -> Option<u32>
        ensures { NextHit self.now.parts.image from result }
    {
        self.parts.image.next_hit(from)
    }

    /// No word of the image is hit from now on. It is no event, and what the controller represents is as before.
    pub fn clear_hits(&mut self)
        ensures represents { (s : State) → RepresentsController self.old s → RepresentsController self.new s }
        ensures none_hit { NoneIsHit self.new.parts.image }
        ensures bytes { self.new.parts.image.bytes ≡ self.old.parts.image.bytes }
        ensures marks { self.new.parts.image.marks ≡ self.old.parts.image.marks }
        ensures watched { self.new.parts.image.watched ≡ self.old.parts.image.watched }
        ensures spent { self.new.spent ≡ self.old.spent }
    {
        self.parts.image.clear_hits();
    }

    /// The least marked grain of the image that isn't below `from`; None if there is none.
    pub fn next_marked(&self, from: u32) -> Option<u32>
        ensures { NextMarked self.now.parts.image.marks from result }
    {
        self.parts.image.next_marked(from)
    }

    /// Takes every mark of the image. It is no event, and what the controller represents is as before.
    pub fn clear_marks(&mut self)
        ensures represents { (s : State) → RepresentsController self.old s → RepresentsController self.new s }
        ensures image { self.new.parts.image ≡ record self.old.parts.image { marks = replicate (length self.old.parts.image.marks) false } }
        ensures spent { self.new.spent ≡ self.old.spent }
    {
        self.parts.image.clear_marks();
    }
}
