// I/O words.
ghost use Rattle.std.specs.Prelude.{◌≡◌, ℕ, ◌+◌, ◌*◌, ◌<◌, ◌≤◌, length, Ok};
ghost use Rattle.spec_base.specs.declared.limits.TheConstants.{MAX_IMAGE_BYTES, MAX_TASKS};
ghost use Rattle.std.specs.Int.{w32};
ghost use Rattle.lgx_num.specs.Image.{signed_at, write_signed};
ghost use Rattle.spec_tables.specs.Forces.{forced};
ghost use Rattle.spec_machine.specs.Releases.{released_mask};
ghost use Rattle.spec_machine.specs.State.{State};
ghost use Rattle.spec_machine.specs.Actions.{word_in, word_out, put_in, triggers};
ghost use Rattle.lgx_image.specs.Grains.{ChangesOnlyMarked};
ghost use Rattle.lgx_steps.specs.Plans.{IsKnown};
ghost use Rattle.lgx_steps.specs.Represents.{RepresentsParts, IsLive};
ghost use Rattle.lgx_steps.specs.Gives.{Gives};

use crate::modes::{mask_of, replied};
use crate::parts::ControllerParts;
use lgx_conn::Slot;
use lgx_force::ForceTable;
use lgx_image::Image;
use lgx_num::{Kind, Name, Place};
use lgx_sched::Release;
use spec_machine::{Mode, Outcome, Reply};

/// The place of the word that begins at a byte.
fn word_at(byte: u32) -> Place
    requires { byte < MAX_IMAGE_BYTES }
    ensures { result ≡ record { kind = Kind.Dint; at = byte * 8 } }
{
    Place {
        kind: Kind::Dint,
        at: byte * 8,
    }
}

/// The word of a slot is put into the image as it is forced.
fn put_word(forces: &ForceTable, slot: Slot, value: i32, image: &mut Image)
    requires small { slot.byte < MAX_IMAGE_BYTES }
    requires inside { slot.byte + 4 ≤ length image.old.bytes }
    requires word { slot.io < length forces.now.words }
    ensures bytes { image.new.bytes ≡ write_signed w32 image.old.bytes slot.byte (forced forces.now slot.io value) }
    ensures only_marked { ChangesOnlyMarked image.old image.new }
{
    let forced = forces.forced(slot.io, value);
    image.put(word_at(slot.byte), forced);
}

/// The word of a slot as it leaves the image, forced.
fn get_word(forces: &ForceTable, slot: Slot, image: &Image) -> i32
    requires small { slot.byte < MAX_IMAGE_BYTES }
    requires inside { slot.byte + 4 ≤ length image.now.bytes }
    requires word { slot.io < length forces.now.words }
    ensures { result ≡ forced forces.now slot.io (signed_at w32 image.now.bytes slot.byte) }
{
    let value = image.get(word_at(slot.byte));
    forces.forced(slot.io, value)
}

/// The mask of the task that a release put up.
fn released_mask(t: u32, answer: Release) -> u32
    requires { t < MAX_TASKS }
    ensures { result ≡ released_mask t answer }
{
    match answer {
        Release::Released => mask_of(Some(t)),
        Release::Overlap | Release::Inhibited => 0,
    }
}

impl ControllerParts {
    /// An I/O word comes in: it is put into the image as it is forced. In Run the last word of an input with a trigger releases the
    /// trigger's task.
    ///
    /// `Held` comes while a CPS is in progress; else N1 at an unknown connection, N2 at a word out of range, N3 at an output.
    pub fn word_in(&mut self, conn: &Name, word: u32, value: i32) -> Outcome
        requires { IsLive self.old }
        ensures gives { (n : ℕ) (s : State) → RepresentsParts n self.old s → Gives n self.new result (word_in s conn.now word value) }
        ensures only_marked { ChangesOnlyMarked self.old.image self.new.image }
    {
        if self.table.held() {
            return replied(Reply::Held);
        }
        match self.conns.word_in(conn, word) {
            Ok(slot) => self.take_in(slot, value),
            Err(fault) => replied(Reply::Conn(fault)),
        }
    }

    /// The word of a slot comes in.
    fn take_in(&mut self, slot: Slot, value: i32) -> Outcome
        requires live { IsLive self.old }
        requires small { slot.byte < MAX_IMAGE_BYTES }
        requires inside { slot.byte + 4 ≤ length self.old.image.bytes }
        requires trigger { IsKnown (length self.old.progress.items) slot.trigger }
        requires word { slot.io < length self.old.forces.words }
        ensures gives { (n : ℕ) (s : State) → RepresentsParts n self.old s → Gives n self.new result (put_in s value (Ok slot)) }
        ensures only_marked { ChangesOnlyMarked self.old.image self.new.image }
    {
        put_word(&self.forces, slot, value, &mut self.image);
        match self.mode {
            Mode::Run => self.trigger_by_word(slot.trigger),
            Mode::Program | Mode::Faulted => replied(Reply::Done),
        }
    }

    /// The last word of an input in Run releases the trigger's task, if it has one.
    fn trigger_by_word(&mut self, trigger: Option<u32>) -> Outcome
        requires live { IsLive self.old }
        requires known { IsKnown (length self.old.progress.items) trigger }
        ensures gives { (n : ℕ) (s : State) → RepresentsParts n self.old s → Gives n self.new result (triggers s Mode.Run trigger) }
        ensures image { self.new.image ≡ self.old.image }
    {
        match trigger {
            Some(t) => {
                let released = self.release(t);
                Outcome {
                    reply: Reply::Done,
                    fault: released.fault,
                    released: released_mask(t, released.answer),
                }
            }
            None => replied(Reply::Done),
        }
    }

    /// An I/O word goes out as it is forced.
    ///
    /// `Held` comes while a CPS is in progress; else N1 at an unknown connection, N2 at a word out of range, N3 at an input.
    pub fn word_out(&self, conn: &Name, word: u32) -> Reply
        requires { IsLive self.now }
        ensures { (n : ℕ) (s : State) → RepresentsParts n self.now s → result ≡ (word_out s conn.now word).answer.reply }
    {
        if self.table.held() {
            return Reply::Held;
        }
        match self.conns.word_out(conn, word) {
            Ok(slot) => Reply::Word(get_word(&self.forces, slot, &self.image)),
            Err(fault) => Reply::Conn(fault),
        }
    }
}
