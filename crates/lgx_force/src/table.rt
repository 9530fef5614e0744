// The table of forces.
ghost use Rattle.std.specs.Prelude.{◌≡◌, ◌<◌, length, option_map, IfOk, Some, None};
ghost use Rattle.spec_tables.specs.Forces.{no_forces, install, enable, disable, remove_all, forced, masked};
ghost use Rattle.lgx_force.specs.Seen.{AnswersForce, force_of};

use lgx_num::Memory;
use spec_base::limits::MAX_FORCES;
use spec_tables::ForceFault;
use std::alloc::Global;
use std::marker::Model;

/// A force as it is kept.
#[derive(Clone, Copy)]
pub struct StoredForce {
    pub mask: i32,
    pub value: i32,
}

/// The forces of the I/O words. At most [`MAX_FORCES`] words have one.
///
/// It has a place for each word, so that a word is forced without a look at the others.
pub struct ForceTable {
    pub(crate) words: Vec<Option<StoredForce>>,
    pub(crate) installed: u32,
    pub(crate) enabled: bool,
}

impl Drop for ForceTable {
    fn drop(self) {
        let ForceTable {
            words: _,
            installed: _,
            enabled: _,
        } = self;
    }
}

impl Model for ForceTable {
    ghost use Rattle.std.specs.Prelude.{◌≡◌, count_by, is_some};
    ghost use Rattle.spec_tables.specs.Forces.{Forces};

    ghost Value = { Forces };

    ghost use Rattle.lgx_force.specs.Seen.{forces_of};

    ghost view = { λ t. record { words = forces_of t.words.items; enabled = t.enabled } };

    ghost invariant = { λ t. t.installed ≡ count_by is_some t.words.items };
}

impl ForceTable {
    /// A table of `words` I/O words, without a force and not enabled.
    pub fn new(alloc: Global, words: u32) -> Result<ForceTable, Memory>
        ensures exact { IfOk result (λ table. table ≡ no_forces words) }
        ensures words { IfOk result (λ table. length table.words ≡ words) }
    {
        let words = vec![in alloc; None; words as usize]?;
        Ok(ForceTable {
            words,
            installed: 0,
            enabled: false,
        })
    }

    /// Installs a force: the masked bits of the word shall be those of the value. It replaces an earlier one of the word.
    ///
    /// F1 comes if there is no such word, and F2 if [`MAX_FORCES`] other words have a force.
    pub fn install(&mut self, word: u32, mask: i32, value: i32) -> Result<(), ForceFault>
        ensures exact { AnswersForce (install self.old word mask value) self.old self.new result }
        ensures words { length self.new.words ≡ length self.old.words }
    {
        if word as usize >= self.words.len() {
            return Err(ForceFault::F1);
        }
        let others = self.installed - u32::from(self.words[word as usize].is_some());
        if others as usize >= MAX_FORCES {
            return Err(ForceFault::F2);
        }
        self.words[word as usize] = Some(StoredForce { mask, value });
        self.installed = others + 1;
        Ok(())
    }

    /// Enables the forces. F3 comes if none is installed (profile).
    pub fn enable(&mut self) -> Result<(), ForceFault>
        ensures exact { AnswersForce (enable self.old) self.old self.new result }
        ensures words { length self.new.words ≡ length self.old.words }
    {
        if self.installed == 0 {
            return Err(ForceFault::F3);
        }
        self.enabled = true;
        Ok(())
    }

    /// Disables the forces. They stay installed.
    pub fn disable(&mut self)
        ensures exact { self.new ≡ disable self.old }
        ensures words { length self.new.words ≡ length self.old.words }
    {
        self.enabled = false;
    }

    /// Removes all forces, and disables (profile). F3 comes if none is installed.
    pub fn remove_all(&mut self) -> Result<(), ForceFault>
        ensures exact { AnswersForce (remove_all self.old) self.old self.new result }
        ensures words { length self.new.words ≡ length self.old.words }
    {
        if self.installed == 0 {
            return Err(ForceFault::F3);
        }
        self.words.fill(None);
        self.installed = 0;
        self.disable();
        Ok(())
    }

    /// The value of a word as it arrives or leaves.
    pub fn forced(&self, word: u32, value: i32) -> i32
        requires { word < length self.now.words }
        ensures { result ≡ forced self.now word value }
    {
        if self.enabled {
            masked(self.words[word as usize], value)
        } else {
            value
        }
    }
}

/// The word's value under its force, if it has one.
fn masked(force: Option<StoredForce>, value: i32) -> i32
    ensures { result ≡ masked (option_map force_of force) value }
{
    match force {
        Some(force) => with_bits(force.mask, force.value, value),
        None => value,
    }
}

/// The masked bits are the force's, and the others the word's.
fn with_bits(mask: i32, held: i32, value: i32) -> i32
    ensures { result ≡ masked (Some (record { mask = mask; value = held })) value }
{
    (held & mask) | (value & !mask)
}
