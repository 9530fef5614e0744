// Actions of modules and engineers, and the events of a run.
ghost use Rattle.std.specs.Prelude.{◌≡◌, IsTrue, IfOk, IfErr};
ghost use Rattle.spec_machine.specs.EditText.{is_edit_text};
ghost use Rattle.spec_machine.specs.Events.{is_accept};

use lgx_num::{Items, Memory, Name};
use std::alloc::Global;
use std::marker::Model;

/// The text of a rung edit, seen as its bytes: at most `MAX_LINE_BYTES` of them, with no line feed and no `|` among them, and
/// no blank of neutral text (space, tab, CR, LF) at either end.
#[derive(Drop)]
pub struct Text {
    bytes: Vec<u8>,
}

impl Model for Text {
    ghost use Rattle.std.specs.Prelude.{ℕ, List, IsTrue};
    ghost use Rattle.spec_machine.specs.EditText.{is_edit_text};

    ghost Value = { List ℕ };

    ghost view = { λ t. t.bytes.items };

    ghost invariant = { λ t. IsTrue (is_edit_text t.bytes.items) };
}

impl Text {
    /// The text of these bytes.
    pub fn of(bytes: Vec<u8>) -> Text
        requires form { IsTrue (is_edit_text bytes.items) }
        ensures { result ≡ bytes.items }
    {
        Text { bytes }
    }

    pub fn bytes(&self) -> &[u8]
        ensures bytes { result.now ≡ self.now }
        ensures form { IsTrue (is_edit_text self.now) }
    {
        &self.bytes
    }

    /// The same text again, in memory of its own.
    pub fn copied(&self, alloc: Global) -> Result<Text, Memory>
        ensures { IfOk result (λ text. text ≡ self.now) }
    {
        let bytes = Vec::from_slice(alloc, self.bytes())?;
        Ok(Text::of(bytes))
    }
}

/// An edit of a rung, by its number in the base routine, from 0: another text, a rung before it (or after the last), or none.
#[derive(Drop)]
pub enum RungEdit {
    Replace(u32, Text),
    Insert(u32, Text),
    Delete(u32),
}

impl RungEdit {
    /// The same edit again, with memory of its own for its text.
    pub fn copied(&self, alloc: Global) -> Result<RungEdit, Memory>
        ensures { IfOk result (λ edit. edit ≡ self.now) }
    {
        match self {
            RungEdit::Replace(rung, text) => Ok(RungEdit::Replace(*rung, text.copied(alloc)?)),
            RungEdit::Insert(rung, text) => Ok(RungEdit::Insert(*rung, text.copied(alloc)?)),
            RungEdit::Delete(rung) => Ok(RungEdit::Delete(*rung)),
        }
    }
}

/// The accept of edits of a routine: one at least, and at most `MAX_EDITS`.
#[derive(Drop)]
pub struct Accept {
    pub program: Name,
    pub routine: Name,
    pub edits: Items<RungEdit>,
}

impl Model for Accept {
    ghost use Rattle.std.specs.Prelude.{IsTrue, length};
    ghost use Rattle.spec_machine.specs.Commands.{AcceptCommand, accept_command, is_edit_count};

    ghost Value = { AcceptCommand };

    ghost view = { λ a. accept_command a.program a.routine a.edits };

    ghost invariant = { λ a. IsTrue (is_edit_count (length a.edits)) };
}

impl Accept {
    /// The same command again, with memory of its own for its edits.
    pub fn copied(&self, alloc: Global) -> Result<Accept, Memory>
        ensures { IfOk result (λ accept. accept ≡ self.now) }
    {
        let edits = edits_copied(alloc, self.edits.as_slice())?;
        Ok(Accept {
            program: self.program.copied(),
            routine: self.routine.copied(),
            edits: Items::of(edits),
        })
    }
}

/// The same edits again.
fn edits_copied(alloc: Global, edits: &[RungEdit]) -> Result<Vec<RungEdit>, Memory>
    ensures { IfOk result (λ copy. copy.items ≡ edits.now) }
{
    let mut copy = Vec::with_capacity(alloc, edits.len())?;
    for edit in edits {
        copy.push(edit.copied(alloc)?)?;
    }
    Ok(copy)
}

/// What modules and engineers do: I/O words in and out, the five edit commands, the four on forces, and the modes. A word is
/// 32 bits; its number counts from the connection's first, from 0.
#[derive(Drop)]
pub enum Action {
    WordIn {
        conn: Name,
        word: u32,
        value: i32,
    },
    WordOut {
        conn: Name,
        word: u32,
    },
    Accept(Accept),
    Test(Name),
    Untest(Name),
    Assemble(Name),
    Cancel(Name),
    ForceInstall {
        conn: Name,
        word: u32,
        mask: i32,
        value: i32,
    },
    ForceEnable,
    ForceDisable,
    ForceRemove,
    ModeRun,
    ModeProgram,
    Clear,
}

impl Action {
    /// The same action again. Only an accept takes memory.
    pub fn copied(&self, alloc: Global) -> Result<Action, Memory>
        ensures same { IfOk result (λ action. action ≡ self.now) }
        ensures memory { IfErr result (λ _. IsTrue (is_accept self.now)) }
    {
        match self {
            Action::WordIn { conn, word, value } => Ok(Action::WordIn {
                conn: conn.copied(),
                word: *word,
                value: *value,
            }),
            Action::WordOut { conn, word } => Ok(Action::WordOut {
                conn: conn.copied(),
                word: *word,
            }),
            Action::Accept(accept) => Ok(Action::Accept(accept.copied(alloc)?)),
            Action::Test(program) => Ok(Action::Test(program.copied())),
            Action::Untest(program) => Ok(Action::Untest(program.copied())),
            Action::Assemble(program) => Ok(Action::Assemble(program.copied())),
            Action::Cancel(program) => Ok(Action::Cancel(program.copied())),
            Action::ForceInstall {
                conn,
                word,
                mask,
                value,
            } => Ok(Action::ForceInstall {
                conn: conn.copied(),
                word: *word,
                mask: *mask,
                value: *value,
            }),
            Action::ForceEnable => Ok(Action::ForceEnable),
            Action::ForceDisable => Ok(Action::ForceDisable),
            Action::ForceRemove => Ok(Action::ForceRemove),
            Action::ModeRun => Ok(Action::ModeRun),
            Action::ModeProgram => Ok(Action::ModeProgram),
            Action::Clear => Ok(Action::Clear),
        }
    }
}

/// An event of a run: a processor step, a tick, or an action of a lane.
#[derive(Drop)]
pub enum Event {
    Cpu,
    Tick,
    Act(u32, Action),
}
