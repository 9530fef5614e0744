// The book of edits of all programs.
use crate::draft::Against;
use crate::edits::ProgramEdits;
use crate::error::EditError;
use crate::texts::ProgramText;
use lgx_num::{Memory, Name};
use lgx_prog::FlatProgram;
use lgx_tags::TagTable;
use spec_language::TaskName;
use spec_machine::{Accept, EditFault};
use std::alloc::Global;
use std::marker::Model;

/// The books of edits of all programs of a project, in project order: each is a [`ProgramEdits`].
///
/// A program is found by a walk over their names: edit commands are rare, and a walk takes no memory.
pub struct EditBook {
    pub(crate) programs: Vec<ProgramEdits>,
}

impl Drop for EditBook {
    fn drop(self) {
        let EditBook { programs: _ } = self;
    }
}

impl Model for EditBook {
    ghost use Rattle.std.specs.Prelude.{List};
    ghost use Rattle.std.specs.Coded.{codes, coded_list};
    ghost use Rattle.lgx_edit.specs.EditsView.{EditsView};
    ghost use Rattle.lgx_edit.specs.Codes.{view_code};

    ghost Value = { List EditsView };

    ghost coded = { coded_list (view_code (Prim.hlevel codes) (Prim.hlevel codes) (Prim.hlevel codes)) };

    ghost view = { λ b. b.programs.items };

    ghost use Rattle.std.specs.Prelude.{◌^◌, ◌<◌, length};

    ghost invariant = { λ b. length b.programs.items < 2 ^ 32 };
}

impl EditBook {
    ghost use Rattle.std.specs.Prelude.{◌^◌, ◌≡◌, ◌≢◌, ◌<◌, true, All, map, length, IfOk, IfSome, IfNone, IsTrue, IsNone, Some, None, option_map, slice_set, slice_index_or};
    ghost use Rattle.spec_machine.specs.Edits.{book_of, book_at, selected_number, program_named, routine_at, merged, changes_in, accept, on_accepted, test, untest, assemble, cancel};
    ghost use Rattle.lgx_edit.specs.Texts.{program_of};
    ghost use Rattle.lgx_versions.specs.View.{number_of};
    ghost use Rattle.lgx_edit.specs.EditsView.{EditsView, books, holds, held_at, slots_at, AreSlotsAt, RunsSelected, HoldsNow, Leaves};
    ghost use Rattle.lgx_edit.specs.HeldAgain.{HoldsAgain};
    ghost use Rattle.lgx_edit.specs.Accepting.{LeavesAccepted, has_numbers_left};
    ghost use Rattle.lgx_edit.specs.CheckedBooks.{AreChecked};

    /// The book of these programs in project order, without edits. The main routine of each must be one of its routines.
    ///
    /// 4,294,967,296 programs, or routines of one, have no room.
    pub fn new(alloc: Global, programs: Vec<ProgramText>) -> Result<EditBook, Memory>
        requires { All (λ p. p.main < length p.routines) programs.items }
        ensures books { IfOk result (λ b. books b ≡ map (λ p. book_of (program_of p)) programs.items) }
        ensures holds { IfOk result (λ b. holds b ≡ map (λ p. None) programs.items) }
    {
        if programs.len() > u32::MAX as usize {
            return Err(Memory);
        }
        let mut edits = Vec::with_capacity(alloc, programs.len())?;
        for text in programs {
            edits.push(ProgramEdits::new(alloc, text)?)?;
        }
        Ok(EditBook { programs: edits })
    }

    /// Adds edits of a routine to the accepted ones of its program, and answers the accept's number: that of the program's
    /// last accept plus one. It may be tested, and stays so: then the new merged rungs are selected, from its next begin on.
    /// The checked rungs that the book has are those that its source rungs give with these tags and tasks.
    ///
    /// It is refused by the first of these causes: E1 there is no such program, E2 no such routine, E3 another lane owns
    /// the program's edits, E5 the first edit of a rung that isn't there, E6 the first that replaces or deletes a rung that
    /// an accepted edit or an earlier one did, E7 the first whose text spells no rung, E8 the merged routine is refused, E9
    /// the merged program has more than `MAX_PROGRAM_INSTRUCTIONS`. Then it may be out of memory. If it is refused or out of
    /// memory, the book is as before: it takes all its memory before it changes anything.
    ///
    /// Only new rungs, and those with an LBL, a JMP or an SBR, are checked: the others are taken over as they are. Beside that
    /// time grows with the program, by little for each instruction.
    pub fn accept(
        &mut self,
        alloc: Global,
        lane: u32,
        command: &Accept,
        tags: &TagTable,
        tasks: &[TaskName],
    ) -> Result<u32, EditError>
        requires numbers { IsTrue (has_numbers_left (books self.old)) }
        requires sealed { tags.now.sealed ≡ true }
        requires few_tasks { length tasks.now < 2 ^ 32 }
        requires checked { AreChecked tags.now.declarations tasks.now (books self.old) }
        ensures { LeavesAccepted (accept tags.now.declarations tasks.now (books self.old) lane command.now) self.old self.new result }
    {
        let n = self.find(&command.program)?;
        let against = Against {
            tags,
            program: n as u32,
            tasks,
        };
        self.programs[n].accept(alloc, lane, command, &against)
    }

    /// Selects the program's merged rungs, from its next begin on.
    ///
    /// E1 comes if there is no such program, E3 if another lane owns its edits, E10 if nothing is accepted, E11 if
    /// it is tested already.
    pub fn test(&mut self, lane: u32, program: &Name) -> Result<(), EditFault>
        ensures { Leaves (on_accepted test (books self.old) lane program.now) self.old self.new result }
    {
        let n = self.find(program)?;
        self.programs[n].test(lane)
    }

    /// Selects the program's base rungs, from its next begin on.
    ///
    /// E1 comes if there is no such program, E3 if another lane owns its edits, E10 if nothing is accepted, E12 if it
    /// isn't tested.
    pub fn untest(&mut self, lane: u32, program: &Name) -> Result<(), EditFault>
        ensures { Leaves (on_accepted untest (books self.old) lane program.now) self.old self.new result }
    {
        let n = self.find(program)?;
        self.programs[n].untest(lane)
    }

    /// Makes the program's merged rungs its base, tested or not. Testing ends, and nobody owns its edits.
    ///
    /// E1 comes if there is no such program, E3 if another lane owns its edits, E10 if nothing is accepted.
    pub fn assemble(&mut self, lane: u32, program: &Name) -> Result<(), EditFault>
        ensures { Leaves (on_accepted assemble (books self.old) lane program.now) self.old self.new result }
    {
        let n = self.find(program)?;
        self.programs[n].assemble(lane)
    }

    /// Drops the program's accepted edits, also while it is tested. Testing ends, and nobody owns its edits.
    ///
    /// E1 comes if there is no such program, E3 if another lane owns its edits, E10 if nothing is accepted.
    pub fn cancel(&mut self, lane: u32, program: &Name) -> Result<(), EditFault>
        ensures { Leaves (on_accepted cancel (books self.old) lane program.now) self.old self.new result }
    {
        let n = self.find(program)?;
        self.programs[n].cancel(lane)
    }

    /// Holds the selected version of a program, which is given by its number in the project, and answers the version's number. None
    /// may be held of it.
    pub fn hold(&mut self, program: u32) -> u32
        requires known { program < length self.old }
        requires free { IsNone (held_at self.old program) }
        ensures number { result ≡ selected_number (book_at (books self.old) program) }
        ensures books { books self.new ≡ books self.old }
        ensures held { HoldsNow program result self.old self.new }
    {
        self.programs[program as usize].hold()
    }

    /// The number of the selected version of a program, if it is the one that is held already: then to hold nothing and to hold
    /// what is selected would change nothing. None if another version is held, or none.
    #[inline]
    pub fn held_again(&self, program: u32) -> Option<u32>
        requires { program < length self.now }
        ensures held { IfSome result (λ n. HoldsAgain program n self.now) }
        ensures other { IfNone result (number_of (held_at self.now program) ≢ Some (selected_number (book_at (books self.now) program))) }
    {
        self.programs[program as usize].held_again()
    }

    /// The flat code of the version of a program that is held; None if none is.
    pub fn held(&self, program: u32) -> Option<&FlatProgram>
        requires { program < length self.now }
        ensures { option_map (λ p. p.now) result ≡ option_map (λ v. v.program) (held_at self.now program) }
    {
        self.programs[program as usize].held()
    }

    /// Holds nothing of a program any more. If nothing was held, nothing changes.
    pub fn drop_hold(&mut self, program: u32)
        requires { program < length self.old }
        ensures books { books self.new ≡ books self.old }
        ensures held { holds self.new ≡ slice_set (holds self.old) program None }
    {
        self.programs[program as usize].drop_hold();
    }

    /// The flat code of the version of a program that is selected.
    pub fn selected(&self, program: u32) -> &FlatProgram
        requires { program < length self.now }
        ensures { RunsSelected result.now (book_at (books self.now) program) }
    {
        self.programs[program as usize].selected()
    }

    /// The number of the version in a slot of a program, from 0 to 2; None if the slot is free.
    pub fn slot(&self, program: u32, i: u32) -> Option<u32>
        requires known { program < length self.now }
        requires slot { i < 3 }
        ensures number { result ≡ slice_index_or (slots_at self.now program) i None }
        ensures slots { (d : EditsView) → AreSlotsAt (slice_index_or self.now program d) }
    {
        self.programs[program as usize].slot(i)
    }

    /// The number of programs.
    pub fn len(&self) -> u32
        ensures { result ≡ length self.now }
    {
        self.programs.len() as u32
    }

    /// Whether each program has a number left for its next accept: its last one's is below 4,294,967,295.
    pub fn has_numbers_left(&self) -> bool
        ensures { result ≡ has_numbers_left (books self.now) }
    {
        for edits in &self.programs {
            if !edits.has_number_left() {
                return false;
            }
        }
        true
    }

    /// The merged rungs of each routine that are kept are its base with all accepted edits.
    pub fn law_of_merged(&self, program: u32, routine: u32)
        requires program { program < length self.now }
        requires routine { routine < length (book_at (books self.now) program).base }
        ensures { let b = book_at (books self.now) program in (routine_at b.merged routine).source ≡ merged (routine_at b.base routine).source (changes_in b routine) }
    {
        self.programs[program as usize].law_of_merged(routine);
    }

    /// The number of the first program of this name; case doesn't matter. E1 comes if there is none.
    fn find(&self, program: &Name) -> Result<usize, EditFault>
        ensures named { result ≡ program_named (books self.now) program.now }
        ensures within { IfOk result (λ n. n < length self.now) }
    {
        for (n, edits) in self.programs.iter().enumerate() {
            if edits.is_named(program) {
                return Ok(n);
            }
        }
        Err(EditFault::E1)
    }
}
