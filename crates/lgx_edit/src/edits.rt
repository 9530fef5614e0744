// The edits of one program.
use crate::changes::{EditedRoutine, KeptEdit, assemble_all, cancel_all};
use crate::draft::{Against, Draft, drafted};
use crate::error::EditError;
use crate::fresh::{flat_routines, unedited};
use crate::owner::{other_owner, routine_named};
use crate::texts::ProgramText;
use lgx_num::{Memory, Name};
use lgx_prog::FlatProgram;
use lgx_versions::Versions;
use spec_machine::{Accept, EditFault};
use std::alloc::Global;
use std::marker::Model;

/// A program's rungs with the accepted edits, seen as the machine's book, and its versions as they run.
#[derive(Drop)]
pub struct ProgramEdits {
    pub(crate) name: Name,
    pub(crate) main: u32,
    pub(crate) routines: Vec<EditedRoutine>,
    pub(crate) accepted: Vec<KeptEdit>,
    pub(crate) owner: Option<u32>,
    pub(crate) versions: Versions,
}

impl Model for ProgramEdits {
    ghost use Rattle.std.specs.Coded.{codes};
    ghost use Rattle.lgx_edit.specs.EditsView.{EditsView};
    ghost use Rattle.lgx_edit.specs.Codes.{view_code};

    ghost Value = { EditsView };

    ghost coded = { view_code (Prim.hlevel codes) (Prim.hlevel codes) (Prim.hlevel codes) };

    ghost use Rattle.lgx_edit.specs.Seen.{view_of, IsTied};

    ghost view = { view_of };

    ghost invariant = { IsTied };
}

impl ProgramEdits {
    ghost use Rattle.std.specs.Prelude.{◌-◌, ◌^◌, ◌≡◌, ◌≢◌, ◌<◌, true, length, nat_lt, IsTrue, IsNone, IfOk, IfSome, IfNone, option_map, slice_index_or, Some, None};
    ghost use Rattle.lgx_num.specs.Name.{same};
    ghost use Rattle.spec_machine.specs.Edits.{book_of, selected_number, scope_of, routine_at, merged, changes_in, test, untest, assemble, cancel};
    ghost use Rattle.lgx_versions.specs.Roles.{selected};
    ghost use Rattle.lgx_edit.specs.Texts.{program_of};
    ghost use Rattle.lgx_versions.specs.View.{AreSlotsOf, number_of};
    ghost use Rattle.lgx_edit.specs.EditsView.{AnswersBook, on_book, may_edit, RunsSelected, IsHeldNow};
    ghost use Rattle.lgx_edit.specs.HeldAgain.{IsHeldAgain};
    ghost use Rattle.lgx_edit.specs.Accepting.{accept_at, Accepts};
    ghost use Rattle.lgx_edit.specs.CheckedBooks.{IsBookChecked};

    /// A program without edits: the base alone, with the number 0. Its main routine must be one of its routines.
    ///
    /// 4,294,967,296 routines have no room.
    pub fn new(alloc: Global, text: ProgramText) -> Result<ProgramEdits, Memory>
        requires { text.main < length text.routines }
        ensures book { IfOk result (λ e. e.book ≡ book_of (program_of text)) }
        ensures held { IfOk result (λ e. e.versions.roles.held ≡ None) }
    {
        let ProgramText {
            name,
            routines,
            main,
        } = text;
        if routines.len() > u32::MAX as usize {
            return Err(Memory);
        }
        let routines = unedited(alloc, routines.into_vec())?;
        let flats = flat_routines(alloc, &routines)?;
        let base = FlatProgram::of(alloc, flats, main)?;
        let versions = Versions::new(base)?;
        Ok(ProgramEdits {
            name,
            main,
            routines,
            accepted: Vec::new(alloc),
            owner: None,
            versions,
        })
    }

    /// Adds edits of a routine to the accepted ones, also while these are tested, and answers the accept's number.
    ///
    /// E2 comes if there is no such routine, E3 if another lane owns the edits, and then E5 to E9 as [`EditBook::accept`]
    /// says. If it is refused or out of memory, all is as before.
    pub fn accept(
        &mut self,
        alloc: Global,
        lane: u32,
        command: &Accept,
        against: &Against,
    ) -> Result<u32, EditError>
        requires number { IsTrue (nat_lt self.old.book.newest (2 ^ 32 - 1)) }
        requires sealed { against.now.tags.now.sealed ≡ true }
        requires few_tasks { length against.now.tasks.now < 2 ^ 32 }
        requires checked { IsBookChecked against.now.tags.now.declarations against.now.tasks.now against.now.program self.old.book }
        ensures { Accepts (accept_at (scope_of against.now.tags.now.declarations against.now.tasks.now against.now.program self.old.book) lane command.now self.old.book) self.old self.new result }
    {
        let routine = routine_named(self.routines.as_slice(), &command.routine)?;
        if let Some(owner) = other_owner(self.owner, lane) {
            return Err(EditError::Edit(EditFault::E3(owner)));
        }
        let draft = drafted(
            alloc,
            self.routines.as_slice(),
            self.accepted.as_slice(),
            self.main,
            routine,
            command.edits.as_slice(),
            against,
        )?;
        let Draft {
            mut edits,
            text,
            program,
        } = draft;
        // The last that can fail; nothing is changed before.
        self.accepted.append(&mut edits)?;
        self.routines[routine as usize].merged = Some(text);
        self.owner = Some(lane);
        Ok(self.versions.add(program)?)
    }

    /// Selects the merged rungs, from the program's next begin on.
    ///
    /// E3 comes if another lane owns the edits, E10 if nothing is accepted, E11 if they are tested already.
    pub fn test(&mut self, lane: u32) -> Result<(), EditFault>
        ensures { AnswersBook (on_book test lane self.old.book) self.old self.new result }
    {
        self.may_edit(lane)?;
        if self.versions.is_testing() {
            return Err(EditFault::E11);
        }
        self.versions.select(true);
        Ok(())
    }

    /// Selects the base rungs, from the program's next begin on.
    ///
    /// E3 comes if another lane owns the edits, E10 if nothing is accepted, E12 if they aren't tested.
    pub fn untest(&mut self, lane: u32) -> Result<(), EditFault>
        ensures { AnswersBook (on_book untest lane self.old.book) self.old self.new result }
    {
        self.may_edit(lane)?;
        if !self.versions.is_testing() {
            return Err(EditFault::E12);
        }
        self.versions.select(false);
        Ok(())
    }

    /// Makes the merged rungs the base, whether they are tested or not. Testing ends, and nobody owns the edits.
    ///
    /// E3 comes if another lane owns the edits, E10 if nothing is accepted.
    pub fn assemble(&mut self, lane: u32) -> Result<(), EditFault>
        ensures { AnswersBook (on_book assemble lane self.old.book) self.old self.new result }
    {
        self.may_edit(lane)?;
        assemble_all(&mut self.routines);
        self.accepted.clear();
        self.owner = None;
        self.versions.assemble();
        Ok(())
    }

    /// Drops the accepted edits, also while they are tested. Testing ends, and nobody owns the edits.
    ///
    /// E3 comes if another lane owns the edits, E10 if nothing is accepted.
    pub fn cancel(&mut self, lane: u32) -> Result<(), EditFault>
        ensures { AnswersBook (on_book cancel lane self.old.book) self.old self.new result }
    {
        self.may_edit(lane)?;
        cancel_all(&mut self.routines);
        self.accepted.clear();
        self.owner = None;
        self.versions.cancel();
        Ok(())
    }

    /// Whether a lane may edit what is accepted: E3 comes if another one owns it, and then E10 if nothing is.
    fn may_edit(&self, lane: u32) -> Result<(), EditFault>
        ensures { result ≡ may_edit lane self.now.book }
    {
        match self.owner {
            Some(owner) if owner != lane => Err(EditFault::E3(owner)),
            _ if self.accepted.is_empty() => Err(EditFault::E10),
            _ => Ok(()),
        }
    }

    /// Whether this is the program's name; case doesn't matter.
    pub fn is_named(&self, name: &Name) -> bool
        ensures { result ≡ same self.now.book.name name.now }
    {
        self.name.same(name)
    }

    /// Holds the selected version, and answers its number. None may be held.
    pub fn hold(&mut self) -> u32
        requires { IsNone self.old.versions.roles.held }
        ensures number { result ≡ selected_number self.old.book }
        ensures held { IsHeldNow self.old self.new }
    {
        self.versions.hold()
    }

    /// The number of the selected version, if it is the one that is held already. None if another one is held, or none.
    #[inline]
    pub fn held_again(&self) -> Option<u32>
        ensures held { IfSome result (λ n. IsHeldAgain n self.now) }
        ensures other { IfNone result (number_of self.now.versions.roles.held ≢ Some (selected_number self.now.book)) }
    {
        self.versions.held_again()
    }

    /// The flat code of the held version. None if none is held.
    pub fn held(&self) -> Option<&FlatProgram>
        ensures { option_map (λ p. p.now) result ≡ option_map (λ v. v.program) self.now.versions.roles.held }
    {
        self.versions.held()
    }

    /// Holds no version any more. If none was held, nothing changes.
    pub fn drop_hold(&mut self)
        ensures book { self.new.book ≡ self.old.book }
        ensures held { self.new.versions.roles.held ≡ None }
    {
        self.versions.drop_hold();
    }

    /// The flat code of the selected version.
    pub fn selected(&self) -> &FlatProgram
        ensures program { result.now ≡ (selected self.now.versions.roles).program }
        ensures runs { RunsSelected result.now self.now.book }
    {
        self.versions.selected_program()
    }

    /// The number of the version in a slot, from 0 to 2; None if the slot is free.
    pub fn slot(&self, i: u32) -> Option<u32>
        requires { i < 3 }
        ensures number { result ≡ slice_index_or self.now.versions.slots i None }
        ensures slots { AreSlotsOf self.now.versions.roles self.now.versions.slots }
    {
        self.versions.slot(i)
    }

    /// Whether a number is left for the next accept.
    pub fn has_number_left(&self) -> bool
        ensures { result ≡ nat_lt self.now.book.newest (2 ^ 32 - 1) }
    {
        self.versions.newest() < u32::MAX
    }

    /// The merged rungs that are kept are the base with all accepted edits.
    pub fn law_of_merged(&self, routine: u32)
        requires { routine < length self.now.book.base }
        ensures { (routine_at self.now.book.merged routine).source ≡ merged (routine_at self.now.book.base routine).source (changes_in self.now.book routine) }
    {
        let _ = &self.routines;
    }
}
