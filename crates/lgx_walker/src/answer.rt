// Answers for all journals of a script.
ghost use Rattle.std.specs.Prelude.{◌≡◌, ℕ, [], length, replicate, IfOk, IsTrue};
ghost use Rattle.spec_machine.specs.Project.{Project};
ghost use Rattle.spec_machine.specs.ValidProject.{IsValidProject};
ghost use Rattle.spec_text.specs.Scripts.{is_script};
ghost use Rattle.spec_explore.specs.declared.question.Question.{Question as Questions};
ghost use Rattle.lgx_explore.specs.Found.{Tells};
ghost use Rattle.lgx_walker.specs.Trails.{trail_of};
ghost use Rattle.lgx_walker.specs.Walks.{Watches, walked};
ghost use Rattle.lgx_walker.specs.Told.{IsTold, IsAtStart, IsFound};

use crate::places::places_of;
use crate::told::Told;
use crate::trail::Trail;
use crate::valued::ValuedController;
use crate::walker::Walker;
use crate::witness::{journal_of, journal_with};
use lgx_core::Controller;
use lgx_edit::Plant;
use lgx_explore::{Found, Progress, Stop, explore};
use lgx_journal::{Action, Script};
use lgx_num::Memory;
use lgx_question::Question;
use spec_base::limits::OWN_LANE;
use std::alloc::Global;

/// What was found, with the journal of what is shown.
fn told(alloc: Global, script: &Script, found: Found<Walker>) -> Result<Told, Memory>
    requires { IsFound script.now found }
    ensures { IfOk result (λ told. (p : Project) (q : Questions) → IsValidProject p → IsTrue (is_script script.now) → Tells walked p script.now q found → IsTold p script.now q told) }
{
    match found {
        Found::Never => Ok(Told::Never),
        Found::Shown(walker, made, line) => {
            let journal = journal_with(alloc, script, &walker.trail, made)?;
            Ok(Told::Witness(journal, line))
        }
        Found::Unknown(steps) => Ok(Told::Unknown(steps)),
    }
}

/// What is said from a walker on that is before the opening.
fn tell_from<P: Progress>(
    alloc: Global,
    mut walker: Walker,
    script: &Script,
    question: &Question,
    most: usize,
    progress: &mut P,
) -> Result<Told, Memory>
    requires proper { IsTrue (is_script script.now) }
    requires trail { walker.trail ≡ trail_of (replicate (length script.now.lanes) 0) [] 0 0 }
    requires start { IsAtStart walker.watcher }
    ensures { IfOk result (λ told. (p : Project) → Watches walker.watcher p [] → IsTold p script.now question.now told) }
{
    match walker.watcher.act(question, OWN_LANE, &Action::ModeRun) {
        Ok(None) => {
            let found = explore(alloc, script, question, walker, most, progress)?;
            told(alloc, script, found)
        }
        Ok(Some(line)) => {
            let journal = journal_of(alloc, script, &walker.trail)?;
            Ok(Told::Witness(journal, line))
        }
        Err(Stop::Limit) => Ok(Told::Unknown(0)),
        Err(_) => Err(Memory),
    }
}

/// What is said of all journals of a script within the question's window: whether a line of the question ever holds, and after
/// which journal of the least processor steps. A layer, the states after one number of steps, may have at most `most`.
/// Out of memory is the one fault. How far it is, is reported to `progress`.
pub fn tell<P: Progress>(
    alloc: Global,
    project: Plant,
    script: &Script,
    question: &Question,
    most: usize,
    progress: &mut P,
) -> Result<Told, Memory>
    requires { IsTrue (is_script script.now) }
    ensures { IfOk result (λ told. IsTold project script.now question.now told) }
{
    let places = places_of(alloc, project.parts())?;
    let trail = Trail::new(alloc, script.lanes.len())?;
    let controller = Controller::new(alloc, project)?;
    let watcher = ValuedController {
        controller,
        places,
        values: Vec::new(alloc),
    };
    let walker = Walker {
        trail,
        watcher,
        mark: 0,
    };
    tell_from(alloc, walker, script, question, most, progress)
}
