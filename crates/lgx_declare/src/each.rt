// Judging the elements of a list, one after another.
ghost use Rattle.std.specs.List.{AllByRecursion as Each};
ghost use Rattle.spec_project.specs.Faults.{first_of, in_field};
ghost use Rattle.lgx_json.specs.Answers.{Passes};

use lgx_json::ProjectError;
use std::alloc::Global;

/// What judges an element of a list by its place and itself.
pub trait Judge<T> {
    ghost use Rattle.std.specs.Prelude.{ℕ, Option};
    ghost use Rattle.spec_project.specs.declared.fault.ProjectFault.{ProjectFault};

    /// What an element that is judged keeps, and its first refusal.
    ghost allows: { Self → T → Type 0 };

    ghost fault: { Self → ℕ → T → Option ProjectFault };

    fn judge(&self, alloc: Global, place: usize, thing: &T) -> Result<(), ProjectError>
        requires { allows self.now thing.now }
        ensures { Passes (fault self.now place thing.now) result };
}

/// That no element of a list is refused, or the first refusal.
pub fn judge_each<T, J: Judge<T>>(
    alloc: Global,
    judge: &J,
    things: &[T],
) -> Result<(), ProjectError>
    requires { Each (J.allows judge.now) things.now }
    ensures { Passes (first_of (J.fault judge.now) things.now) result }
{
    for (i, thing) in things.iter().enumerate() {
        judge.judge(alloc, i, thing)?;
    }
    Ok(())
}

/// That no element of the list in a field is refused, or the first refusal.
pub fn judge_in<T, J: Judge<T>>(
    alloc: Global,
    key: &str,
    judge: &J,
    things: &[T],
) -> Result<(), ProjectError>
    requires { Each (J.allows judge.now) things.now }
    ensures { Passes (in_field key.now (first_of (J.fault judge.now) things.now)) result }
{
    match judge_each(alloc, judge, things) {
        Ok(()) => Ok(()),
        Err(error) => Err(error.in_field(alloc, key)),
    }
}
