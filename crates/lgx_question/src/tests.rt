// The tests of a line of a question.
ghost use Rattle.std.specs.Prelude.{◌≡◌, ◌<◌, ◌^◌, length, None, IfOk, IfSome, IsNone};
ghost use Rattle.spec_text.specs.TextLines.{words};
ghost use Rattle.spec_explore.specs.QuestionText.{never_said};
ghost use Rattle.lgx_question.specs.Reading.{never_found, single, both, seen, IsTest, ends_at};

use crate::words::{named, test_of};
use lgx_journal::next_word;
use lgx_num::{Items, Memory};
use lgx_watch::Names;
use spec_explore::Test;
use std::alloc::Global;

/// The tests of a line, unless a name of them is no watched place's; and the number of its program, or that it has none,
/// unless its name is no program's.
#[derive(Drop)]
pub(crate) struct FoundNever {
    pub(crate) tests: Option<Items<Test>>,
    pub(crate) program: Option<Option<u32>>,
}

/// The first test of a text, and what comes after it.
#[tactic(auto, using(crate::proofs::ReadTests::short_said, crate::proofs::ReadTests::no_test_said))]
fn next_test<'a>(names: &Names, text: &'a [u8]) -> Option<(Option<Test>, &'a [u8])>
    requires { length names.now.watches < 2 ^ 32 }
    ensures some { IfSome result (λ r. IsTest names.now (words text.now) r.0 (words r.1.now)) }
    ensures none { IsNone result → never_said (words text.now) ≡ None }
{
    let Some((tag, after)) = next_word(text) else {
        return None;
    };
    let Some((sign, after)) = next_word(after) else {
        return None;
    };
    let Some((value, after)) = next_word(after) else {
        return None;
    };
    let Some(test) = test_of(names, tag, sign, value) else {
        return None;
    };
    Some((test, after))
}

/// What tests and a program come to; with a name missing there are none.
fn found_never(tests: Vec<Test>, missing: bool, program: Option<Option<u32>>) -> FoundNever
    ensures { result ≡ record { tests = seen tests.items missing; program = program } }
{
    if missing {
        return FoundNever {
            tests: None,
            program,
        };
    }
    FoundNever {
        tests: Some(Items::of(tests)),
        program,
    }
}

/// Tests that end with a word and a text, which are to be `at` and a program's name.
fn in_program(
    names: &Names,
    tests: Vec<Test>,
    missing: bool,
    word: &[u8],
    text: &[u8],
) -> Option<FoundNever>
    requires { length names.now.programs < 2 ^ 32 }
    ensures { result ≡ ends_at names.now (seen tests.items missing) word.now (words text.now) }
{
    if word != b"at".as_slice() {
        return None;
    }
    let Some((name, after)) = next_word(text) else {
        return None;
    };
    if next_word(after).is_some() {
        return None;
    }
    match named(names.programs.as_slice(), name) {
        Some(program) => Some(found_never(tests, missing, Some(Some(program)))),
        None => Some(found_never(tests, missing, None)),
    }
}

/// Adds a test, and answers whether a name is missing now.
#[tactic(auto, using(crate::proofs::ReadTests::seen_more, crate::proofs::ReadTests::seen_none))]
fn add_test(tests: &mut Vec<Test>, missing: bool, test: Option<Test>) -> Result<bool, Memory>
    ensures { IfOk result (λ now. seen tests.new.items now ≡ both (seen tests.old.items missing) (single test)) }
{
    match test {
        Some(test) => {
            tests.push(test)?;
            Ok(missing)
        }
        None => Ok(true),
    }
}

/// The tests of a text, with its program; nothing of a text of another form.
pub(crate) fn never_of(
    alloc: Global,
    names: &Names,
    text: &[u8],
) -> Result<Option<FoundNever>, Memory>
    requires watches { length names.now.watches < 2 ^ 32 }
    requires programs { length names.now.programs < 2 ^ 32 }
    ensures { IfOk result (λ o. o ≡ never_found names.now (words text.now)) }
{
    let mut tests = Vec::new(alloc);
    let mut missing = false;
    let mut rest = text;
    while let Some((test, after)) = next_test(names, rest) {
        missing = add_test(&mut tests, missing, test)?;
        let Some((word, more)) = next_word(after) else {
            return Ok(Some(found_never(tests, missing, Some(None))));
        };
        if word != b"and".as_slice() {
            return Ok(in_program(names, tests, missing, word, more));
        }
        rest = more;
    }
    Ok(None)
}
