// What the steps of a scan did, in words.
use crate::bench::{Bench, Scan};
use lgx_engine::Effect;
use std::alloc::{AllocError, Global};
use test_rows::Told;

/// More steps than any scan of a table takes that ends.
const MAX_STEPS: u32 = 120;

/// What a step did: a word, perhaps with a number after it.
#[derive(Clone, Copy)]
struct Step {
    word: &'static str,
    number: Option<u32>,
}

/// Runs the scan to its end, to a major fault or for 120 steps, and says what each step did, as `2*ran left ran end`.
///
/// `ran`: an instruction was executed. `up`, `down`: a UID, a UIE. `trigger0`: an EVENT, with the number of its task.
/// `minor`, `major84`: an instruction with a fault. `copy`, `cps`: a COP or FLL, a CPS that starts; `element`,
/// `last`: an element is copied, the last one. `left`: a routine is left, `end`: the main one. A word with a number
/// and `*` before it stands for as many steps.
pub fn say_steps(
    alloc: Global,
    said: &mut Told,
    bench: &mut Bench,
    scan: Scan,
) -> Result<(), AllocError> {
    let mut count = 0u32;
    let mut before = Step {
        word: "",
        number: None,
    };
    for _ in 0..MAX_STEPS {
        let effect = bench.step(scan);
        let step = step_of(effect);
        if !is_same(step, before) {
            say_equal(alloc, said, before, count)?;
            count = 0;
        }
        before = step;
        count = count.saturating_add(1);
        if is_last(effect) {
            break;
        }
    }
    say_equal(alloc, said, before, count)
}

/// Whether both steps did the same.
fn is_same(left: Step, right: Step) -> bool {
    left.word == right.word && left.number == right.number
}

/// Says `count` equal steps.
fn say_equal(alloc: Global, said: &mut Told, step: Step, count: u32) -> Result<(), AllocError> {
    if count == 0 {
        return Ok(());
    }
    let word = text_of(alloc, step, count)?;
    said.word(word.as_str());
    Ok(())
}

fn text_of(alloc: Global, step: Step, count: u32) -> Result<String, AllocError> {
    let mut text = String::new(alloc);
    if count > 1 {
        write!(text, "{count}*")?;
    }
    text.push_str(step.word)?;
    if let Some(number) = step.number {
        write!(text, "{number}")?;
    }
    Ok(text)
}

/// Whether nothing follows in a scan.
pub fn is_last(effect: Effect) -> bool {
    match effect {
        Effect::Left { ended } => ended,
        Effect::Major(_) => true,
        _ => false,
    }
}

/// What a step did.
fn step_of(effect: Effect) -> Step {
    Step {
        word: word_of(effect),
        number: match effect {
            Effect::Trigger(task) => Some(task),
            Effect::Major(code) => Some(u32::from(code)),
            _ => None,
        },
    }
}

fn word_of(effect: Effect) -> &'static str {
    match effect {
        Effect::Ran => "ran",
        Effect::Up => "up",
        Effect::Down => "down",
        Effect::Trigger(_) => "trigger",
        Effect::CopyStart(true) => "cps",
        Effect::CopyStart(false) => "copy",
        Effect::Copied { last: false, .. } => "element",
        Effect::Copied { last: true, .. } => "last",
        Effect::Left { ended: false } => "left",
        Effect::Left { ended: true } => "end",
        Effect::Minor => "minor",
        Effect::Major(_) => "major",
    }
}
