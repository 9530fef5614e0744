// Forces.
ghost use Rattle.std.specs.Prelude.{◌≡◌, length};

use crate::trouble::Trouble;
use lgx_force::ForceTable;
use spec_tables::ForceFault;
use std::alloc::Global;
use test_rows::{Told, number_at, value_at, word_at};

/// A table of forces, and how many words it has.
#[derive(Drop)]
struct Forces {
    table: ForceTable,
    words: u32,
    ghost all: { length table.words ≡ words },
}

/// `forces | WORDS ? CALL; .. | ..`: what the calls answer in a table of WORDS words.
///
/// `install FIRST LAST MASK VALUE` answers the last fault of the words from the first to the last, `force WORD VALUE`
/// what becomes of the value of a word.
pub fn say_forces(alloc: Global, said: &mut Told, words: &str, calls: &str) -> Result<(), Trouble> {
    let words = number_at(said, words, 0);
    let table = ForceTable::new(alloc, words)?;
    let mut forces = Forces { table, words };
    for call in calls.split(';') {
        run(said, &mut forces, call);
    }
    Ok(())
}

fn run(said: &mut Told, forces: &mut Forces, call: &str) {
    match word_at(call, 0) {
        "install" => install(said, forces, call),
        "force" => say_forced(said, forces, call),
        "enable" => say_answer(said, forces.table.enable()),
        "remove" => say_answer(said, forces.table.remove_all()),
        "disable" => forces.table.disable(),
        _ => said.malformed(),
    }
}

fn install(said: &mut Told, forces: &mut Forces, call: &str) {
    let first = number_at(said, call, 1);
    let last = number_at(said, call, 2);
    let mask = value_at(said, call, 3);
    let value = value_at(said, call, 4);
    let mut answer = Ok(());
    for word in first..last.saturating_add(1) {
        answer = forces.table.install(word, mask, value);
    }
    say_answer(said, answer);
}

fn say_forced(said: &mut Told, forces: &Forces, call: &str) {
    let word = number_at(said, call, 1);
    let value = value_at(said, call, 2);
    if word < forces.words {
        said.number(i64::from(forces.table.forced(word, value)));
    } else {
        said.malformed();
    }
}

fn say_answer(said: &mut Told, answer: Result<(), ForceFault>) {
    match answer {
        Ok(()) => said.word("ok"),
        Err(fault) => said.shown(&fault),
    }
}
