// Connections.
ghost use Rattle.std.specs.Prelude.{◌≡◌, ◌+◌, ◌*◌, ◌≤◌, IfSome};
ghost use Rattle.spec_base.specs.declared.limits.TheConstants.{MAX_CONNECTION_WORDS, MAX_IMAGE_BYTES};

use crate::trouble::Trouble;
use lgx_conn::Conns;
use lgx_num::{Memory, Name};
use spec_base::limits::MAX_CONNECTION_WORDS;
use spec_tables::{ConnDef, ConnFault, Slot};
use std::alloc::Global;
use test_rows::{Told, name_at, number_at, word_at};

/// `conns | CONNECTION, CONNECTION ? CALL; .. | ..`: what the calls answer.
///
/// A connection is `NAME in BYTE WORDS TASK` or the same with `out`. A call is `in NAME WORD`, `out NAME WORD`, `io
/// NAME WORD` or `words NAME WORD`; a slot is its byte, its number and its task, and `words` answers how many words
/// there are.
pub fn say_conns(alloc: Global, said: &mut Told, defs: &str, calls: &str) -> Result<(), Trouble> {
    let conns = conns_of(alloc, said, defs)?;
    for call in calls.split(';') {
        run(said, &conns, call);
    }
    Ok(())
}

fn conns_of(alloc: Global, said: &mut Told, defs: &str) -> Result<Conns, Trouble> {
    let (first, second) = defs.split_once(',').ok_or(Trouble::Form)?;
    let Some(first) = conn(said, first) else {
        return Err(Trouble::Form);
    };
    let Some(second) = conn(said, second) else {
        return Err(Trouble::Form);
    };
    Ok(conns(alloc, first, second)?)
}

fn conn(said: &mut Told, text: &str) -> Option<ConnDef>
    ensures { IfSome result (λ c. (c.words ≤ MAX_CONNECTION_WORDS) × (c.byte + 4 * c.words ≤ MAX_IMAGE_BYTES)) }
{
    let output = word_at(text, 1) == "out";
    let byte = number_at(said, text, 2);
    let words = number_at(said, text, 3);
    let task = number_at(said, text, 4);
    if byte > 1000 || words > MAX_CONNECTION_WORDS {
        return None;
    }
    Some(ConnDef {
        name: name_at(text, 0)?,
        output,
        byte,
        words,
        trigger: Some(task),
    })
}

fn conns(alloc: Global, first: ConnDef, second: ConnDef) -> Result<Conns, Memory>
    requires first { (first.words ≤ MAX_CONNECTION_WORDS) × (first.byte + 4 * first.words ≤ MAX_IMAGE_BYTES) }
    requires second { (second.words ≤ MAX_CONNECTION_WORDS) × (second.byte + 4 * second.words ≤ MAX_IMAGE_BYTES) }
{
    Conns::new(alloc, &[first, second])
}

fn run(said: &mut Told, conns: &Conns, call: &str) {
    match name_at(call, 1) {
        Some(name) => say(said, conns, call, &name),
        None => said.malformed(),
    }
}

fn say(said: &mut Told, conns: &Conns, call: &str, name: &Name) {
    let number = number_at(said, call, 2);
    match word_at(call, 0) {
        "in" => say_slot(said, conns.word_in(name, number)),
        "out" => say_slot(said, conns.word_out(name, number)),
        "io" => said.or_none(conns.io_word(name, number)),
        "words" => said.number(i64::from(conns.words())),
        _ => said.malformed(),
    }
}

fn say_slot(said: &mut Told, slot: Result<Slot, ConnFault>) {
    match slot {
        Ok(slot) => {
            said.number(i64::from(slot.byte));
            said.number(i64::from(slot.io));
            said.or_none(slot.trigger);
        }
        Err(fault) => said.shown(&fault),
    }
}
