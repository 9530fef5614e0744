// Edit commands on a book.
use crate::bench::Bench;
use crate::trouble::Trouble;
use lgx_edit::EditError;
use lgx_journal::{Journal, read_journal};
use lgx_rung::{CheckFault, TextFault};
use spec_machine::{Accept, Action, EditFault, Event};
use std::alloc::Global;
use test_rows::{Told, unescaped};

/// What a command is answered: an accept its number, another command nothing, or why it is refused.
type Answer = Result<Option<u32>, EditFault>;

/// `book | PROGRAMS ? COMMAND / .. | ..`: what the commands answer, one after another; of a command after `!` the
/// answer isn't said. The programs are as [`Bench::load`] has them, and the edit commands as in a journal. Of program
/// N, 0 if it isn't given, `hold N` holds what is selected and answers its number, `drop N` drops it, `slots N`
/// answers the number in each slot, `text R N` the rungs of routine R that are selected, and `held R N` those that
/// are held.
pub fn say_book(alloc: Global, said: &mut Told, text: &str) -> Result<(), Trouble> {
    let (programs, commands) = text.split_once('?').ok_or(Trouble::Form)?;
    let mut bench = Bench::load(alloc, programs.trim())?;
    say_all(alloc, said, &mut bench, commands)
}

fn say_all(
    alloc: Global,
    said: &mut Told,
    bench: &mut Bench,
    commands: &str,
) -> Result<(), Trouble> {
    for command in commands.split('/') {
        match command.trim().strip_prefix('!') {
            Some(command) => obey(alloc, bench, command)?,
            None => say_command(alloc, said, bench, command.trim())?,
        }
    }
    Ok(())
}

/// Obeys a command, and says nothing.
fn obey(alloc: Global, bench: &mut Bench, command: &str) -> Result<(), Trouble> {
    let mut unsaid = Told::new(alloc);
    say_command(alloc, &mut unsaid, bench, command)
}

/// The number at place `i` of the words, or 0.
fn number_at(text: &str, i: usize) -> u32 {
    text.split_whitespace()
        .nth(i)
        .and_then(|word| word.parse::<u32>().ok())
        .unwrap_or(0)
}

fn say_command(
    alloc: Global,
    said: &mut Told,
    bench: &mut Bench,
    command: &str,
) -> Result<(), Trouble> {
    let program = number_at(command, 1);
    match command.split_whitespace().next().unwrap_or("") {
        "hold" => said.or_none(bench.hold(program)),
        "drop" => bench.drop_hold(program),
        "slots" => say_slots(said, bench, program),
        "text" => return say_text(alloc, said, bench, command, false),
        "held" => return say_text(alloc, said, bench, command, true),
        _ => return say_reply(alloc, said, bench, command),
    }
    Ok(())
}

/// Says the number in each slot of a program.
fn say_slots(said: &mut Told, bench: &Bench, program: u32) {
    for i in 0..3 {
        said.or_none(bench.slot(program, i));
    }
}

fn say_text(
    alloc: Global,
    said: &mut Told,
    bench: &Bench,
    command: &str,
    is_held: bool,
) -> Result<(), Trouble> {
    let program = number_at(command, 2);
    let routine = number_at(command, 1) as usize;
    let text = bench.text(alloc, program, routine, is_held)?;
    said.word(if text.is_empty() {
        "none"
    } else {
        text.as_str()
    });
    Ok(())
}

/// Says what an edit command is answered.
fn say_reply(
    alloc: Global,
    said: &mut Told,
    bench: &mut Bench,
    command: &str,
) -> Result<(), Trouble> {
    let journal = journal_of(alloc, command)?;
    say_reply_to(alloc, said, bench, &journal)
}

fn say_reply_to(
    alloc: Global,
    said: &mut Told,
    bench: &mut Bench,
    journal: &Journal,
) -> Result<(), Trouble> {
    let answer = reply_to(alloc, bench, journal)?;
    say_answer(said, answer);
    Ok(())
}

/// The journal of one command.
fn journal_of(alloc: Global, command: &str) -> Result<Journal, Trouble> {
    let text = format!(in alloc; "{command}\\nend\\n")?;
    let bytes = unescaped(alloc, text.as_str())?;
    Ok(read_journal(alloc, &bytes)?)
}

fn reply_to(alloc: Global, bench: &mut Bench, journal: &Journal) -> Result<Answer, Trouble> {
    if journal.runs() == 0 {
        return Err(Trouble::Form);
    }
    match journal.event_at(0) {
        Event::Act(lane, Action::Accept(accept)) => accepted(alloc, bench, *lane, accept),
        Event::Act(lane, action) => acted(bench, *lane, action),
        _ => Err(Trouble::Form),
    }
}

fn accepted(
    alloc: Global,
    bench: &mut Bench,
    lane: u32,
    accept: &Accept,
) -> Result<Answer, Trouble> {
    match bench.accept(alloc, lane, accept) {
        Ok(number) => Ok(Ok(Some(number))),
        Err(EditError::Edit(fault)) => Ok(Err(fault)),
        Err(EditError::Memory) => Err(Trouble::Memory),
    }
}

fn acted(bench: &mut Bench, lane: u32, action: &Action) -> Result<Answer, Trouble> {
    let answer = bench.edit(lane, action).ok_or(Trouble::Form)?;
    Ok(done(answer))
}

/// The answer of a command without a number.
fn done(answer: Result<(), EditFault>) -> Answer {
    match answer {
        Ok(()) => Ok(None),
        Err(fault) => Err(fault),
    }
}

fn say_answer(said: &mut Told, answer: Answer) {
    match answer {
        Ok(Some(number)) => say_numbered(said, "ok", number),
        Ok(None) => said.word("ok"),
        Err(EditFault::E3(owner)) => say_numbered(said, "E3", owner),
        Err(EditFault::E5(edit)) => say_numbered(said, "E5", edit),
        Err(EditFault::E6(edit)) => say_numbered(said, "E6", edit),
        Err(EditFault::E7(edit, inner)) => say_text_fault(said, edit, inner),
        Err(EditFault::E8(inner)) => say_check_fault(said, inner),
        Err(fault) => said.shown(&fault),
    }
}

fn say_numbered(said: &mut Told, word: &str, number: u32) {
    said.word(word);
    said.number(i64::from(number));
}

fn say_text_fault(said: &mut Told, edit: u32, fault: TextFault) {
    let TextFault { code, at } = fault;
    say_numbered(said, "E7", edit);
    said.shown(&code);
    said.shown(&at);
}

fn say_check_fault(said: &mut Told, fault: CheckFault) {
    let CheckFault { code, rung, ins } = fault;
    said.word("E8");
    said.shown(&code);
    said.shown(&rung);
    said.shown(&ins);
}
