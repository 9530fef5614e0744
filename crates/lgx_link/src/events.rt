// What a recording takes of a line: an event some number of times, or all words of a connection.
ghost use Rattle.std.specs.Prelude.{◌≡◌, ℕ, ◌+◌, ◌≤◌, ◌<◌, List, [], ◌∷◌, ◌++◌, length, replicate, IfOk, OnOk};
ghost use Rattle.spec_base.specs.declared.limits.TheConstants.{MAX_EVENTS, OWN_LANE};
ghost use Rattle.spec_machine.specs.declared.event.Event.{Event as Events};
ghost use Rattle.spec_machine.specs.declared.event.Event.TheVariants.{Act};
ghost use Rattle.spec_machine.specs.declared.event.Action.TheVariants.{WordIn};
ghost use Rattle.spec_machine.specs.Project.{Project};
ghost use Rattle.spec_link.specs.Links.{word_of, words_answered, words_from};
ghost use Rattle.lgx_record.specs.Records.{Records, RecordsMore};
ghost use Rattle.lgx_link.specs.declared.packet.TheConstants.{MAX_WORDS};
ghost use Rattle.lgx_link.specs.Running.{outs, AreWords};

use crate::packet::Words;
use lgx_journal::{Action, Event, EventsLent, Reply};
use lgx_num::{Memory, Name};
use lgx_record::Recording;
use spec_base::limits::OWN_LANE;

/// Takes an action `count` times.
fn act_times(
    recording: &mut Recording,
    lane: u32,
    action: &Action,
    count: u32,
) -> Result<(), Memory>
    requires { recording.old.controller.spent + count ≤ MAX_EVENTS }
    ensures records { OnOk result (RecordsMore recording.old recording.new (replicate count (Act lane action.now))) }
    ensures spent { OnOk result (recording.new.controller.spent ≡ recording.old.controller.spent + count) }
{
    for _ in 0..count {
        recording.apply(EventsLent::Act(lane, action))?;
    }
    Ok(())
}

/// Takes an event `count` times: processor steps and ticks together.
pub(crate) fn take_times(recording: &mut Recording, event: &Event, count: u32) -> Result<(), Memory>
    requires { recording.old.controller.spent + count ≤ MAX_EVENTS }
    ensures records { (project : Project) (events : List Events) → Records recording.old project events → OnOk result (Records recording.new project (events ++ replicate count event.now)) }
    ensures spent { OnOk result (recording.new.controller.spent ≡ recording.old.controller.spent + count) }
{
    match event {
        Event::Cpu => recording.apply(EventsLent::Cpu(count)),
        Event::Tick => recording.apply(EventsLent::Tick(count)),
        Event::Act(lane, action) => act_times(recording, *lane, action, count),
    }
}

/// Adds the word that a reply is, if it is one.
#[tactic(auto, using(crate::proofs::WordsCounted::range_more))]
fn push_word(words: &mut Words, reply: Reply)
    requires { length words.old < MAX_WORDS }
    ensures word { words.new ≡ words.old ++ word_of reply }
    ensures few { length words.new ≤ length words.old + 1 }
    ensures range { AreWords words.old → AreWords words.new }
{
    if let Reply::Word(value) = reply {
        words.push(value);
    }
}

/// Asks for each word of an output connection, in their order. No other event comes between them.
pub(crate) fn words_out(
    recording: &mut Recording,
    output: &Name,
    count: u32,
) -> Result<Words, Memory>
    requires room { recording.old.controller.spent + count ≤ MAX_EVENTS }
    requires few { count ≤ MAX_WORDS }
    ensures records { (project : Project) (events : List Events) → Records recording.old project events → OnOk result (Records recording.new project (events ++ outs output.now count)) }
    ensures words { (project : Project) (events : List Events) → Records recording.old project events → IfOk result (λ words. words ≡ words_answered project events (outs output.now count)) }
    ensures spent { OnOk result (recording.new.controller.spent ≡ recording.old.controller.spent + count) }
    ensures range { IfOk result (λ words. AreWords words) }
{
    recording.law_of_recordings();
    let mut words = Words::new();
    for word in 0..count {
        let reply = recording.controller().word_out(output, word);
        let conn = output.copied();
        let ask = Action::WordOut { conn, word };
        recording.apply(EventsLent::Act(OWN_LANE, &ask))?;
        push_word(&mut words, reply);
    }
    Ok(words)
}

/// Puts a word into an input connection.
fn put_word(recording: &mut Recording, input: &Name, word: u32, value: i32) -> Result<(), Memory>
    requires { recording.old.controller.spent < MAX_EVENTS }
    ensures { (project : Project) (events : List Events) → Records recording.old project events → OnOk result (Records recording.new project (events ++ Act OWN_LANE (WordIn input.now word value) ∷ [])) }
{
    let conn = input.copied();
    let put = Action::WordIn { conn, word, value };
    recording.apply(EventsLent::Act(OWN_LANE, &put))?;
    Ok(())
}

/// Puts these words into an input connection, in their order. No other event comes between them.
pub(crate) fn words_in(recording: &mut Recording, input: &Name, words: &[i32]) -> Result<(), Memory>
    requires { recording.old.controller.spent + length words.now ≤ MAX_EVENTS }
    ensures records { (project : Project) (events : List Events) → Records recording.old project events → OnOk result (Records recording.new project (events ++ words_from input.now 0 words.now)) }
    ensures spent { OnOk result (recording.new.controller.spent ≡ recording.old.controller.spent + length words.now) }
{
    recording.law_of_recordings();
    for (word, value) in words.iter().enumerate() {
        put_word(recording, input, word as u32, *value)?;
    }
    Ok(())
}
