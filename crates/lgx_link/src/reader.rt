// Reads the other lines of a link script, one by one.
ghost use Rattle.std.specs.Prelude.{◌≡◌, ◌≤◌, false, Ok, Err, IfOk, IfErr, OnErr, IsTrue};
ghost use Rattle.spec_base.specs.Pieces.{has_byte};
ghost use Rattle.spec_text.specs.TextLines.{words, unsigned_of};
ghost use Rattle.spec_link.specs.LinkText.{no_counts, with_step, as_step, read_send, read_number, read_deliver, read_words, read_step};
ghost use Rattle.spec_link.specs.declared.script.LinkStep.TheVariants.{OnA, OnB};
ghost use Rattle.spec_text.specs.JournalText.{read_line};
ghost use Rattle.lgx_link.specs.Reading.{IfCode};

use crate::error::{StepError, error_of};
use lgx_journal::{JournalReader, next_word, split_word, unsigned_of};
use spec_base::limits::MAX_LINE_BYTES;
use spec_link::{LinkCode, LinkStep, MAX_DELIVERS, MAX_SENDS};
use std::alloc::Global;
use std::marker::Model;

/// What is in the lines so far: the events of each controller, the sendings and the deliveries.
#[derive(Drop)]
pub(crate) struct StepReader {
    a: JournalReader,
    b: JournalReader,
    sends: u32,
    delivers: u32,
}

impl Model for StepReader {
    ghost use Rattle.std.specs.Prelude.{◌≤◌};
    ghost use Rattle.spec_link.specs.declared.script.TheConstants.{MAX_DELIVERS, MAX_SENDS};
    ghost use Rattle.spec_link.specs.LinkText.{Counts};

    ghost Value = { Counts };

    ghost view = { λ r. record { a = r.a; b = r.b; sends = r.sends; delivers = r.delivers } };

    ghost invariant = { λ r. (r.sends ≤ MAX_SENDS) × (r.delivers ≤ MAX_DELIVERS) };
}

impl StepReader {
    /// A reader before the first of these lines.
    pub(crate) fn new() -> StepReader
        ensures { result ≡ no_counts }
    {
        StepReader {
            a: JournalReader::new(),
            b: JournalReader::new(),
            sends: 0,
            delivers: 0,
        }
    }

    /// A line of the first controller.
    fn step_of_a(&mut self, alloc: Global, line: &[u8]) -> Result<LinkStep, StepError>
        requires { has_byte 10 line.now ≡ false }
        ensures step { IfOk result (λ step. as_step (λ r. OnA r.event r.count) (read_line self.old.a line.now) ≡ Ok step) }
        ensures counted { IfOk result (λ step. self.new ≡ with_step self.old step) }
        ensures code { IfErr result (λ e. IfCode e (λ code. as_step (λ r. OnA r.event r.count) (read_line self.old.a line.now) ≡ Err code)) }
        ensures same { OnErr result (self.new ≡ self.old) }
    {
        match self.a.read_line(alloc, line) {
            Ok(run) => Ok(LinkStep::OnA(run.event, run.count)),
            Err(error) => Err(error_of(error)),
        }
    }

    /// A line of the second controller.
    fn step_of_b(&mut self, alloc: Global, line: &[u8]) -> Result<LinkStep, StepError>
        requires { has_byte 10 line.now ≡ false }
        ensures step { IfOk result (λ step. as_step (λ r. OnB r.event r.count) (read_line self.old.b line.now) ≡ Ok step) }
        ensures counted { IfOk result (λ step. self.new ≡ with_step self.old step) }
        ensures code { IfErr result (λ e. IfCode e (λ code. as_step (λ r. OnB r.event r.count) (read_line self.old.b line.now) ≡ Err code)) }
        ensures same { OnErr result (self.new ≡ self.old) }
    {
        match self.b.read_line(alloc, line) {
            Ok(run) => Ok(LinkStep::OnB(run.event, run.count)),
            Err(error) => Err(error_of(error)),
        }
    }

    /// A line `send`, by what comes after its first word.
    fn send(&mut self, after: &[u8]) -> Result<LinkStep, StepError>
        ensures step { IfOk result (λ step. read_send self.old (words after.now) ≡ Ok step) }
        ensures counted { IfOk result (λ step. self.new ≡ with_step self.old step) }
        ensures code { IfErr result (λ e. IfCode e (λ code. read_send self.old (words after.now) ≡ Err code)) }
        ensures same { OnErr result (self.new ≡ self.old) }
    {
        if next_word(after).is_some() {
            return Err(StepError::Code(LinkCode::J1));
        }
        if self.sends >= MAX_SENDS {
            return Err(StepError::Code(LinkCode::J4));
        }
        self.sends += 1;
        Ok(LinkStep::Send)
    }

    /// A delivery of a packet, if its number is one.
    fn number(&mut self, number: Option<u32>) -> Result<LinkStep, StepError>
        ensures step { IfOk result (λ step. read_number self.old number ≡ Ok step) }
        ensures counted { IfOk result (λ step. self.new ≡ with_step self.old step) }
        ensures code { IfErr result (λ e. IfCode e (λ code. read_number self.old number ≡ Err code)) }
        ensures same { OnErr result (self.new ≡ self.old) }
    {
        let Some(number) = number else {
            return Err(StepError::Code(LinkCode::J1));
        };
        if self.delivers >= MAX_DELIVERS {
            return Err(StepError::Code(LinkCode::J4));
        }
        self.delivers += 1;
        Ok(LinkStep::Deliver(number))
    }

    /// A line `deliver K`, by what comes after its first word.
    fn deliver(&mut self, after: &[u8]) -> Result<LinkStep, StepError>
        ensures step { IfOk result (λ step. read_deliver self.old (words after.now) ≡ Ok step) }
        ensures counted { IfOk result (λ step. self.new ≡ with_step self.old step) }
        ensures code { IfErr result (λ e. IfCode e (λ code. read_deliver self.old (words after.now) ≡ Err code)) }
        ensures same { OnErr result (self.new ≡ self.old) }
    {
        let Some((word, after)) = next_word(after) else {
            return Err(StepError::Code(LinkCode::J1));
        };
        if next_word(after).is_some() {
            return Err(StepError::Code(LinkCode::J1));
        }
        self.number(unsigned_of(word))
    }

    /// What a line with this first word says after it, or its first cause.
    fn read_words(
        &mut self,
        alloc: Global,
        verb: &[u8],
        after: &[u8],
    ) -> Result<LinkStep, StepError>
        requires { has_byte 10 after.now ≡ false }
        ensures step { IfOk result (λ step. read_words self.old verb.now after.now ≡ Ok step) }
        ensures counted { IfOk result (λ step. self.new ≡ with_step self.old step) }
        ensures code { IfErr result (λ e. IfCode e (λ code. read_words self.old verb.now after.now ≡ Err code)) }
    {
        if verb == b"a".as_slice() {
            return self.step_of_a(alloc, after);
        }
        if verb == b"b".as_slice() {
            return self.step_of_b(alloc, after);
        }
        if verb == b"send".as_slice() {
            return self.send(after);
        }
        if verb == b"deliver".as_slice() {
            return self.deliver(after);
        }
        Err(StepError::Code(LinkCode::J1))
    }

    /// What a line says after the lines so far, which then counts with them, or its first cause.
    #[tactic(auto, using(crate::proofs::ReadSteps::after_word_clean))]
    pub(crate) fn read_step(&mut self, alloc: Global, line: &[u8]) -> Result<LinkStep, StepError>
        requires { has_byte 10 line.now ≡ false }
        ensures step { IfOk result (λ step. read_step self.old line.now ≡ Ok step) }
        ensures counted { IfOk result (λ step. self.new ≡ with_step self.old step) }
        ensures code { IfErr result (λ e. IfCode e (λ code. read_step self.old line.now ≡ Err code)) }
    {
        if line.len() > MAX_LINE_BYTES {
            return Err(StepError::Code(LinkCode::J1));
        }
        let (verb, after) = split_word(line);
        self.read_words(alloc, verb, after)
    }
}
