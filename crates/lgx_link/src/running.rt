// Two controllers under way.
ghost use Rattle.std.specs.Prelude.{◌≡◌, ℕ, ◌+◌, ◌≤◌, ◌<◌, [], ◌++◌, flat_map, slice_get, IfOk, OnOk};
ghost use Rattle.spec_base.specs.declared.limits.TheConstants.{MAX_EVENTS};
ghost use Rattle.lgx_link.specs.declared.packet.TheConstants.{MAX_WORDS};
ghost use Rattle.spec_link.specs.Links.{Pair, Link, opened, is_held, send, deliver, link_step};
ghost use Rattle.spec_link.specs.LinkOutput.{pair_of, step_lines, end_line, written, lines_along};
ghost use Rattle.lgx_link.specs.Running.{IsLink, IsAnswered, Follows, events_of_a, events_of_b};

use crate::consumer::{Consumer, Taken};
use crate::events::{take_times, words_in, words_out};
use crate::header::connection_words;
use crate::lines::{push_answer, push_end, push_lines};
use crate::packet::Packet;
use crate::producer::Producer;
use lgx_edit::Plant;
use lgx_judge::end_of;
use lgx_num::{Memory, Name};
use lgx_record::Recording;
use spec_link::{LinkAnswer, LinkScript, LinkStep};
use std::alloc::Global;

/// Two controllers under way, and the packets that were sent between them.
pub(crate) struct Running {
    pub a: Recording,
    pub b: Recording,
    /// The produced connection, and how many words it has.
    pub output: Name,
    pub words: u32,
    /// The consumed connection.
    pub input: Name,
    pub producer: Producer,
    pub consumer: Consumer,
    pub packets: Vec<Packet>,
}

impl Drop for Running {
    fn drop(self) {
        let Running {
            a: _,
            b: _,
            output: _,
            words: _,
            input: _,
            producer: _,
            consumer: _,
            packets: _,
        } = self;
    }
}

impl Running {
    /// The controllers of two projects before the first line of a script.
    pub(crate) fn open(
        alloc: Global,
        a: Plant,
        b: Plant,
        script: &LinkScript,
    ) -> Result<Running, Memory>
        ensures { IfOk result (λ running. IsLink running (pair_of a b script.now) opened) }
    {
        let words = connection_words(&a, true, &script.output).unwrap_or(0);
        let a = Recording::of_project(alloc, a)?;
        let b = Recording::of_project(alloc, b)?;
        Ok(Running {
            a,
            b,
            output: script.output.copied(),
            words,
            input: script.input.copied(),
            producer: Producer::new(),
            consumer: Consumer::new(),
            packets: Vec::new(alloc),
        })
    }

    /// Sends the words that the produced connection has, unless a CPS is open.
    fn send(&mut self) -> Result<LinkAnswer, Memory>
        requires few { self.old.words ≤ MAX_WORDS }
        requires room { self.old.a.controller.spent + MAX_WORDS ≤ MAX_EVENTS }
        requires sends { self.old.producer < MAX_EVENTS }
        ensures link { (l : Pair) (s : Link) → IsLink self.old l s → IfOk result (λ answer. IsAnswered self.new answer l (send l s (is_held l.a s.a))) }
        ensures spent { OnOk result (self.new.a.controller.spent ≤ self.old.a.controller.spent + MAX_WORDS) }
        ensures sends { OnOk result (self.new.producer ≤ self.old.producer + 1) }
        ensures same { OnOk result (self.new.b ≡ self.old.b) }
    {
        if self.a.controller().copy_open() {
            return Ok(LinkAnswer::SendHeld);
        }
        let words = words_out(&mut self.a, &self.output, self.words)?;
        let packet = self.producer.send(&words);
        let number = packet.number;
        self.packets.push(packet)?;
        Ok(LinkAnswer::Sent(number))
    }

    /// Delivers a packet by its number, if it was sent and no CPS is open.
    fn deliver(&mut self, number: u32) -> Result<LinkAnswer, Memory>
        requires { self.old.b.controller.spent + MAX_WORDS ≤ MAX_EVENTS }
        ensures link { (l : Pair) (s : Link) → IsLink self.old l s → IfOk result (λ answer. IsAnswered self.new answer l (deliver l s number (slice_get s.sent number))) }
        ensures spent { OnOk result (self.new.b.controller.spent ≤ self.old.b.controller.spent + MAX_WORDS) }
        ensures same { OnOk result ((self.new.a ≡ self.old.a) × (self.new.producer ≡ self.old.producer)) }
    {
        let Some(packet) = self.packets.get(number as usize) else {
            return Ok(LinkAnswer::NotSent(number));
        };
        if self.b.controller().copy_open() {
            return Ok(LinkAnswer::DeliverHeld(number));
        }
        match self.consumer.take(packet) {
            Taken::Stale => Ok(LinkAnswer::Stale(number)),
            Taken::New => {
                words_in(&mut self.b, &self.input, packet.words.as_slice())?;
                Ok(LinkAnswer::New(number))
            }
        }
    }

    /// Does what a line says.
    fn step(&mut self, step: &LinkStep) -> Result<LinkAnswer, Memory>
        requires few { self.old.words ≤ MAX_WORDS }
        requires room_of_a { self.old.a.controller.spent + events_of_a step.now ≤ MAX_EVENTS }
        requires room_of_b { self.old.b.controller.spent + events_of_b step.now ≤ MAX_EVENTS }
        requires sends { self.old.producer + events_of_a step.now ≤ MAX_EVENTS }
        ensures link { (l : Pair) (s : Link) → IsLink self.old l s → IfOk result (λ answer. IsAnswered self.new answer l (link_step l s step.now)) }
        ensures of_a { OnOk result (self.new.a.controller.spent ≤ self.old.a.controller.spent + events_of_a step.now) }
        ensures of_b { OnOk result (self.new.b.controller.spent ≤ self.old.b.controller.spent + events_of_b step.now) }
        ensures sends { OnOk result (self.new.producer ≤ self.old.producer + events_of_a step.now) }
    {
        match step {
            LinkStep::OnA(event, count) => {
                take_times(&mut self.a, event, *count)?;
                Ok(LinkAnswer::Events)
            }
            LinkStep::OnB(event, count) => {
                take_times(&mut self.b, event, *count)?;
                Ok(LinkAnswer::Events)
            }
            LinkStep::Send => self.send(),
            LinkStep::Deliver(number) => self.deliver(*number),
        }
    }

    /// Does what a line says, and adds the lines of its events and its answer to the text.
    pub(crate) fn follow(&mut self, text: &mut Vec<u8>, step: &LinkStep) -> Result<(), Memory>
        requires few { self.old.words ≤ MAX_WORDS }
        requires room_of_a { self.old.a.controller.spent + events_of_a step.now ≤ MAX_EVENTS }
        requires room_of_b { self.old.b.controller.spent + events_of_b step.now ≤ MAX_EVENTS }
        requires sends { self.old.producer + events_of_a step.now ≤ MAX_EVENTS }
        ensures link { (l : Pair) (s : Link) → IsLink self.old l s → OnOk result (Follows self.new text.old.items text.new.items l s (link_step l s step.now)) }
        ensures of_a { OnOk result (self.new.a.controller.spent ≤ self.old.a.controller.spent + events_of_a step.now) }
        ensures of_b { OnOk result (self.new.b.controller.spent ≤ self.old.b.controller.spent + events_of_b step.now) }
        ensures sends { OnOk result (self.new.producer ≤ self.old.producer + events_of_a step.now) }
    {
        let (told_of_a, told_of_b) = (self.a.log().lines(), self.b.log().lines());
        let answer = self.step(step)?;
        push_lines(text, b"a ", &self.a, told_of_a)?;
        push_lines(text, b"b ", &self.b, told_of_b)?;
        push_answer(text, answer)
    }

    /// Adds the end lines to the text.
    pub(crate) fn push_ends(&self, text: &mut Vec<u8>) -> Result<(), Memory>
        ensures { (l : Pair) (s : Link) → IsLink self.now l s → OnOk result (text.new.items ≡ text.old.items ++ flat_map written (lines_along l s [])) }
    {
        let of_a = end_of(self.a.controller(), self.a.steps());
        let of_b = end_of(self.b.controller(), self.b.steps());
        push_end(text, b"a ", &self.a, of_a)?;
        push_end(text, b"b ", &self.b, of_b)
    }
}
