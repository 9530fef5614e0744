// A program that draws a report, over any picture, any files and any sink.
ghost use Rattle.std.specs.Prelude.{◌≡◌, ◌++◌, ℕ, List, Option, option_map, IfOk, OnOk};
ghost use Rattle.lgx_answer.specs.Plan.{Says};
ghost use Rattle.lgx_answer.specs.Endings.{ending_of};
ghost use Rattle.lgx_answer.specs.Answered.{Answered, call_of};
ghost use Rattle.lgx_chart.specs.declared.entry.Chart.{Chart};
ghost use Rattle.lgx_chart.specs.ChartPlan.{code_text, fault_text, refused, on_report, drawn, input_name, chart_plan};

use crate::chart::read_chart;
use crate::entry::Chart as Report;
use crate::error::{ChartCode, ChartError, ChartFault};
use crate::picture::Picture;
use crate::text_out::{push, push_count};
use lgx_answer::{FileCommand, NoLines, Status, Step, Verdict, answer, say};
use lgx_io::{Files, Sink};
use lgx_num::{Items, Memory};
use std::alloc::Global;

fn code_text(code: ChartCode) -> &'static [u8]
    ensures { result.now ≡ code_text code }
{
    match code {
        ChartCode::V1 => b"V1",
        ChartCode::V2 => b"V2",
        ChartCode::V3 => b"V3",
        ChartCode::V4 => b"V4",
        ChartCode::V5 => b"V5",
    }
}

/// Adds `report V1 line 4`.
fn push_fault(text: &mut Vec<u8>, alloc: Global, fault: ChartFault) -> Result<(), Memory>
    ensures { OnOk result (text.new.items ≡ text.old.items ++ fault_text fault) }
{
    push(text, b"report ")?;
    push(text, code_text(fault.code))?;
    push_count(text, alloc, b" line ", fault.line)?;
    push(text, b"\n")
}

/// The line that says why a text is no report.
fn fault_text(alloc: Global, fault: ChartFault) -> Result<Vec<u8>, Memory>
    ensures { IfOk result (λ text. text.items ≡ fault_text fault) }
{
    let mut text = Vec::new(alloc);
    push_fault(&mut text, alloc, fault)?;
    Ok(text)
}

/// A verdict with its text.
#[derive(Drop)]
struct Said {
    verdict: Verdict,
    text: Items<u8>,
}

/// The picture of a report is said.
fn say_picture<P: Picture>(alloc: Global, picture: &P, chart: &Report) -> Result<Said, Memory>
    ensures { IfOk result (λ said. Says (drawn (P.text picture.now) chart.now) said.verdict said.text) }
{
    let text = picture.to_text(alloc, chart)?;
    Ok(Said {
        verdict: Verdict::Ok,
        text: Items::of(text),
    })
}

/// A text that is no report is refused.
fn say_refusal(alloc: Global, fault: ChartFault) -> Result<Said, Memory>
    ensures { IfOk result (λ said. Says (refused fault) said.verdict said.text) }
{
    let text = fault_text(alloc, fault)?;
    Ok(Said {
        verdict: Verdict::Project,
        text: Items::of(text),
    })
}

/// What is said of these bytes.
#[tactic(auto, using(crate::proofs::Programs::drawn_says, crate::proofs::Programs::refused_says))]
fn said_of<P: Picture>(alloc: Global, picture: &P, bytes: &[u8]) -> Result<Said, Memory>
    ensures { IfOk result (λ said. Says (on_report (drawn (P.text picture.now)) bytes.now) said.verdict said.text) }
{
    match read_chart(alloc, bytes) {
        Ok(chart) => say_picture(alloc, picture, &chart),
        Err(ChartError::Line(fault)) => say_refusal(alloc, fault),
        Err(ChartError::Memory) => Err(Memory),
    }
}

/// A picture of a report that is to be read.
#[derive(Drop)]
struct Drawn<P: Picture> {
    picture: P,
}

impl<P: Picture> FileCommand for Drawn<P> {
    type Text = NoLines;

    ghost file = { λ _. input_name };

    ghost next = { λ d. on_report (drawn (P.text d.picture)) };

    ghost left = { λ _. 0 };

    fn name(&self) -> &str {
        ""
    }

    fn judge(self, alloc: Global, bytes: Vec<u8>) -> Result<Step<Self, NoLines>, Memory> {
        let Said { verdict, text } = said_of(alloc, &self.picture, &bytes)?;
        Ok(Step::Say(verdict, text))
    }
}

/// Reads a report and writes its picture, by one put; or the usage line if none is asked for. A text that is no report is
/// refused as a project is by `logix`, with one line, `report CODE line N`. The report is the one file, and its name is empty.
/// Memory may have run out before.
#[tactic(auto, using(crate::proofs::Programs::out_of_memory))]
pub fn draw<P: Picture, F: Files, K: Sink>(
    alloc: Global,
    usage: &[u8],
    asked: Result<Option<P>, Memory>,
    files: &mut F,
    sink: &mut K,
) -> Status
    ensures { (wanted : Option (Chart → List ℕ)) → IfOk asked (λ picture. wanted ≡ option_map P.text picture) → Answered (chart_plan usage.now wanted)
        (call_of F.told F.failures files.old files.new K.held K.faults sink.old sink.new (ending_of result)) }
{
    match asked {
        Ok(Some(picture)) => answer(alloc, Drawn { picture }, files, sink),
        Ok(None) => say(Verdict::Usage, usage, files, sink),
        Err(Memory) => Status::Memory,
    }
}
