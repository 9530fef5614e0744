// The command `link A B L`.
ghost use Rattle.lgx_answer.specs.Endings.{ending_of};
ghost use Rattle.lgx_answer.specs.Answered.{Answered, call_of};
ghost use Rattle.cmd_link.specs.LinkPlan.{link_plan};
ghost use Rattle.cmd_link.specs.LinkState.{link_file, link_next, link_left};

use crate::judged::{judge_controller, judge_link};
use crate::lines::{LinkLines, linked};
use lgx_answer::{FileCommand, Status, Step, Verdict, answer};
use lgx_io::{Files, Sink};
use lgx_judge::Judged;
use lgx_num::Memory;
use lgx_project::Project;
use std::alloc::Global;

/// `link A B L`: the file that is read next is the first project's, the second's, or the link script's.
#[derive(Drop)]
pub(crate) enum Link<'a> {
    /// Nothing was read yet. These are the names of the files.
    All {
        a: &'a str,
        b: &'a str,
        script: &'a str,
    },
    /// The first project is accepted.
    OnA {
        a: Project,
        b: &'a str,
        script: &'a str,
    },
    /// Both projects are accepted.
    OnBoth {
        a: Project,
        b: Project,
        script: &'a str,
    },
}

impl<'a> FileCommand for Link<'a> {
    type Text = LinkLines;

    ghost file = { link_file };

    ghost next = { link_next };

    ghost left = { link_left };

    fn name(&self) -> &str {
        match self {
            Link::All { a, .. } => a,
            Link::OnA { b, .. } => b,
            Link::OnBoth { script, .. } => script,
        }
    }

    fn judge(self, alloc: Global, bytes: Vec<u8>) -> Result<Step<Self, LinkLines>, Memory> {
        match self {
            Link::All { b, script, .. } => match judge_controller(alloc, b"a ", &bytes)? {
                Judged::Accepted(a) => Ok(Step::Read(Link::OnA { a, b, script })),
                Judged::Refused(line) => Ok(Step::Say(Verdict::Project, line)),
            },
            Link::OnA { a, script, .. } => match judge_controller(alloc, b"b ", &bytes)? {
                Judged::Accepted(b) => Ok(Step::Read(Link::OnBoth { a, b, script })),
                Judged::Refused(line) => Ok(Step::Say(Verdict::Project, line)),
            },
            Link::OnBoth { a, b, .. } => match judge_link(alloc, &bytes, &a, &b)? {
                Judged::Accepted(script) => {
                    let lines = linked(alloc, a, b, &script)?;
                    Ok(Step::Write(Verdict::Ok, lines))
                }
                Judged::Refused(line) => Ok(Step::Say(Verdict::Script, line)),
            },
        }
    }
}

/// `link A B L`: runs the controllers of two files' projects as a third file's link script says, and writes both reports, whose
/// lines have `a ` or `b ` before them, and the answers of the link. A file is read only if none before it is refused.
pub fn link_projects<F: Files, K: Sink>(
    alloc: Global,
    a: &str,
    b: &str,
    script: &str,
    files: &mut F,
    sink: &mut K,
) -> Status
    ensures { Answered (link_plan a.now b.now script.now)
        (call_of F.told F.failures files.old files.new K.held K.faults sink.old sink.new (ending_of result)) }
{
    answer(alloc, Link::All { a, b, script }, files, sink)
}
