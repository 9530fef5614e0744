// Lines of the report.
use crate::reply::Reply;
use spec_tables::Fault;

/// A line of the report. Tasks, programs and watched places are numbers in project order.
#[derive(Clone, Copy, PartialEq, Eq, Debug)]
pub enum Line {
    Begin {
        task: u32,
        program: u32,
        version: u32,
    },
    Fault(Fault),
    Reply {
        lane: u32,
        reply: Reply,
    },
    Set {
        watch: u32,
        value: i32,
    },
}
