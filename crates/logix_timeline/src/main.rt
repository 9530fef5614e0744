//! `logix_timeline`: shows the report on standard input as a drawing, for a document.
#![tactic(auto)]

use lgx_io::HostSink;
use lgx_picture::TimelineProgram;
use lgx_process::process_over_input;
use std::env;
use std::process::ExitCode;

fn main(rt: HostRuntime) -> ExitCode {
    let alloc = rt.alloc();
    let mut output = HostSink::new(&rt, alloc);
    ExitCode::from(process_over_input::<TimelineProgram, _, _>(
        alloc,
        env::args(&rt),
        rt.reader(),
        &mut output,
    ))
}
