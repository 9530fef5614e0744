//! `logix_cover`: says how often each instruction was executed by the run of a journal on a project.
#![tactic(auto)]

use lgx_cover::CoverProgram;
use lgx_io::{HostFiles, HostSink};
use lgx_process::process_over;
use std::env;
use std::process::ExitCode;

fn main(rt: HostRuntime) -> ExitCode {
    let alloc = rt.alloc();
    let mut files = HostFiles::new(&rt, alloc);
    let mut output = HostSink::new(&rt, alloc);
    ExitCode::from(process_over::<CoverProgram, _, _>(
        alloc,
        env::args(&rt),
        &mut files,
        &mut output,
    ))
}
