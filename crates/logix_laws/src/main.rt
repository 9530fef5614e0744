//! `logix_laws`: says whether a trace keeps the laws that the audit leaves out.
#![tactic(auto)]

use cmd_laws::LawsProgram;
use lgx_io::{HostFiles, HostSink};
use lgx_process::process_over;
use std::env;
use std::process::ExitCode;

fn main(rt: HostRuntime) -> ExitCode {
    let alloc = rt.alloc();
    let mut files = HostFiles::new(&rt, alloc);
    let mut output = HostSink::new(&rt, alloc);
    ExitCode::from(process_over::<LawsProgram, _, _>(
        alloc,
        env::args(&rt),
        &mut files,
        &mut output,
    ))
}
