//! `logix`: tries a ladder program before it reaches a machine, by a journal or by a script of engineers and modules.
#![tactic(auto)]

mod process;

use crate::process::process_over;
use lgx_io::{HostFiles, HostSink};
use logix_run::Open;
use std::env;
use std::process::ExitCode;

fn main(rt: HostRuntime) -> ExitCode {
    let alloc = rt.alloc();
    let mut files = HostFiles::new(&rt, alloc);
    let mut output = HostSink::new(&rt, alloc);
    ExitCode::from(process_over(&rt, alloc, env::args(&rt), &mut files, &mut output, &Open))
}
