//! `logix_explore`: says whether any journal of a script shows what a question says is never to be.
#![tactic(auto)]

mod process;

use crate::process::process_over;
use cmd_explore::Lines;
use lgx_io::{HostFiles, HostSink};
use std::env;
use std::io::IsTerminal;
use std::process::ExitCode;

/// If standard error is a terminal, it shows how far the program is: at most one line a second, from two seconds on.
fn main(rt: HostRuntime) -> ExitCode {
    let alloc = rt.alloc();
    let progress = Lines::new(&rt, rt.stderr().is_terminal());
    let mut files = HostFiles::new(&rt, alloc);
    let mut output = HostSink::new(&rt, alloc);
    ExitCode::from(process_over(alloc, env::args(&rt), progress, &mut files, &mut output))
}
