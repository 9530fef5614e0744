//! `logix_live`: a controller that is talked to, line by line.
#![tactic(auto)]

mod process;

use crate::process::process_over;
use lgx_answer::Status;
use lgx_io::{HostFiles, HostSink};
use lgx_live::Piped;
use std::env;
use std::io::BufReader;
use std::process::ExitCode;

/// How many bytes are read ahead.
const READ_AHEAD_BYTES: usize = 65_536;

/// Lines come from standard input, and answers go to standard output. If memory has no room for the reader, the number is that of
/// `Memory`.
fn main(rt: HostRuntime) -> ExitCode {
    let alloc = rt.alloc();
    let Ok(reader) = BufReader::with_capacity(alloc, READ_AHEAD_BYTES, rt.reader()) else {
        return ExitCode::from(Status::Memory.number());
    };
    let mut files = HostFiles::new(&rt, alloc);
    let mut console = Piped::new(reader, HostSink::new(&rt, alloc));
    ExitCode::from(process_over(alloc, env::args(&rt), &mut files, &mut console))
}
