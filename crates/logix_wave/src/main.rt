//! `logix_wave`: shows the report on standard input as a wave file, for GTKWave.
#![tactic(auto)]

use lgx_chart::WaveProgram;
use lgx_io::HostSink;
use lgx_process::process_over_input;
use std::env;
use std::process::ExitCode;

fn main(rt: HostRuntime) -> ExitCode {
    let alloc = rt.alloc();
    let mut output = HostSink::new(&rt, alloc);
    ExitCode::from(process_over_input::<WaveProgram, _, _>(
        alloc,
        env::args(&rt),
        rt.reader(),
        &mut output,
    ))
}
