// The program whose calls the rows judge.
use lgx_io::{Files, Sink};
use logix_run::{Gate, Status, USAGE, logix};
use std::alloc::Global;
use std::sync::Wait;
use std::thread::Threads;
use test_given::{Hold, Program};

/// A gate that holds lanes and stations.
#[derive(Drop)]
struct Held<'a>(&'a Hold);

impl<'a> Gate for Held<'a> {
    fn before(&self, lane: u32, index: u32) {
        self.0.before(lane, index)
    }
}

/// The program `logix`.
pub(crate) struct Logix;

impl Program for Logix {
    fn call<F: Files, K: Sink, R: Threads + Wait + Sync>(
        &self,
        rt: &R,
        alloc: Global,
        words: &[String],
        files: &mut F,
        sink: &mut K,
        hold: &Hold,
    ) -> Status {
        logix(rt, alloc, words, files, sink, &Held(hold))
    }

    fn usage(&self) -> &[u8] {
        USAGE
    }
}
