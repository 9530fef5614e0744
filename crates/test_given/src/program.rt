// The program whose calls are judged.
ghost use denote.Param.Send.{IsSync};

use crate::gates::Hold;
use lgx_answer::Status;
use lgx_io::{Files, Sink};
use std::alloc::Global;
use std::sync::Wait;
use std::thread::Threads;

/// A program that is called with words. Nothing that is proved of its calls is said here: rows are judged by what comes out.
pub trait Program {
    /// A call over these files and this sink, whose lanes and stations are held. Answers its status.
    fn call<F: Files, K: Sink, R: Threads + Wait + Sync>(
        &self,
        rt: &R,
        alloc: Global,
        words: &[String],
        files: &mut F,
        sink: &mut K,
        hold: &Hold,
    ) -> Status
        requires { IsSync R.row };

    /// The line that is written if the words are none of its own.
    fn usage(&self) -> &[u8];
}
