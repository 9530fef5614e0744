// What holds a station and the replay by turns.
use std::sync::atomic::{AtomicU64, Ordering};
use std::thread;

/// How often a thread looks whether the other has come, at most.
const TURNS: u32 = 20_000_000;

/// How often a station is to read while the journal is replayed.
const READS: u64 = 1000;

/// The only station waits before its read 0 until the replay comes to its publish 1, which waits until the station comes to its
/// read 1.
#[derive(Drop)]
pub struct Crossed {
    published: AtomicU64,
    read: AtomicU64,
    /// How often one waited in vain.
    vain: AtomicU64,
    /// How often the station came to a read.
    reads: AtomicU64,
}

impl Crossed {
    /// A meeting to which nobody has come.
    pub(crate) fn new() -> Crossed {
        Crossed {
            published: AtomicU64::new(0),
            read: AtomicU64::new(0),
            vain: AtomicU64::new(0),
            reads: AtomicU64::new(0),
        }
    }

    /// Whether nobody waited in vain, and the station came to all its reads.
    pub(crate) fn met(&self) -> bool {
        self.vain.load(Ordering::SeqCst) == 0 && self.reads.load(Ordering::SeqCst) == READS
    }

    fn await_word(&self, word: &AtomicU64) {
        for _ in 0..TURNS {
            if word.load(Ordering::SeqCst) != 0 {
                return;
            }
            thread::yield_now();
        }
        self.vain.fetch_add(1, Ordering::SeqCst);
    }

    pub(crate) fn before(&self, lane: u32, index: u32) {
        if lane == 0 {
            self.reads.fetch_add(1, Ordering::SeqCst);
        }
        match (lane, index) {
            (0, 0) => self.await_word(&self.published),
            (0, 1) => self.read.store(1, Ordering::SeqCst),
            (1, 1) => {
                self.published.store(1, Ordering::SeqCst);
                self.await_word(&self.read);
            }
            _ => {}
        }
    }
}
