// What holds lanes and stations.
use crate::crossed::Crossed;
use std::sync::atomic::{AtomicU64, Ordering};
use std::thread;

/// How often a lane looks whether another has come, at most.
const TURNS: u32 = 2_000_000;

/// Which lanes are held before an action, or whether a station and the replay are.
#[derive(Drop)]
pub enum Hold {
    Nobody,
    Pair(Pair),
    AtRandom(AtRandom),
    Crossed(Crossed),
}

impl Hold {
    /// Each of two lanes waits before its second action until the other was asked for its own.
    pub(crate) fn till_both(first: u32, second: u32) -> Hold {
        Hold::Pair(Pair::new(first, second))
    }

    /// Each lane is held for a while that is drawn.
    pub(crate) fn at_random(seed: u64) -> Hold {
        Hold::AtRandom(AtRandom::new(seed))
    }

    /// A station and the replay wait for each other by turns.
    pub(crate) fn crossed() -> Hold {
        Hold::Crossed(Crossed::new())
    }

    /// Holds a lane before its action number `index`.
    pub fn before(&self, lane: u32, index: u32) {
        match self {
            Hold::Nobody => {}
            Hold::Pair(pair) => pair.before(lane, index),
            Hold::AtRandom(random) => random.before(lane),
            Hold::Crossed(crossed) => crossed.before(lane, index),
        }
    }

    /// Whether those met who wait for each other.
    pub(crate) fn met(&self) -> bool {
        match self {
            Hold::Pair(pair) => pair.met(),
            Hold::Crossed(crossed) => crossed.met(),
            Hold::Nobody | Hold::AtRandom(_) => true,
        }
    }
}

/// Each of two lanes waits before its second action until the other was asked for its own.
#[derive(Drop)]
pub struct Pair {
    first: u32,
    second: u32,
    /// A bit for each lane that was asked for its second action.
    asked: AtomicU64,
    /// How often a lane waited in vain.
    vain: AtomicU64,
}

impl Pair {
    fn new(first: u32, second: u32) -> Pair {
        Pair {
            first,
            second,
            asked: AtomicU64::new(0),
            vain: AtomicU64::new(0),
        }
    }

    /// Whether both lanes were asked for their second action, and neither waited in vain.
    fn met(&self) -> bool {
        let asked = self.asked.load(Ordering::SeqCst);
        let both = bit(self.first) | bit(self.second);
        asked & both == both && self.vain.load(Ordering::SeqCst) == 0
    }

    /// The lane that this one waits for.
    fn other(&self, lane: u32) -> Option<u32> {
        if lane == self.first {
            Some(self.second)
        } else if lane == self.second {
            Some(self.first)
        } else {
            None
        }
    }

    fn before(&self, lane: u32, index: u32) {
        if index != 1 {
            return;
        }
        self.asked.fetch_or(bit(lane), Ordering::SeqCst);
        let Some(other) = self.other(lane) else {
            return;
        };
        for _ in 0..TURNS {
            if self.asked.load(Ordering::SeqCst) & bit(other) != 0 {
                return;
            }
            thread::yield_now();
        }
        self.vain.fetch_add(1, Ordering::SeqCst);
    }
}

/// The bit of a lane.
fn bit(lane: u32) -> u64 {
    1u64.checked_shl(lane).unwrap_or(0)
}

/// Holds each lane for a while that is drawn.
#[derive(Drop)]
pub struct AtRandom {
    drawn: AtomicU64,
}

impl AtRandom {
    fn new(seed: u64) -> AtRandom {
        AtRandom {
            drawn: AtomicU64::new(seed),
        }
    }

    fn before(&self, lane: u32) {
        let step = u64::from(lane).wrapping_add(0x9e37_79b9_7f4a_7c15);
        let drawn = self.drawn.fetch_add(step, Ordering::SeqCst);
        let mixed = (drawn ^ (drawn >> 29)).wrapping_mul(0xbf58_476d_1ce4_e5b9);
        for _ in 0..mixed >> 60 {
            thread::yield_now();
        }
    }
}
