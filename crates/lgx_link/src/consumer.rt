// The consumer: which packets it takes.
ghost use Rattle.std.specs.Prelude.{◌≡◌};
ghost use Rattle.lgx_link.specs.Taking.{taken, last_after};

use crate::packet::Packet;
use std::marker::Model;

/// Whether a packet was taken, or is no newer than the last one taken.
#[derive(Clone, Copy, PartialEq, Eq)]
pub enum Taken {
    New,
    Stale,
}

/// Takes a packet only if it is newer than the last one taken. It is seen as the number of that one, if there is one.
#[derive(Drop)]
pub struct Consumer {
    last: Option<u32>,
}

impl Model for Consumer {
    ghost use Rattle.std.specs.Prelude.{ℕ, Option};

    ghost Value = { Option ℕ };

    ghost view = { λ c. c.last };
}

impl Consumer {
    /// A consumer that has taken nothing.
    pub fn new() -> Consumer
        ensures { result ≡ None }
    {
        Consumer { last: None }
    }

    /// New exactly if nothing was taken yet or the number is greater than that of the last one taken; then it is the last
    /// one taken.
    pub fn take(&mut self, packet: &Packet) -> Taken
        ensures answer { result ≡ taken self.old packet.now.number }
        ensures last { self.new ≡ last_after self.old packet.now.number }
    {
        if let Some(last) = self.last {
            if packet.number <= last {
                return Taken::Stale;
            }
        }
        self.last = Some(packet.number);
        Taken::New
    }
}
