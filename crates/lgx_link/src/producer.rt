// The producer: how it numbers packets.
ghost use Rattle.std.specs.Prelude.{◌≡◌, ◌+◌, ◌<◌};

use crate::packet::{Packet, Words};
use std::marker::Model;

/// Numbers packets as they are sent. It is seen as the number of sends so far.
#[derive(Drop)]
pub struct Producer {
    sent: u32,
}

impl Model for Producer {
    ghost use Rattle.std.specs.Prelude.{ℕ};

    ghost Value = { ℕ };

    ghost view = { λ p. p.sent };
}

impl Producer {
    /// A producer that has sent nothing.
    pub fn new() -> Producer
        ensures { result ≡ 0 }
    {
        Producer { sent: 0 }
    }

    /// The packet of these words: its number is that of the sends before.
    pub fn send(&mut self, words: &Words) -> Packet
        requires { self.old < 4294967295 }
        ensures packet { result ≡ record { number = self.old; words = words.now } }
        ensures count { self.new ≡ self.old + 1 }
    {
        let number = self.sent;
        self.sent += 1;
        Packet {
            number,
            words: words.copied(),
        }
    }
}
