// Packets and their words.
ghost use Rattle.std.specs.Prelude.{◌≡◌, ◌≤◌, ◌<◌, List, [], ◌∷◌, ◌++◌, length};
ghost use Rattle.lgx_link.specs.declared.packet.TheConstants.{MAX_WORDS};

use arrayvec::ArrayVec;
use std::marker::Model;

/// The words of a packet, at most as many as a connection may have.
pub const MAX_WORDS: usize = 128;

/// All words of a connection in their order, at most [`MAX_WORDS`]. It takes no memory.
pub struct Words {
    list: ArrayVec<i32, MAX_WORDS>,
}

impl Drop for Words {
    fn drop(self) {
        let Words { list: _ } = self;
    }
}

impl Model for Words {
    ghost use Rattle.std.specs.Prelude.{List, ℤ, ◌≤◌, length};
    ghost use Rattle.lgx_link.specs.declared.packet.TheConstants.{MAX_WORDS};

    ghost Value = { List ℤ };

    ghost view = { λ w. w.list.items };

    ghost invariant = { λ w. length w.list.items ≤ MAX_WORDS };
}

impl Words {
    /// No word.
    pub fn new() -> Words
        ensures { result ≡ [] }
    {
        Words {
            list: ArrayVec::new(),
        }
    }

    /// Adds a word after the others.
    pub fn push(&mut self, word: i32)
        requires { length self.old < MAX_WORDS }
        ensures { self.new ≡ self.old ++ word ∷ [] }
    {
        self.list.push(word);
    }

    /// The words, in their order.
    pub fn as_slice(&self) -> &[i32]
        ensures value { result.now ≡ self.now }
        ensures room { length result.now ≤ MAX_WORDS }
    {
        self.list.as_slice()
    }

    /// The same words again.
    pub fn copied(&self) -> Words
        ensures { result ≡ self.now }
    {
        let mut copy = Words::new();
        for word in self.as_slice() {
            copy.push(*word);
        }
        copy
    }
}

/// The words that a connection had at one moment, with the number of this sending, counted from 0.
#[derive(Drop)]
pub struct Packet {
    pub number: u32,
    pub words: Words,
}
