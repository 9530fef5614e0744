// The connections of a project.
ghost use Rattle.std.specs.Prelude.{◌≡◌, ◌+◌, ◌*◌, ◌<◌, ◌≤◌, Bool, true, false, length, take, IfOk, IfSome, slice_index_or};
ghost use Rattle.std.specs.List.{All, position_from};
ghost use Rattle.lgx_num.specs.Name.{same};
ghost use Rattle.spec_base.specs.declared.limits.TheConstants.{MAX_CONNECTIONS, MAX_CONNECTION_WORDS};
ghost use Rattle.spec_tables.specs.Connections.{slot, io_word, no_conn, trigger_at, words_of};
ghost use Rattle.lgx_conn.specs.Numbered.{IsSmall};

use lgx_num::{Items, Memory, Name};
use spec_tables::{ConnDef, ConnFault, Slot};
use std::alloc::Global;
use std::marker::Model;

/// The connections of a project in their order, seen as the list of their definitions.
///
/// A name is found by a walk over all names: a map would have to take memory for a key without case at each call.
pub struct Conns {
    pub(crate) defs: Items<ConnDef>,
    /// For each the number of its first word among the words of all.
    firsts: Vec<u32>,
    /// How many words all have.
    words: u32,
}

impl Drop for Conns {
    fn drop(self) {
        let Conns {
            defs: _,
            firsts: _,
            words: _,
        } = self;
    }
}

impl Model for Conns {
    ghost use Rattle.std.specs.Prelude.{List};
    ghost use Rattle.spec_tables.specs.declared.conn.ConnDef.{ConnDef};
    ghost use Rattle.lgx_conn.specs.Numbered.{IsNumbered};

    ghost Value = { List ConnDef };

    ghost view = { λ c. c.defs };

    ghost invariant = { λ c. IsNumbered c.defs c.firsts.items c.words };
}

impl Conns {
    /// The connections of these definitions: at most `MAX_CONNECTIONS`, each of at most `MAX_CONNECTION_WORDS` words
    /// that lie in the image.
    pub fn new(alloc: Global, defs: &[ConnDef]) -> Result<Conns, Memory>
        requires few { length defs.now ≤ MAX_CONNECTIONS }
        requires small { All IsSmall defs.now }
        ensures { IfOk result (λ conns. conns ≡ defs.now) }
    {
        let mut kept = Vec::with_capacity(alloc, defs.len())?;
        let mut firsts = Vec::with_capacity(alloc, defs.len())?;
        let mut next = 0;
        for def in defs {
            kept.push(copied(def))?;
            firsts.push(next)?;
            next += def.words;
        }
        Ok(Conns {
            defs: Items::of(kept),
            firsts,
            words: next,
        })
    }

    /// How many words the connections have in all, inputs and outputs.
    pub fn words(&self) -> u32
        ensures words { result ≡ words_of self.now }
        ensures few { result ≤ MAX_CONNECTIONS * MAX_CONNECTION_WORDS }
    {
        self.words
    }

    /// The slot of word `word` of an input connection.
    ///
    /// N1 is an unknown connection, N2 a word out of range and N3 an output, the first of these in this order.
    pub fn word_in(&self, conn: &Name, word: u32) -> Result<Slot, ConnFault>
        ensures slot { result ≡ slot self.now conn.now word false }
        ensures within { IfOk result (λ s. s.io < words_of self.now) }
    {
        self.slot(conn, word, false)
    }

    /// The slot of word `word` of an output connection, with the refusals of [`Conns::word_in`] but for N3, an input.
    pub fn word_out(&self, conn: &Name, word: u32) -> Result<Slot, ConnFault>
        ensures slot { result ≡ slot self.now conn.now word true }
        ensures within { IfOk result (λ s. s.io < words_of self.now) }
    {
        self.slot(conn, word, true)
    }

    /// The number of a word among the words of all connections, in either direction.
    pub fn io_word(&self, conn: &Name, word: u32) -> Option<u32>
        ensures number { result ≡ io_word self.now conn.now word }
        ensures within { IfSome result (λ n. n < words_of self.now) }
    {
        let defs = self.defs.as_slice();
        let n = find(defs, conn)?;
        if word < defs[n].words {
            Some(self.number(n, word))
        } else {
            None
        }
    }

    /// The number of a word of connection `n` among the words of all.
    fn number(&self, n: usize, word: u32) -> u32
        requires conn { n < length self.now }
        requires word { word < (slice_index_or self.now n no_conn).words }
        ensures number { result ≡ words_of (take n self.now) + word }
        ensures within { result < words_of self.now }
    {
        self.firsts[n] + word
    }

    /// The slot of a word, whose connection must be an output if `output` says so, and else an input.
    fn slot(&self, conn: &Name, word: u32, output: bool) -> Result<Slot, ConnFault>
        ensures slot { result ≡ slot self.now conn.now word output }
        ensures within { IfOk result (λ s. s.io < words_of self.now) }
    {
        let defs = self.defs.as_slice();
        match find(defs, conn) {
            None => Err(ConnFault::N1),
            Some(n) => {
                let def = &defs[n];
                if word >= def.words {
                    return Err(ConnFault::N2);
                }
                if def.output != output {
                    return Err(ConnFault::N3);
                }
                Ok(Slot {
                    byte: def.byte + 4 * word,
                    io: self.number(n, word),
                    trigger: trigger_at(def, word),
                })
            }
        }
    }
}

/// The number of a connection by its name.
fn find(defs: &[ConnDef], name: &Name) -> Option<usize>
    ensures place { result ≡ position_from (λ c. same c.name name.now) 0 defs.now }
    ensures within { IfSome result (λ n. n < length defs.now) }
{
    for (n, def) in defs.iter().enumerate() {
        if def.name.same(name) {
            return Some(n);
        }
    }
    None
}

/// The task that a word triggers: the last word of an input triggers the connection's task.
fn trigger_at(def: &ConnDef, word: u32) -> Option<u32>
    requires { word < def.now.words }
    ensures { result ≡ trigger_at def.now word }
{
    let words = def.words;
    if !def.output && word + 1 == words {
        def.trigger
    } else {
        None
    }
}

/// The same definition once more.
fn copied(def: &ConnDef) -> ConnDef
    ensures { result ≡ def.now }
{
    ConnDef {
        name: def.name.copied(),
        output: def.output,
        byte: def.byte,
        words: def.words,
        trigger: def.trigger,
    }
}
