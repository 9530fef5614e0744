// The text of the journal.
ghost use Rattle.std.specs.Prelude.{◌≡◌, ◌++◌, OnOk, IfOk};
ghost use Rattle.lgx_gen.specs.Draws.{state_after};
ghost use Rattle.lgx_gen.specs.JournalText.{draws_in, edit, round, rounds};
ghost use Rattle.lgx_gen.specs.Generated.{generated};

use crate::draws::Draws;
use crate::pieces::push_numbered;
use crate::sizes::{ROUNDS, RUNGS, WORDS};
use lgx_num::Memory;
use std::alloc::Global;

/// Room for the longest text.
const ROOM: usize = 75000;

/// Adds a drawn edit.
fn push_edit(text: &mut Vec<u8>, draws: &mut Draws) -> Result<(), Memory>
    ensures text { OnOk result (text.new.items ≡ text.old.items ++ edit draws.old 0) }
    ensures draws { OnOk result (draws.new ≡ state_after 2 draws.old) }
{
    push_numbered(text, b"@1 accept P0 M r ", draws.below(RUNGS))?;
    push_numbered(text, b" MOV(", draws.below(100))?;
    text.extend_from_slice(b",n0);\n@1 test P0\n@1 assemble P0\n")?;
    Ok(())
}

/// Adds a round.
fn push_round(text: &mut Vec<u8>, draws: &mut Draws, number: u32) -> Result<(), Memory>
    ensures text { OnOk result (text.new.items ≡ text.old.items ++ round draws.old 0 number) }
    ensures draws { OnOk result (draws.new ≡ state_after (draws_in number) draws.old) }
{
    push_numbered(text, b"cpu ", 50 + draws.below(50))?;
    push_numbered(text, b"\n@0 in In ", draws.below(WORDS))?;
    push_numbered(text, b" ", draws.below(65536))?;
    text.push(b'\n')?;
    if number % 10 == 9 {
        push_edit(text, draws)?;
    }
    text.extend_from_slice(b"tick 1\n")?;
    Ok(())
}

/// The journal that a number makes: the change to Run and 2,000 rounds, each with some processor steps, a word that comes in
/// and a tick; in each tenth round an edit is accepted, tested and assembled. Out of memory is the one fault.
pub fn gen_journal(alloc: Global, n: u32) -> Result<Vec<u8>, Memory>
    ensures { IfOk result (λ text. text.items ≡ (generated n).journal) }
{
    let mut text = Vec::with_capacity(alloc, ROOM)?;
    let mut draws = Draws::of(n);
    text.extend_from_slice(b"mode run\n")?;
    for number in 0..ROUNDS {
        push_round(&mut text, &mut draws, number)?;
    }
    text.extend_from_slice(b"end\n")?;
    Ok(text)
}
