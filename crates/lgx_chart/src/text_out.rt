// Texts that grow.
ghost use Rattle.std.specs.Prelude.{◌≡◌, ◌∷◌, ◌++◌, OnOk};
ghost use Rattle.std.specs.Fmt.{decimal};
ghost use Rattle.std.specs.List.{flat_map, join_with_byte};

use lgx_num::{Items, Memory};
use std::alloc::Global;

/// Adds bytes to a text, which may have a part of them after `Memory`.
pub fn push(text: &mut Vec<u8>, bytes: &[u8]) -> Result<(), Memory>
    ensures { OnOk result (text.new.items ≡ text.old.items ++ bytes.now) }
{
    text.extend_from_slice(bytes)?;
    Ok(())
}

/// Adds the decimal digits of a number.
fn push_number(text: &mut Vec<u8>, alloc: Global, number: u64) -> Result<(), Memory>
    ensures { OnOk result (text.new.items ≡ text.old.items ++ decimal number) }
{
    let digits = number.to_string(alloc)?;
    text.extend_from_slice(digits.as_bytes())?;
    Ok(())
}

/// Adds a text and the decimal digits of a number after it to a text, which may have a part of them after `Memory`.
pub fn push_count(
    text: &mut Vec<u8>,
    alloc: Global,
    before: &[u8],
    number: u64,
) -> Result<(), Memory>
    ensures { OnOk result (text.new.items ≡ text.old.items ++ before.now ++ decimal number) }
{
    push(text, before)?;
    push_number(text, alloc, number)
}

/// Adds words with a byte before each.
fn push_marked(text: &mut Vec<u8>, mark: u8, words: &[Items<u8>]) -> Result<(), Memory>
    ensures { OnOk result (text.new.items ≡ text.old.items ++ flat_map (λ w. mark ∷ w) words.now) }
{
    for word in words {
        text.push(mark)?;
        push(text, word.as_slice())?;
    }
    Ok(())
}

/// Adds words with a byte between each two to a text, which may have a part of them after `Memory`.
#[tactic(auto, using(crate::proofs::Texts::joined))]
pub fn push_joined(text: &mut Vec<u8>, mark: u8, words: &[Items<u8>]) -> Result<(), Memory>
    ensures { OnOk result (text.new.items ≡ text.old.items ++ join_with_byte mark words.now) }
{
    match words {
        [] => Ok(()),
        [first, others @ ..] => {
            push(text, first.as_slice())?;
            push_marked(text, mark, others)
        }
    }
}
