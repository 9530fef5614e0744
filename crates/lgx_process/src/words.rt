// The words of the command line.
ghost use Rattle.std.specs.Prelude.{◌≡◌, [], map, drop, replicate, string_bytes, IfOk};
ghost use Rattle.std.specs.Vec.Iter.{into_iter_items};
ghost use Rattle.lgx_process.specs.Words.{AreWords};

use lgx_num::Memory;
use std::alloc::Global;
use std::env::Args;
use std::io::{self, ErrorKind};

/// Four empty words, which no program takes.
fn no_words(alloc: Global) -> Result<Vec<String>, Memory>
    ensures { IfOk result (λ words. map string_bytes words.items ≡ replicate 4 []) }
{
    let words = vec![in alloc;
        String::new(alloc),
        String::new(alloc),
        String::new(alloc),
        String::new(alloc),
    ]?;
    Ok(words)
}

/// The words after the program's own name.
fn after_name(alloc: Global, arguments: Args) -> Result<Vec<String>, Memory>
    ensures { IfOk result (λ words. words.items ≡ drop 1 (into_iter_items arguments)) }
{
    let words = arguments.skip(1).collect(alloc)?;
    Ok(words)
}

/// The words of the command line, without the program's own name, of the arguments that `env::args` gave or refused. Arguments that
/// aren't text are wrong words.
pub fn words_of(alloc: Global, arguments: io::Result<Args>) -> Result<Vec<String>, Memory>
    ensures { IfOk result (λ words. AreWords arguments (map string_bytes words.items)) }
{
    match arguments {
        Ok(all) => after_name(alloc, all),
        Err(fault) if fault.kind() == ErrorKind::OutOfMemory => Err(Memory),
        Err(_) => no_words(alloc),
    }
}
