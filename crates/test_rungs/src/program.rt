// Programs of text, checked.
ghost use Rattle.std.specs.Prelude.{◌≡◌};
ghost use Rattle.std.specs.List.{AllByRecursion as Each};
ghost use Rattle.spec_scan.specs.Executable.{AreExecutable};
ghost use Rattle.test_rungs.specs.declared.tags.TheConstants.{LEN};

use crate::errors::Refusal;
use crate::world::World;
use lgx_neutral::read_rung;
use lgx_prog::Rungs;
use lgx_rung::SourceRung;
use spec_base::limits::MAX_FILE_BYTES;
use std::alloc::Global;
use std::marker::Model;

/// The checked rungs of a program's routines, seen as a list. They can be executed over the image of the tags of
/// rows.
pub struct Routines {
    rungs: Vec<Rungs>,
}

impl Drop for Routines {
    fn drop(self) {
        let Routines { rungs: _ } = self;
    }
}

impl Model for Routines {
    ghost use Rattle.std.specs.Prelude.{List};
    ghost use Rattle.std.specs.Coded.{codes, coded_list};
    ghost use Rattle.std.specs.List.{AllByRecursion as Each};
    ghost use Rattle.lgx_rung.specs.Coding.{coded_tree};
    ghost use Rattle.spec_scan.specs.Executable.{AreExecutable};
    ghost use Rattle.spec_scan.specs.Position.{Rungs};
    ghost use Rattle.test_rungs.specs.declared.tags.TheConstants.{LEN};

    ghost Value = { List Rungs };

    ghost coded = { coded_list (coded_list (coded_tree (Prim.hlevel codes))) };

    ghost view = { λ r. r.rungs.items };

    ghost invariant = { λ r. Each (AreExecutable LEN) r.rungs.items };
}

impl Routines {
    /// The routines, in order.
    pub fn as_slice(&self) -> &[Rungs]
        ensures value { result.now ≡ self.now }
        ensures executable { Each (AreExecutable LEN) self.now }
    {
        &self.rungs
    }
}

/// The routines of a program, with `#` between them, over the tags of program 1: each is the neutral text of its
/// rungs, one after another. Their names are S0, S1 and so on.
pub fn read_program(alloc: Global, text: &str) -> Result<Routines, Refusal> {
    let sources = sources_of(alloc, text)?;
    let world = World::new(alloc, 1, "S")?;
    check_each(alloc, &sources, &world)
}

fn sources_of(alloc: Global, text: &str) -> Result<Vec<Vec<SourceRung>>, Refusal> {
    let mut sources = Vec::new(alloc);
    for routine in text.split('#') {
        sources.push(read_rungs(alloc, routine)?)?;
    }
    Ok(sources)
}

fn check_each(
    alloc: Global,
    sources: &[Vec<SourceRung>],
    world: &World,
) -> Result<Routines, Refusal> {
    let mut rungs = Vec::new(alloc);
    for source in sources {
        let checked = world.check(alloc, source)?;
        rungs.push(checked)?;
    }
    Ok(Routines { rungs })
}

/// The rungs of a text, one after another.
pub fn read_rungs(alloc: Global, text: &str) -> Result<Vec<SourceRung>, Refusal> {
    let mut rungs = Vec::new(alloc);
    for rung in text.split_inclusive(';') {
        if !rung.trim().is_empty() {
            rungs.push(read_one(alloc, rung.as_bytes())?)?;
        }
    }
    Ok(rungs)
}

/// A rung by its text.
fn read_one(alloc: Global, text: &[u8]) -> Result<SourceRung, Refusal> {
    if text.len() > MAX_FILE_BYTES {
        return Err(Refusal::Memory);
    }
    Ok(read_rung(alloc, text)?)
}
