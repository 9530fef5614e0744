// Tags and aliases that a row declares.
ghost use Rattle.std.specs.Prelude.{◌≡◌, ◌≤◌, false, true, length, IsTrue};
ghost use Rattle.spec_language.specs.Resolution.{aliases};
ghost use Rattle.lgx_tags.specs.Scopes.{IsScopeOf};
ghost use Rattle.lgx_types.specs.Tables.{HasSize};

use crate::errors::Refusal;
use crate::read::{number_or_0, word};
use crate::types::{structures_of, table_of};
use lgx_num::Name;
use lgx_tags::{Scope, SealError, TagError, TagTable};
use lgx_types::TypeTable;
use spec_base::limits::MAX_ELEMENTS;
use spec_language::{Base, DataType};
use std::alloc::Global;

/// A table that isn't sealed, with its number of programs and a bound on that of its aliases.
pub struct Declared {
    table: Box<TagTable>,
    programs: u32,
    count: u32,
    ghost unsealed: { table.value.sealed ≡ false },
    ghost scopes: { table.value.declarations.programs ≡ programs },
    ghost few: { length (aliases table.value.declarations) ≤ count },
}

impl Drop for Declared {
    fn drop(self) {
        let Declared {
            table: _,
            programs: _,
            count: _,
        } = self;
    }
}

/// A table that is sealed.
pub struct Sealed {
    pub table: Box<TagTable>,
    ghost sealed: { table.value.sealed ≡ true },
}

impl Drop for Sealed {
    fn drop(self) {
        let Sealed { table: _ } = self;
    }
}

impl Declared {
    /// No tags, in `programs` programs, over the structures of a text.
    pub fn new(alloc: Global, types: &str, programs: u32) -> Result<Declared, Refusal> {
        let types = table_of(alloc, &structures_of(alloc, types)?)?;
        let table = Box::new(alloc, TagTable::new(alloc, types, programs)?)?;
        Ok(Declared {
            table,
            programs,
            count: 0,
        })
    }

    /// The length of the image, in bytes.
    pub fn bytes(&self) -> u32 {
        self.table.bytes()
    }

    /// The sealed table, or why it is refused.
    pub fn seal(self) -> Result<Sealed, SealError> {
        let Declared {
            mut table,
            programs: _,
            count: _,
        } = self;
        table.seal()?;
        Ok(Sealed { table })
    }
}

/// The sealed table of the tags and aliases of these texts, with `;` between them, of two programs over structures.
/// None may be refused.
pub fn sealed_table(alloc: Global, types: &str, texts: &[&str]) -> Result<Sealed, Refusal> {
    let mut declared = Declared::new(alloc, types, 2)?;
    declare_all(&mut declared, texts)?;
    Ok(declared.seal()?)
}

fn declare_all(declared: &mut Declared, texts: &[&str]) -> Result<(), Refusal> {
    for text in texts {
        for declaration in text.split(';') {
            declare_text(declared, declaration)??;
        }
    }
    Ok(())
}

/// Declares a tag, `NAME TYPE` or `NAME TYPE LENGTH`, or an alias, `NAME = TARGET`. A name `a@0` is one of the
/// program 0.
pub fn declare_text(declared: &mut Declared, text: &str) -> Result<Result<(), TagError>, Refusal> {
    let mut words = text.split_whitespace();
    let (name, scope) = scoped(word(&mut words)?)?;
    let what = word(&mut words)?;
    if what == "=" {
        return alias(declared, scope, name, word(&mut words)?);
    }
    let base = base(declared.table.types(), what)?;
    let dim = number_or_0(&mut words)?;
    declare(declared, scope, name, DataType { base, dim })
}

/// A name and its scope.
pub fn scoped(text: &str) -> Result<(&str, Scope), Refusal> {
    match text.split_once('@') {
        Some((name, program)) => {
            let program = program.parse::<u32>().ok().ok_or(Refusal::Form)?;
            Ok((name, Scope::Program(program)))
        }
        None => Ok((text, Scope::Controller)),
    }
}

fn base(types: &TypeTable, word: &str) -> Result<Base, Refusal> {
    let name = Name::read(word.as_bytes()).ok_or(Refusal::Form)?;
    types.find(&name).ok_or(Refusal::Form)
}

/// Whether a table of `programs` programs has the scope.
fn is_scope(scope: Scope, programs: u32) -> bool
    ensures { IsTrue result → IsScopeOf programs scope }
{
    match scope {
        Scope::Program(program) => program < programs,
        Scope::Controller => true,
    }
}

/// Whether the type has a size.
fn has_size(types: &TypeTable, of: DataType) -> bool
    ensures { IsTrue result → HasSize types.now of }
{
    let fits = match of.base {
        Base::User(i) => (i as usize) < types.structures().len(),
        Base::Bool => of.dim % 32 == 0,
        _ => true,
    };
    fits && of.dim <= MAX_ELEMENTS
}

fn declare(
    declared: &mut Declared,
    scope: Scope,
    name: &str,
    of: DataType,
) -> Result<Result<(), TagError>, Refusal> {
    if !is_scope(scope, declared.programs) || !has_size(declared.table.types(), of) {
        return Err(Refusal::Form);
    }
    Ok(declared.table.declare(scope, name.as_bytes(), of))
}

fn alias(
    declared: &mut Declared,
    scope: Scope,
    name: &str,
    target: &str,
) -> Result<Result<(), TagError>, Refusal> {
    if declared.count > 1000 || !is_scope(scope, declared.programs) {
        return Err(Refusal::Form);
    }
    let answer = declared
        .table
        .alias(scope, name.as_bytes(), target.as_bytes());
    declared.count += 1;
    Ok(answer)
}
