// A project as its file describes it: names, texts and numbers, before any of them is looked up.
use lgx_num::{Items, Name};
use spec_language::TypeDecl;
use spec_tables::TaskDef;

/// What a file describes. All lists are in the order of the file.
#[derive(Drop)]
pub struct Described {
    pub types: Items<TypeDecl>,
    pub tags: Items<DescribedTag>,
    pub programs: Items<DescribedProgram>,
    pub tasks: Items<DescribedTask>,
    pub connections: Items<DescribedConnection>,
    pub initial: Items<DescribedValue>,
    pub watch: Items<Items<u8>>,
}

/// A tag or an alias, its name as it is written.
#[derive(Drop)]
pub struct DescribedTag {
    pub name: Items<u8>,
    pub meaning: DescribedMeaning,
}

/// A tag is of a type, with `dim` elements if it is an array and else 0; an alias has a target.
#[derive(Drop)]
pub enum DescribedMeaning {
    OfType { of: Name, dim: u32 },
    AliasOf(Items<u8>),
}

/// A program, with its own tags.
#[derive(Drop)]
pub struct DescribedProgram {
    pub name: Name,
    pub main: Name,
    pub tags: Items<DescribedTag>,
    pub routines: Items<DescribedRoutine>,
}

/// A routine: the texts of its rungs.
#[derive(Drop)]
pub struct DescribedRoutine {
    pub name: Name,
    pub rungs: Items<Items<u8>>,
}

/// A task, and the names of its programs.
#[derive(Drop)]
pub struct DescribedTask {
    pub name: Name,
    pub def: TaskDef,
    pub programs: Items<Name>,
}

/// A connection of a controller tag.
#[derive(Drop)]
pub struct DescribedConnection {
    pub name: Name,
    pub tag: Items<u8>,
    pub output: bool,
    pub trigger: Option<Name>,
}

/// A value at the start.
#[derive(Drop)]
pub struct DescribedValue {
    pub tag: Items<u8>,
    pub value: i32,
}

/// What the field `kind` of a task says.
#[derive(Clone, Copy, PartialEq, Eq, Debug)]
pub enum TaskWord {
    Continuous,
    Periodic,
    Event,
}
