// Places of the image, the paths that lead to them, and the operands of checked instructions.
ghost use Rattle.std.specs.Prelude.{◌≡◌, ◌<◌, ◌≤◌, ◌==◌, [], ◌∷◌, ◌++◌, length, IfOk, OnErr, OnOk};
ghost use Rattle.spec_base.specs.declared.limits.TheConstants.{MAX_SUBSCRIPTS};

use crate::memory::Memory;
use crate::number::Kind;
use arrayvec::ArrayVec;
use spec_base::limits::MAX_SUBSCRIPTS;
use std::alloc::Global;
use std::default::MadeWith;
use std::marker::Model;

/// A place in the image.
///
/// `at` is the number of its first bit: bit i of byte k is number 8k + i. All but a bit begin on a byte.
#[derive(Clone, Copy, Default, PartialEq, Eq, Debug)]
pub struct Place {
    pub kind: Kind,
    pub at: u32,
}

/// A variable subscript.
///
/// `of` is the place that holds it, `stride` the number of bits from one element to the next, and `length` the number of
/// elements: a subscript that is negative or not below it is out of range.
#[derive(Clone, Copy, Default, PartialEq, Eq, Debug)]
pub struct Index {
    pub of: Place,
    pub stride: u32,
    pub length: u32,
}

/// The variable subscripts of a path, at most [`MAX_SUBSCRIPTS`]. Where there is none they take no memory.
pub struct Steps {
    list: Option<Box<ArrayVec<Index, MAX_SUBSCRIPTS>>>,
}

impl Drop for Steps {
    #[inline(always)]
    fn drop(self) {
        let Steps { list: _ } = self;
    }
}

impl Model for Steps {
    ghost use Rattle.std.specs.Prelude.{List, ◌≤◌, [], length};
    ghost use Rattle.std.specs.Option.{option_map_or};
    ghost use Rattle.spec_base.specs.declared.limits.TheConstants.{MAX_SUBSCRIPTS};
    ghost use Rattle.lgx_num.specs.declared.place.Index.{Index};

    ghost Value = { List Index };

    ghost view = { λ s. option_map_or (λ b. b.value.items) s.list [] };

    ghost invariant = { λ s. length (option_map_or (λ b. b.value.items) s.list []) ≤ MAX_SUBSCRIPTS };
}

impl Steps {
    /// No subscript.
    pub fn new() -> Self
        ensures { result ≡ [] }
    {
        Steps { list: None }
    }

    /// Adds a subscript after the others. Memory is taken for the first.
    pub fn push(&mut self, alloc: Global, index: Index) -> Result<(), Memory>
        requires { length self.old < MAX_SUBSCRIPTS }
        ensures added { OnOk result (self.new ≡ self.old ++ index ∷ []) }
        ensures unchanged { OnErr result (self.new ≡ self.old) }
    {
        if let Some(list) = &mut self.list {
            list.push(index);
            return Ok(());
        }
        let mut list = ArrayVec::new();
        list.push(index);
        self.list = Some(Box::new(alloc, list)?);
        Ok(())
    }

    /// The subscripts, in the order in which they were added.
    pub fn as_slice(&self) -> &[Index]
        ensures value { result.now ≡ self.now }
        ensures room { length result.now ≤ MAX_SUBSCRIPTS }
    {
        match &self.list {
            Some(list) => list.as_slice(),
            None => &[],
        }
    }

    /// The number of subscripts.
    pub fn len(&self) -> usize
        ensures value { result ≡ length self.now }
        ensures room { result ≤ MAX_SUBSCRIPTS }
    {
        self.as_slice().len()
    }

    /// Whether there is no subscript.
    pub fn is_empty(&self) -> bool
        ensures { result ≡ (length self.now == 0) }
    {
        self.as_slice().is_empty()
    }

    /// Whether there is no room for another subscript.
    pub fn is_full(&self) -> bool
        ensures { result ≡ (length self.now == MAX_SUBSCRIPTS) }
    {
        self.as_slice().len() == MAX_SUBSCRIPTS
    }

    /// The same subscripts again, in memory of their own.
    pub fn copied(&self, alloc: Global) -> Result<Steps, Memory>
        ensures { IfOk result (λ copy. copy ≡ self.now) }
    {
        let mut copy = Steps::new();
        for index in self.as_slice() {
            copy.push(alloc, *index)?;
        }
        Ok(copy)
    }
}

/// A place whose first bit is moved by subscripts.
///
/// `at` is its first bit if all of them are 0. The place is worked out when its instruction is executed.
#[derive(Drop)]
pub struct Path {
    pub kind: Kind,
    pub at: u32,
    pub steps: Steps,
}

impl Path {
    /// The same path again, in memory of its own.
    pub fn copied(&self, alloc: Global) -> Result<Path, Memory>
        ensures { IfOk result (λ copy. copy ≡ self.now) }
    {
        Ok(Path {
            kind: self.kind,
            at: self.at,
            steps: self.steps.copied(alloc)?,
        })
    }
}

/// What a copy or a fill goes over, from the element that `path` names on.
///
/// `size` is the size of an element in bytes, at least 1, and `stop` the byte at which its tag ends.
#[derive(Drop)]
pub struct Block {
    pub path: Path,
    pub size: u32,
    pub stop: u32,
}

impl Block {
    /// The same block again, in memory of its own.
    pub fn copied(&self, alloc: Global) -> Result<Block, Memory>
        ensures { IfOk result (λ copy. copy ≡ self.now) }
    {
        Ok(Block {
            path: self.path.copied(alloc)?,
            size: self.size,
            stop: self.stop,
        })
    }
}

/// A status flag that an operand may name.
#[derive(Clone, Copy, PartialEq, Eq, Debug)]
pub enum Flag {
    /// `S:FS`: this is the program's first scan after the change to Run.
    First,
    /// `S:V`: the last arithmetic result didn't fit its destination.
    Overflow,
    /// `S:Z`: it was zero.
    Zero,
    /// `S:N`: it was negative.
    Negative,
}

/// The arithmetic status flags of a task: `S:V`, `S:Z` and `S:N`.
#[derive(Clone, Copy, PartialEq, Eq, Debug)]
pub struct Flags {
    pub v: bool,
    pub z: bool,
    pub n: bool,
}

/// An operand of a checked instruction.
#[derive(Drop)]
pub enum Operand {
    /// An immediate number.
    Number(i32),
    /// A bit or an integer of the image.
    Cell(Path),
    /// A TIMER, of [`spec_base::limits::TIMER_BYTES`] bytes.
    Timer(Path),
    /// A COUNTER, of [`spec_base::limits::COUNTER_BYTES`] bytes.
    Counter(Path),
    /// What a copy or a fill reads or writes.
    Block(Block),
    /// A status flag.
    FlagOf(Flag),
    /// A routine of the same program, by its number.
    Routine(u32),
    /// A label of the same routine, by the number of the rung that it is in.
    Label(u64),
    /// A task, by its number.
    Task(u32),
    /// The place `?` of a value that is kept in a TIMER or COUNTER.
    Blank,
}

impl MadeWith<Global> for Operand {
    fn made_with(_: Global) -> Self {
        Operand::Blank
    }
}

impl Operand {
    /// The same operand again, in memory of its own.
    pub fn copied(&self, alloc: Global) -> Result<Operand, Memory>
        ensures { IfOk result (λ copy. copy ≡ self.now) }
    {
        Ok(match self {
            Operand::Number(number) => Operand::Number(*number),
            Operand::Cell(path) => Operand::Cell(path.copied(alloc)?),
            Operand::Timer(path) => Operand::Timer(path.copied(alloc)?),
            Operand::Counter(path) => Operand::Counter(path.copied(alloc)?),
            Operand::Block(block) => Operand::Block(block.copied(alloc)?),
            Operand::FlagOf(flag) => Operand::FlagOf(*flag),
            Operand::Routine(routine) => Operand::Routine(*routine),
            Operand::Label(rung) => Operand::Label(*rung),
            Operand::Task(task) => Operand::Task(*task),
            Operand::Blank => Operand::Blank,
        })
    }
}
