// Operands whose places are worked out, a copy in progress, and what a step of the engine did.
ghost use Rattle.std.specs.Prelude.{◌≡◌, ◌<◌, ◌≤◌, ◌++◌, [], ◌∷◌, ◌==◌, length};
ghost use Rattle.spec_base.specs.declared.limits.TheConstants.{MAX_BOUND_OPERANDS};
ghost use Rattle.spec_scan.specs.Arguments.{arg, place_of, byte_of, size_of, room_of};
ghost use Rattle.spec_scan.specs.Fits.{IsPlace};

use arrayvec::ArrayVec;
use lgx_num::{Flag, Place};
use spec_base::limits::MAX_BOUND_OPERANDS;
use std::marker::Model;

/// An operand with its place worked out.
///
/// The numbers of a timer, a counter and a block are bytes of the image: the first byte of a TIMER, of a COUNTER or of
/// an element, the bytes of an element, and the byte at which its tag ends.
#[derive(Clone, Copy, Default)]
pub enum Arg {
    /// An immediate number.
    Number(i32),
    /// A bit or an integer.
    Cell(Place),
    /// A TIMER.
    Timer(u32),
    /// A COUNTER.
    Counter(u32),
    /// What a copy or a fill goes over.
    Block { at: u32, size: u32, stop: u32 },
    /// A status flag.
    FlagOf(Flag),
    /// Every other operand.
    #[default]
    Other,
}

impl Arg {
    /// The place that the operand is.
    pub fn place(self) -> Place
        requires { IsPlace self }
        ensures { result ≡ place_of self }
    {
        match self {
            Arg::Cell(place) => place,
            _ => unreachable!(),
        }
    }

    /// The first byte of a timer, a counter or a block; 0 for any other operand.
    pub fn byte(self) -> u32
        ensures { result ≡ byte_of self }
    {
        match self {
            Arg::Timer(at) | Arg::Counter(at) | Arg::Block { at, .. } => at,
            _ => 0,
        }
    }

    /// The bytes of a block's element; 1 for any other operand.
    pub fn size(self) -> u32
        ensures { result ≡ size_of self }
    {
        match self {
            Arg::Block { size, .. } => size,
            _ => 1,
        }
    }

    /// The bytes from a block's first one up to the end of its tag; 0 for any other operand.
    pub fn room(self) -> u32
        ensures { result ≡ room_of self }
    {
        match self {
            Arg::Block { at, stop, .. } => stop.saturating_sub(at),
            _ => 0,
        }
    }
}

/// The operands of an instruction with their places worked out, at most [`MAX_BOUND_OPERANDS`], in order: JSR, SBR and RET,
/// which may have more, have theirs worked out one by one. It takes no memory.
#[derive(Drop)]
pub struct Bound {
    list: ArrayVec<Arg, MAX_BOUND_OPERANDS>,
}

impl Model for Bound {
    ghost use Rattle.std.specs.Prelude.{List, ◌≤◌, length};
    ghost use Rattle.spec_base.specs.declared.limits.TheConstants.{MAX_BOUND_OPERANDS};
    ghost use Rattle.spec_scan.specs.declared.bound.Arg.{Arg};

    ghost Value = { List Arg };

    ghost view = { λ b. b.list.items };

    ghost invariant = { λ b. length b.list.items ≤ MAX_BOUND_OPERANDS };
}

impl Bound {
    /// No operand.
    pub fn new() -> Self
        ensures { result ≡ [] }
    {
        Bound {
            list: ArrayVec::new(),
        }
    }

    /// Adds an operand behind the others. There must be room.
    pub fn push(&mut self, arg: Arg)
        requires { length self.old < MAX_BOUND_OPERANDS }
        ensures { self.new ≡ self.old ++ arg ∷ [] }
    {
        self.list.push(arg);
    }

    /// The operand of this number, counted from 0; `Other` where there is none.
    pub fn at(&self, i: usize) -> Arg
        ensures { result ≡ arg self.now i }
    {
        match self.list.as_slice().get(i) {
            Some(arg) => *arg,
            None => Arg::Other,
        }
    }

    /// The operands, in order.
    pub fn as_slice(&self) -> &[Arg]
        ensures value { result.now ≡ self.now }
        ensures room { length result.now ≤ MAX_BOUND_OPERANDS }
    {
        self.list.as_slice()
    }

    /// The number of operands.
    pub fn len(&self) -> usize
        ensures value { result ≡ length self.now }
        ensures room { result ≤ MAX_BOUND_OPERANDS }
    {
        self.list.len()
    }

    /// Whether there is no operand.
    pub fn is_empty(&self) -> bool
        ensures { result ≡ (length self.now == 0) }
    {
        self.list.is_empty()
    }
}

/// A copy in progress: its next element is copied from byte `source` to byte `target`, and `left` elements of `size` bytes
/// are to come. `sync` says that it is a CPS. A fill keeps the value that it read at its start, of which the low bits are
/// stored.
#[derive(Clone, Copy)]
pub struct Copying {
    pub sync: bool,
    pub fill: Option<i32>,
    pub source: u32,
    pub target: u32,
    pub size: u32,
    pub left: u32,
}

/// What a step of a program scan did. `Major` has the code of a major fault of type 4; `Minor` is the minor fault 4/4.
#[derive(Clone, Copy)]
pub enum Effect {
    Ran,
    Up,
    Down,
    Trigger(u32),
    CopyStart(bool),
    Copied { last: bool, sync: bool },
    Left { ended: bool },
    Minor,
    Major(u8),
}
