// A question on all journals of a script.
use lgx_num::Items;

/// How two numbers are compared.
#[derive(Clone, Copy, PartialEq, Eq, Debug)]
pub enum Comparison {
    Equal,
    Differs,
    Less,
    AtMost,
    More,
    AtLeast,
}

/// What a watched place is compared with: a number, or the watched place with this number.
#[derive(Clone, Copy, PartialEq, Eq, Debug)]
pub enum Operand {
    Number(i32),
    Watched(u32),
}

/// A test of the watched place with this number.
#[derive(Clone, Copy, PartialEq, Eq, Debug)]
pub struct Test {
    pub watched: u32,
    pub comparison: Comparison,
    pub operand: Operand,
}

/// Tests that are never to hold together: after an event, or after a step that ends a scan of the program with this number.
#[derive(Drop)]
pub struct Never {
    pub tests: Items<Test>,
    pub program: Option<u32>,
}

/// How many ticks after its time an action is made at the latest, if that is bounded, and what is never to be.
#[derive(Drop)]
pub struct Question {
    pub within: Option<u32>,
    pub lines: Items<Never>,
}

/// Why a line is none of a question: Q1 it has none of the forms, Q2 no watched place has a name of it, Q3 no program has the
/// name, Q4 a limit is passed, `within` isn't first, or nothing is asked.
#[derive(Clone, Copy, PartialEq, Eq, Debug)]
pub enum QuestionCode {
    Q1,
    Q2,
    Q3,
    Q4,
}

/// The first line that is refused, counted from 1, and its first cause.
#[derive(Clone, Copy, PartialEq, Eq, Debug)]
pub struct QuestionFault {
    pub code: QuestionCode,
    pub line: u64,
}
