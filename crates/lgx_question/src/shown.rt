// Which line of a question an event shows.
ghost use Rattle.std.specs.Prelude.{◌≡◌, ◌<◌, ◌^◌, length, position, slice_get};
ghost use Rattle.std.specs.List.{list_all};
ghost use Rattle.spec_explore.specs.Questions.{compares};
ghost use Rattle.lgx_question.specs.Seen.{value_or_zero, operand_in, passes_in, is_asked_in, holds_in};

use spec_explore::{Comparison, Never, Operand, Question, Test};

/// Whether two numbers compare so.
fn compares(comparison: Comparison, a: i32, b: i32) -> bool
    ensures { result ≡ compares comparison a b }
{
    match comparison {
        Comparison::Equal => a == b,
        Comparison::Differs => a != b,
        Comparison::Less => a < b,
        Comparison::AtMost => a <= b,
        Comparison::More => a > b,
        Comparison::AtLeast => a >= b,
    }
}

/// The value of the watched place with this number, or 0 if there is none.
fn value_of(values: &[i32], watched: u32) -> i32
    ensures { result ≡ value_or_zero (slice_get values.now watched) }
{
    match values.get(watched as usize) {
        Some(value) => *value,
        None => 0,
    }
}

/// The number that a watched place is compared with.
fn operand_of(values: &[i32], operand: Operand) -> i32
    ensures { result ≡ operand_in values.now operand }
{
    match operand {
        Operand::Number(number) => number,
        Operand::Watched(watched) => value_of(values, watched),
    }
}

/// Whether a test holds of these values of the watched places.
fn passes(values: &[i32], test: &Test) -> bool
    ensures { result ≡ passes_in values.now test.now }
{
    compares(
        test.comparison,
        value_of(values, test.watched),
        operand_of(values, test.operand),
    )
}

/// Whether all tests hold.
fn all_pass(values: &[i32], tests: &[Test]) -> bool
    ensures { result ≡ list_all (passes_in values.now) tests.now }
{
    for test in tests {
        if !passes(values, test) {
            return false;
        }
    }
    true
}

/// Whether a line is asked after an event with which the scan of this program ended.
fn is_asked(program: Option<u32>, ended: Option<u32>) -> bool
    ensures { result ≡ is_asked_in ended program }
{
    match program {
        None => true,
        Some(program) => ended == Some(program),
    }
}

/// Whether a line holds of these values, after an event with which the scan of the program `ended` ended.
fn holds(values: &[i32], ended: Option<u32>, line: &Never) -> bool
    ensures { result ≡ holds_in values.now ended line.now }
{
    is_asked(line.program, ended) && all_pass(values, line.tests.as_slice())
}

/// The number of the first line that holds of the values of the watched places after an event, which ended the scan of the
/// program `ended`, if it ended one.
pub fn first_line(question: &Question, values: &[i32], ended: Option<u32>) -> Option<u32>
    requires { length question.now.lines < 2 ^ 32 }
    ensures { result ≡ position (holds_in values.now ended) question.now.lines }
{
    let lines = question.lines.as_slice();
    for (n, line) in lines.iter().enumerate() {
        if holds(values, ended, line) {
            return Some(n as u32);
        }
    }
    None
}
