// What words of a question say.
ghost use Rattle.std.specs.Prelude.{◌≡◌, ◌<◌, ◌^◌, length, option_map};
ghost use Rattle.spec_explore.specs.QuestionText.{signs, sign_in, begins_number, value_said, value_of_names, test_said, test_of_names, named};

use lgx_journal::signed_of;
use lgx_num::{Items, same};
use lgx_watch::Names;
use spec_explore::{Comparison, Operand, Test};

/// The comparison that a word is.
fn comparison_of(word: &[u8]) -> Option<Comparison>
    ensures { result ≡ sign_in signs word.now }
{
    if word == b"=".as_slice() {
        return Some(Comparison::Equal);
    }
    if word == b"<>".as_slice() {
        return Some(Comparison::Differs);
    }
    if word == b"<".as_slice() {
        return Some(Comparison::Less);
    }
    if word == b"<=".as_slice() {
        return Some(Comparison::AtMost);
    }
    if word == b">".as_slice() {
        return Some(Comparison::More);
    }
    if word == b">=".as_slice() {
        return Some(Comparison::AtLeast);
    }
    None
}

/// Whether a word is to be a number: it begins with a digit or with `-`.
fn begins_number(word: &[u8]) -> bool
    ensures { result ≡ begins_number word.now }
{
    match word {
        [] => false,
        [first, ..] => *first == b'-' || first.is_ascii_digit(),
    }
}

/// The number of the first name that is the same; case doesn't matter.
pub(crate) fn named(names: &[Items<u8>], name: &[u8]) -> Option<u32>
    requires { length names.now < 2 ^ 32 }
    ensures { result ≡ named names.now name.now }
{
    for (n, other) in names.iter().enumerate() {
        if same(other.as_slice(), name) {
            return Some(n as u32);
        }
    }
    None
}

/// The number or the watched place that a word is; no watched place if none has the name. Nothing of a word that is to be a
/// number and is none.
#[tactic(auto, using(crate::proofs::ReadTests::number_said, crate::proofs::ReadTests::no_number_said, crate::proofs::ReadTests::name_said))]
fn operand_of(names: &Names, word: &[u8]) -> Option<Option<Operand>>
    requires { length names.now.watches < 2 ^ 32 }
    ensures { result ≡ option_map (value_of_names names.now) (value_said word.now) }
{
    if begins_number(word) {
        let Some(number) = signed_of(word) else {
            return None;
        };
        return Some(Some(Operand::Number(number)));
    }
    match named(names.watches.as_slice(), word) {
        Some(watched) => Some(Some(Operand::Watched(watched))),
        None => Some(None),
    }
}

/// The test that three words are; none if a name of it is no watched place's. Nothing of words that are no test.
pub(crate) fn test_of(names: &Names, tag: &[u8], sign: &[u8], value: &[u8]) -> Option<Option<Test>>
    requires { length names.now.watches < 2 ^ 32 }
    ensures { result ≡ option_map (test_of_names names.now) (test_said tag.now sign.now value.now) }
{
    let Some(comparison) = comparison_of(sign) else {
        return None;
    };
    let Some(operand) = operand_of(names, value) else {
        return None;
    };
    let Some(watched) = named(names.watches.as_slice(), tag) else {
        return Some(None);
    };
    let Some(operand) = operand else {
        return Some(None);
    };
    Some(Some(Test {
        watched,
        comparison,
        operand,
    }))
}
