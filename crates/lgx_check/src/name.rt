// Names in operands' texts.
ghost use Rattle.std.specs.Prelude.{◌≡◌, ◌&&◌, Some, None, if◌then◌else◌};
ghost use Rattle.lgx_num.specs.Name.{is_name};
ghost use Rattle.spec_language.specs.Checked.{is_label, label_name};

use lgx_num::Name;
use lgx_rung::{Op, Texts};

/// The name that a text is.
fn name_of(text: &[u8]) -> Option<Name>
    ensures { result ≡ (if is_name text.now then Some text.now else None) }
{
    Name::read(text)
}

/// Whether it is an LBL.
pub(crate) fn is_label(op: Op) -> bool
    ensures { result ≡ is_label op }
{
    matches!(op, Op::Lbl)
}

/// The name that an LBL gives: that of its one operand.
pub(crate) fn label_name(op: Op, texts: &Texts) -> Option<Name>
    ensures { result ≡ label_name op texts.now }
{
    if !is_label(op) {
        return None;
    }
    let mut operands = texts.operands();
    let text = operands.next()?;
    match operands.next() {
        None => name_of(text),
        Some(_) => None,
    }
}
