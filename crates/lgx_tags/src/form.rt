// Whether a text is an operand form.
ghost use Rattle.std.specs.Prelude.{◌≡◌, ◌+◌, ◌<◌, ◌^◌};
ghost use Rattle.std.specs.Option.{is_some};
ghost use Rattle.spec_language.specs.OperandForm.{form};
ghost use Rattle.lgx_tags.specs.Parts.{part_of};

use crate::part::{OperandPart, are_digits, first_part, split_word};
use crate::tag_name::is_tag_name;
use lgx_num::is_name;

/// An operand form as far as it is read: how many brackets are open, and whether the number of a bit was read last, after
/// which only a bracket may close.
#[derive(Clone, Copy)]
pub(crate) struct FormState {
    pub(crate) depth: usize,
    pub(crate) bit: bool,
}

impl FormState {
    ghost use Rattle.lgx_tags.specs.FormStates.{state_after, closed_from};

    /// The state after one more part, or none if no form goes on so.
    fn after(self, part: OperandPart) -> Option<FormState>
        requires { self.depth + 1 < 2 ^ 64 }
        ensures { result ≡ state_after self (part_of part.entry) }
    {
        match part {
            OperandPart::Closed => self.closed(),
            _ if self.bit => None,
            OperandPart::Dotted(word) if is_name(word) => Some(self),
            OperandPart::Dotted(word) if are_digits(word) => Some(FormState { bit: true, ..self }),
            OperandPart::Element(_) => Some(self),
            OperandPart::Opened(word) if is_tag_name(word) => Some(FormState {
                depth: self.depth + 1,
                ..self
            }),
            _ => None,
        }
    }

    /// The state after a closing bracket.
    #[tactic(auto, using(crate::proofs::FormStates::closed_some, crate::proofs::FormStates::closed_none))]
    fn closed(self) -> Option<FormState>
        ensures { result ≡ closed_from self.depth }
    {
        if self.depth == 0 {
            return None;
        }
        Some(FormState {
            depth: self.depth - 1,
            bit: false,
        })
    }
}

#[tactic(auto, using(crate::proofs::FormStates::on_part, crate::proofs::FormStates::at_end, crate::proofs::FormStates::not_end, crate::proofs::FormStates::form_named, crate::proofs::FormStates::form_unnamed))]
/// Whether a text is an operand form. It takes no memory.
pub(crate) fn is_form(text: &[u8]) -> bool
    ensures { result ≡ is_some (form text.now) }
{
    let (name, mut rest) = split_word(text);
    if !is_tag_name(name) {
        return false;
    }
    let mut state = FormState {
        depth: 0,
        bit: false,
    };
    while let Some((part, after)) = first_part(rest) {
        let Some(next) = state.after(part) else {
            return false;
        };
        state = next;
        rest = after;
    }
    rest.is_empty() && state.depth == 0
}
