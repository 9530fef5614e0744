// The built-in types, and the members of a TIMER and of a COUNTER.
ghost use Rattle.std.specs.Prelude.{◌≡◌, ◌*◌, ◌≤◌, IfSome};
ghost use Rattle.spec_base.specs.declared.limits.TheConstants.{MAX_STRUCTURE_BYTES};
ghost use Rattle.spec_language.specs.Layout.{built_ins, looked_up, bit_at, word_at, timer_members, counter_members};

use lgx_num::same;
use spec_language::{Base, DataType, Member};

/// What the name stands for in a table of names; case doesn't matter.
macro_rules! looked_up {
    ($name:expr $(,)?) => {
        None
    };
    ($name:expr, $first:expr => $value:expr $(, $more:expr => $others:expr)* $(,)?) => {
        if same($first, $name) {
            Some($value)
        } else {
            looked_up!($name $(, $more => $others)*)
        }
    };
}

pub fn built_in(name: &[u8]) -> Option<Base>
    ensures { result ≡ looked_up name.now built_ins }
{
    looked_up!(
        name,
        b"BOOL" => Base::Bool,
        b"SINT" => Base::Sint,
        b"INT" => Base::Int,
        b"DINT" => Base::Dint,
        b"TIMER" => Base::Timer,
        b"COUNTER" => Base::Counter,
    )
}

fn bit_at(at: u32) -> Member
    ensures { result ≡ bit_at at }
{
    Member {
        of: DataType {
            base: Base::Bool,
            dim: 0,
        },
        at,
    }
}

fn word_at(byte: u32) -> Member
    requires { byte ≤ 16 }
    ensures { result ≡ word_at byte }
{
    Member {
        of: DataType {
            base: Base::Dint,
            dim: 0,
        },
        at: 8 * byte,
    }
}

pub fn timer_member(name: &[u8]) -> Option<Member>
    ensures value { result ≡ looked_up name.now timer_members }
    ensures room { IfSome result (λ m. m.at ≤ 8 * MAX_STRUCTURE_BYTES) }
{
    looked_up!(
        name,
        b"EN" => bit_at(31),
        b"TT" => bit_at(30),
        b"DN" => bit_at(29),
        b"PRE" => word_at(4),
        b"ACC" => word_at(8),
    )
}

pub fn counter_member(name: &[u8]) -> Option<Member>
    ensures value { result ≡ looked_up name.now counter_members }
    ensures room { IfSome result (λ m. m.at ≤ 8 * MAX_STRUCTURE_BYTES) }
{
    looked_up!(
        name,
        b"CU" => bit_at(31),
        b"CD" => bit_at(30),
        b"DN" => bit_at(29),
        b"OV" => bit_at(28),
        b"UN" => bit_at(27),
        b"PRE" => word_at(4),
        b"ACC" => word_at(8),
    )
}
