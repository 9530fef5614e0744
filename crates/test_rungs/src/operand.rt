// What operands stand for, in words.
ghost use Rattle.std.specs.Prelude.{◌≤◌, ◌<◌};

use lgx_num::{Block, Flag, Index, Kind, Memory, Operand, Path, Place, Steps};
use spec_base::limits::MAX_SUBSCRIPTS;
use std::alloc::Global;
use test_rows::{Told, kind_at, number_at, value_at, word_at};

/// Says an operand: of a path the kind and the first bit, and then for each subscript `by`, the bit of its number,
/// its stride and its length.
pub fn say_operand(said: &mut Told, operand: &Operand) {
    match operand {
        Operand::Number(number) => {
            said.word("number");
            said.number(i64::from(*number));
        }
        Operand::Cell(path) => say_path(said, "cell", path),
        Operand::Timer(path) => say_path(said, "timer", path),
        Operand::Counter(path) => say_path(said, "counter", path),
        Operand::Block(block) => say_block(said, block),
        Operand::FlagOf(flag) => say_flag(said, *flag),
        Operand::Routine(routine) => say_number(said, "routine", u64::from(*routine)),
        Operand::Label(rung) => say_number(said, "label", *rung),
        Operand::Task(task) => say_number(said, "task", u64::from(*task)),
        Operand::Blank => said.word("blank"),
    }
}

fn say_number(said: &mut Told, word: &str, number: u64) {
    said.word(word);
    said.shown(&number);
}

fn say_flag(said: &mut Told, flag: Flag) {
    said.word("flag");
    said.word(match flag {
        Flag::First => "S:FS",
        Flag::Overflow => "S:V",
        Flag::Zero => "S:Z",
        Flag::Negative => "S:N",
    });
}

fn say_block(said: &mut Told, block: &Block) {
    said.word("block");
    let size = block.size;
    let stop = block.stop;
    said.number(i64::from(size));
    said.number(i64::from(stop));
    say_steps(said, &block.path);
}

fn say_path(said: &mut Told, word: &str, path: &Path) {
    said.word(word);
    say_steps(said, path);
}

fn say_steps(said: &mut Told, path: &Path) {
    said.word(match path.kind {
        Kind::Bool => "BOOL",
        Kind::Sint => "SINT",
        Kind::Int => "INT",
        Kind::Dint => "DINT",
    });
    let at = path.at;
    said.number(i64::from(at));
    for index in path.steps.as_slice() {
        say_index(said, *index);
    }
}

fn say_index(said: &mut Told, index: Index) {
    said.word("by");
    said.number(i64::from(index.of.at));
    said.number(i64::from(index.stride));
    said.number(i64::from(index.length));
}

/// `copy | OPERAND | ..`: the operand again.
pub fn say_copy(alloc: Global, said: &mut Told, text: &str) -> Result<(), Memory> {
    match operand(alloc, said, text)? {
        Some(operand) => {
            let copy = operand.copied(alloc)?;
            say_operand(said, &copy);
        }
        None => said.malformed(),
    }
    Ok(())
}

fn operand(alloc: Global, said: &mut Told, text: &str) -> Result<Option<Operand>, Memory> {
    let operand = match word_at(text, 0) {
        "cell" => Some(Operand::Cell(path_at(alloc, said, text, 1)?)),
        "timer" => Some(Operand::Timer(path_at(alloc, said, text, 1)?)),
        "counter" => Some(Operand::Counter(path_at(alloc, said, text, 1)?)),
        "block" => Some(Operand::Block(block(alloc, said, text)?)),
        "blank" => Some(Operand::Blank),
        "flag" => flag(word_at(text, 1)).map(|flag| Operand::FlagOf(flag)),
        what => operand_of_number(said, what, text),
    };
    Ok(operand)
}

fn block(alloc: Global, said: &mut Told, text: &str) -> Result<Block, Memory> {
    let size = number_at(said, text, 1);
    let stop = number_at(said, text, 2);
    let path = path_at(alloc, said, text, 3)?;
    Ok(Block { size, stop, path })
}

fn operand_of_number(said: &mut Told, what: &str, text: &str) -> Option<Operand> {
    if what == "number" {
        return Some(Operand::Number(value_at(said, text, 1)));
    }
    let number = number_at(said, text, 1);
    match what {
        "routine" => Some(Operand::Routine(number)),
        "label" => Some(Operand::Label(u64::from(number))),
        "task" => Some(Operand::Task(number)),
        _ => None,
    }
}

fn flag(word: &str) -> Option<Flag> {
    match word {
        "S:FS" => Some(Flag::First),
        "S:V" => Some(Flag::Overflow),
        "S:Z" => Some(Flag::Zero),
        "S:N" => Some(Flag::Negative),
        _ => None,
    }
}

/// A kind and a bit, and then for each subscript `by`, the bit of its DINT, its stride and its length.
fn path_at(alloc: Global, said: &mut Told, text: &str, place: usize) -> Result<Path, Memory>
    requires { place ≤ 3 }
{
    let kind = kind_at(said, text, place);
    let at = number_at(said, text, place + 1);
    let mut steps = Steps::new();
    for number in 0..MAX_SUBSCRIPTS {
        let place = place + 2 + 4 * number;
        if word_at(text, place) == "by" && steps.len() < MAX_SUBSCRIPTS {
            steps.push(alloc, index_at(said, text, place + 1))?;
        } else if !word_at(text, place).is_empty() {
            said.malformed();
        }
    }
    Ok(Path { kind, at, steps })
}

fn index_at(said: &mut Told, text: &str, place: usize) -> Index
    requires { place < 100 }
{
    let of = Place {
        kind: Kind::Dint,
        at: number_at(said, text, place),
    };
    let stride = number_at(said, text, place + 1);
    let length = number_at(said, text, place + 2);
    Index { of, stride, length }
}
