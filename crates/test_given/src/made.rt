// Made scripts.
use std::alloc::{AllocError, Global};

/// Draws numbers.
#[derive(Drop)]
struct Dice {
    state: u64,
}

impl Dice {
    fn new(seed: u64) -> Dice {
        Dice {
            state: seed ^ 0x2545_f491_4f6c_dd1d,
        }
    }

    /// A number below `sides`, or 0.
    fn draw(&mut self, sides: u64) -> u64 {
        self.state ^= self.state << 13;
        self.state ^= self.state >> 7;
        self.state ^= self.state << 17;
        (self.state >> 11).checked_rem(sides).unwrap_or(0)
    }
}

/// One of the actions, which are a line each.
fn action_of<'a>(actions: &'a str, dice: &mut Dice) -> &'a str {
    let lines = actions.trim_end();
    let number = dice.draw(lines.split('\n').count() as u64);
    let number = usize::try_from(number).unwrap_or(0);
    lines.split('\n').nth(number).unwrap_or("")
}

/// A script whose lanes have actions that are drawn; less of it, where there is no memory.
pub(crate) fn script_of(alloc: Global, actions: &str, seed: u64) -> String {
    let mut script = String::new(alloc);
    let _ = push_script(actions, &mut Dice::new(seed), &mut script);
    script
}

fn push_script(actions: &str, dice: &mut Dice, script: &mut String) -> Result<(), AllocError> {
    let steps = dice.draw(40).saturating_add(1);
    let pace = dice.draw(8).saturating_add(1);
    let lanes = dice.draw(6);
    let last = steps.checked_div(pace).unwrap_or(0);
    write!(script, "run {steps} {pace} {lanes}\n")?;
    for lane in 0..lanes {
        push_lane(actions, dice, lane, last, script)?;
    }
    script.push_str("end\n")
}

/// Adds up to six actions of a lane, none after the last tick.
fn push_lane(
    actions: &str,
    dice: &mut Dice,
    lane: u64,
    last: u64,
    script: &mut String,
) -> Result<(), AllocError> {
    let mut at = 0u64;
    for _ in 0..dice.draw(7) {
        at = at.saturating_add(dice.draw(3)).min(last);
        write!(script, "@{lane} {at} {}\n", action_of(actions, dice))?;
    }
    Ok(())
}

/// The most lanes that a script may have.
const LANES: u32 = 31;

/// A script that begins with these words, with `actions` actions, dealt to 31 lanes one after another; less of it, where there is
/// no memory.
pub(crate) fn full_script_of(alloc: Global, front: &str, actions: u32) -> String {
    let mut script = String::new(alloc);
    let _ = push_inputs(front, actions, &mut script);
    script
}

fn push_inputs(front: &str, actions: u32, script: &mut String) -> Result<(), AllocError> {
    script.push_str(front)?;
    for number in 0..actions {
        let lane = number % LANES;
        let value = number / LANES;
        write!(script, "@{lane} 0 in In1 0 {value}\n")?;
    }
    script.push_str("end\n")
}
