// A thread for each pass.
ghost use Rattle.std.specs.Prelude.{◌≡◌, ℕ, ◌+◌, ◌<◌, ◌≤◌, true, false, length, slice_index_or};
ghost use mathlib.Core.List.{IsPrefix};
ghost use Rattle.spec_base.specs.declared.limits.TheConstants.{MAX_SCRIPT_STEPS};
ghost use Rattle.spec_lanes.specs.Turns.{IsAcceptAt};
ghost use Rattle.lgx_lanes.specs.Lanes.{most_turns};

use crate::input::Input;
use crate::pass::Pass;
use crate::recorded::Recorded;
use crate::shared::Shared;
use crate::turn::Turn;
use std::sync::Wait;
use std::sync::ledger::Ledger;
use std::thread;
use std::thread::Threads;

/// What a thread waits for: a lane before a turn, a station before a read, a replay before it publishes. Nothing is known of what it
/// does.
pub trait Gate {
    ghost use Rattle.std.specs.Prelude.{ℕ};

    /// That `before` was called with these two numbers. It holds by itself, so an `impl` needs no word of it; but code over any gate
    /// learns it from a call alone.
    ghost asked: { Self → ℕ → ℕ → Type 0 } = { λ _ _ _. Unit {0} };

    /// Called without the lock: by a lane with its number and that of its actions that were made; by the processor's pass with
    /// the script's number of lanes, and 0. Stations say which numbers they give.
    fn before(&self, lane: u32, index: u32)
        ensures { asked self.now lane index };
}

/// The turns of one lane: to its end, to want of memory, or as many as it may make.
#[tactic(auto, using(crate::proofs::Seeing::sees_self, crate::proofs::Seeing::sees_on))]
fn lane_loop<I: Input, R: Recorded<I>, A: Ledger, S: Ledger, E: Ledger, G: Gate, T: Wait>(
    rt: &T,
    shared: &Shared<I, R, A, S, E>,
    gate: &G,
    pass: &mut Pass<I, A, S, E>,
)
    requires fresh { (pass.old.actions ≤ MAX_SCRIPT_STEPS) × (pass.old.steps ≤ MAX_SCRIPT_STEPS) × (pass.old.ends ≡ 0) × (pass.old.short ≡ false) }
    ensures same { (pass.new.lane ≡ pass.old.lane) × (pass.new.length ≡ pass.old.length) × (pass.new.least_steps ≡ pass.old.least_steps) }
    ensures sees { IsPrefix pass.old.front.events pass.new.front.events }
    ensures counts { (pass.old.actions ≤ pass.new.actions) × (pass.old.steps ≤ pass.new.steps) × (pass.new.ends ≤ 1) }
    ensures ran { pass.new.ends ≡ 0 → pass.new.short ≡ false → pass.new.actions + pass.new.steps ≡ pass.old.actions + pass.old.steps + most_turns pass.old.length pass.old.least_steps }
    ensures few { pass.new.actions + pass.new.steps + pass.new.ends ≤ pass.old.actions + pass.old.steps + most_turns pass.old.length pass.old.least_steps }
    ensures short { pass.new.short ≡ true → (pass.new.ends ≡ 0) × IsAcceptAt I.script pass.new.lane pass.new.actions }
    ensures asked { (n : ℕ) → pass.old.actions ≤ n → n < pass.new.actions + pass.new.ends → G.asked gate.now pass.old.lane n }
{
    for _turn in 0..pass.most_turns() {
        gate.before(pass.lane, pass.actions);
        match shared.turn(rt, pass) {
            Turn::Did | Turn::Helped => {}
            Turn::Done | Turn::Memory => return,
        }
    }
}

/// Each pass on a thread of its own, until it comes to its end, is short of memory at an accept, or made as many turns as it
/// may. Where no thread can be started, lanes run one after another. The gate was asked for each action that a pass made, and
/// for its end.
pub fn run_lanes<
    I: Input + Send,
    R: Recorded<I> + Send,
    A: Ledger + Send,
    S: Ledger + Send,
    E: Ledger + Send,
    G: Gate + Sync,
    T: Threads + Wait + Sync,
>(rt: &T, shared: &Shared<I, R, A, S, E>, passes: &mut [Pass<I, A, S, E>], gate: &G)
    requires { (i : ℕ) (d : _) → i < length passes.old → let p = slice_index_or passes.old i d in (p.actions ≤ MAX_SCRIPT_STEPS) × (p.steps ≤ MAX_SCRIPT_STEPS) × (p.ends ≡ 0) × (p.short ≡ false) }
    ensures len { length passes.new ≡ length passes.old }
    ensures same { (i : ℕ) (d : _) → i < length passes.old → let p = slice_index_or passes.old i d in let q = slice_index_or passes.new i d in (q.lane ≡ p.lane) × (q.length ≡ p.length) × (q.least_steps ≡ p.least_steps) }
    ensures sees { (i : ℕ) (d : _) → i < length passes.old → IsPrefix (slice_index_or passes.old i d).front.events (slice_index_or passes.new i d).front.events }
    ensures counts { (i : ℕ) (d : _) → i < length passes.old → let p = slice_index_or passes.old i d in let q = slice_index_or passes.new i d in (p.actions ≤ q.actions) × (p.steps ≤ q.steps) × (q.ends ≤ 1) }
    ensures ran { (i : ℕ) (d : _) → i < length passes.old → let p = slice_index_or passes.old i d in let q = slice_index_or passes.new i d in q.ends ≡ 0 → q.short ≡ false → q.actions + q.steps ≡ p.actions + p.steps + most_turns p.length p.least_steps }
    ensures few { (i : ℕ) (d : _) → i < length passes.old → let p = slice_index_or passes.old i d in let q = slice_index_or passes.new i d in q.actions + q.steps + q.ends ≤ p.actions + p.steps + most_turns p.length p.least_steps }
    ensures short { (i : ℕ) (d : _) → i < length passes.old → let q = slice_index_or passes.new i d in q.short ≡ true → (q.ends ≡ 0) × IsAcceptAt I.script q.lane q.actions }
    ensures asked { (i : ℕ) (d : _) → i < length passes.old → let p = slice_index_or passes.old i d in let q = slice_index_or passes.new i d in (n : ℕ) → p.actions ≤ n → n < q.actions + q.ends → G.asked gate.now p.lane n }
{
    let threads = passes.len();
    if threads == 0 {
        return;
    }
    thread::for_each_mut(
        rt,
        passes,
        threads,
        &|_, pass| lane_loop(rt, shared, gate, pass),
    );
}
