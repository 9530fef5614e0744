// A thread for each pass.
ghost use Rattle.std.specs.Prelude.{◌≡◌, ℕ, ◌+◌, ◌<◌, ◌≤◌, true, false, length, slice_index_or};
ghost use mathlib.Core.List.{IsPrefix};
ghost use Rattle.spec_base.specs.declared.limits.TheConstants.{MAX_SCRIPT_STEPS};
ghost use Rattle.spec_lanes.specs.Turns.{IsAcceptAt};
ghost use Rattle.lgx_lanes.specs.Lanes.{most_turns};

use crate::shared::Shared;
use lgx_lanes::{Gate, Input, Pass};
use std::sync::Wait;
use std::sync::ledger::Ledger;
use std::thread::Threads;

/// Each pass on a thread of its own, until it comes to its end, is short of memory at an accept, or made as many turns as it
/// may. Where no thread can be started, lanes run one after another. The gate was asked for each action that a pass made, and
/// for its end.
pub fn run_lanes<
    I: Input + Send,
    A: Ledger + Send,
    S: Ledger + Send,
    E: Ledger + Send,
    G: Gate + Sync,
    R: Threads + Wait + Sync,
>(rt: &R, shared: &Shared<I, A, S, E>, passes: &mut [Pass<I, A, S, E>], gate: &G)
    requires { (i : ℕ) (d : _) → i < length passes.old → let p = slice_index_or passes.old i d in (p.actions ≤ MAX_SCRIPT_STEPS) × (p.steps ≤ MAX_SCRIPT_STEPS) × (p.ends ≡ 0) × (p.short ≡ false) }
    ensures len { length passes.new ≡ length passes.old }
    ensures same { (i : ℕ) (d : _) → i < length passes.old → let p = slice_index_or passes.old i d in let q = slice_index_or passes.new i d in (q.lane ≡ p.lane) × (q.length ≡ p.length) × (q.least_steps ≡ p.least_steps) }
    ensures sees { (i : ℕ) (d : _) → i < length passes.old → IsPrefix (slice_index_or passes.old i d).front.events (slice_index_or passes.new i d).front.events }
    ensures counts { (i : ℕ) (d : _) → i < length passes.old → let p = slice_index_or passes.old i d in let q = slice_index_or passes.new i d in (p.actions ≤ q.actions) × (p.steps ≤ q.steps) × (q.ends ≤ 1) }
    ensures ran { (i : ℕ) (d : _) → i < length passes.old → let p = slice_index_or passes.old i d in let q = slice_index_or passes.new i d in q.ends ≡ 0 → q.short ≡ false → q.actions + q.steps ≡ p.actions + p.steps + most_turns p.length p.least_steps }
    ensures few { (i : ℕ) (d : _) → i < length passes.old → let p = slice_index_or passes.old i d in let q = slice_index_or passes.new i d in q.actions + q.steps + q.ends ≤ p.actions + p.steps + most_turns p.length p.least_steps }
    ensures short { (i : ℕ) (d : _) → i < length passes.old → let q = slice_index_or passes.new i d in q.short ≡ true → (q.ends ≡ 0) × IsAcceptAt I.script q.lane q.actions }
    ensures asked { (i : ℕ) (d : _) → i < length passes.old → let p = slice_index_or passes.old i d in let q = slice_index_or passes.new i d in (n : ℕ) → p.actions ≤ n → n < q.actions + q.ends → G.asked gate.now p.lane n }
{
    lgx_lanes::run_lanes(rt, &shared.lanes, passes, gate);
}
