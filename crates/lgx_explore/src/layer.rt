// A layer of nodes, closed under due actions.
ghost use Rattle.std.specs.Prelude.{◌≡◌, ◌<◌, ◌≤◌, true, length, slice_index_or, IsPermutation, IfOk, IfErr};
ghost use Rattle.std.specs.List.{Contains};
ghost use Rattle.lgx_explore.specs.Shown.{IfShown, IsAction};
ghost use Rattle.lgx_explore.specs.Found.{IfOver};
ghost use Rattle.lgx_explore.specs.Nodes.{AddsTo, AddsOnly, HasSame, LaneActed, NodeActed, NodeStepped, ShownOf, ShownAmong, ShowsAt, StillKeep, StepKeeps, NextKeep};

use crate::halt::{Full, Halt, Over};
use crate::node::{Node, Stop};
use spec_explore::Question;
use spec_text::Script;
use std::alloc::Global;

/// Whether one of the nodes stands for all that this one stands for.
fn has_same<N: Node>(nodes: &[N], node: &N) -> bool
    ensures { result ≡ true → HasSame N.stands nodes.now node.now }
{
    for i in 0..nodes.len() {
        if nodes[i].is_same(node) {
            return true;
        }
    }
    false
}

/// Adds the node, unless one is there that is the same. `Limit` says that there are as many as there may be.
fn add<N: Node>(nodes: &mut Vec<N>, node: N, most: usize) -> Result<(), Full>
    requires { length nodes.old.items ≤ most }
    ensures within { length nodes.new.items ≤ most }
    ensures adds { AddsTo N.stands nodes.old.items nodes.new.items }
    ensures only { AddsOnly nodes.old.items node nodes.new.items }
    ensures has { IfOk result (λ _. HasSame N.stands nodes.new.items node) }
{
    if has_same(nodes.as_slice(), &node) {
        return Ok(());
    }
    if nodes.len() >= most {
        return Err(Full::Limit);
    }
    nodes.push(node)?;
    Ok(())
}

/// Makes the due action of the lane of the i-th node, if there is one.
#[tactic(auto, using(crate::proofs::Closing::full_shows))]
fn act_lane<N: Node>(
    alloc: Global,
    script: &Script,
    question: &Question,
    nodes: &mut Vec<N>,
    i: usize,
    lane: u32,
    most: usize,
) -> Result<(), Stop>
    requires here { i < length nodes.old.items }
    requires within { length nodes.old.items ≤ most }
    ensures within { length nodes.new.items ≤ most }
    ensures adds { AddsTo N.stands nodes.old.items nodes.new.items }
    ensures keep { StillKeep N.stands N.keeps script.now question.now nodes.old.items nodes.new.items }
    ensures acted { IfOk result (λ _. (node : N) → slice_index_or nodes.old.items i node ≡ node → LaneActed N.stands script.now question.now nodes.new.items node lane) }
    ensures shown { IfErr result (λ stop. IfShown stop (λ made line. IsAction made × ShowsAt N.stands script.now question.now nodes.new.items i made line)) }
{
    match nodes[i].acted(alloc, script, question, lane)? {
        Some(node) => {
            add(nodes, node, most)?;
            Ok(())
        }
        None => Ok(()),
    }
}

/// Makes the due actions of all lanes of the i-th node.
fn act_node<N: Node>(
    alloc: Global,
    script: &Script,
    question: &Question,
    nodes: &mut Vec<N>,
    i: usize,
    most: usize,
) -> Result<(), Stop>
    requires here { i < length nodes.old.items }
    requires within { length nodes.old.items ≤ most }
    ensures within { length nodes.new.items ≤ most }
    ensures adds { AddsTo N.stands nodes.old.items nodes.new.items }
    ensures keep { StillKeep N.stands N.keeps script.now question.now nodes.old.items nodes.new.items }
    ensures acted { IfOk result (λ _. (node : N) → slice_index_or nodes.old.items i node ≡ node → NodeActed N.stands script.now question.now nodes.new.items node) }
    ensures shown { IfErr result (λ stop. IfShown stop (λ made line. IsAction made × ShowsAt N.stands script.now question.now nodes.new.items i made line)) }
{
    for lane in 0..script.lanes.len() {
        act_lane(alloc, script, question, nodes, i, lane as u32, most)?;
    }
    Ok(())
}

/// Closes a layer of at most `most` nodes under due actions.
pub(crate) fn close<N: Node>(
    alloc: Global,
    script: &Script,
    question: &Question,
    nodes: &mut Vec<N>,
    most: usize,
) -> Result<(), Halt>
    requires { length nodes.old.items ≤ most }
    ensures within { length nodes.new.items ≤ most }
    ensures adds { AddsTo N.stands nodes.old.items nodes.new.items }
    ensures keep { StillKeep N.stands N.keeps script.now question.now nodes.old.items nodes.new.items }
    ensures acted { IfOk result (λ _. (node : N) → Contains nodes.new.items node → NodeActed N.stands script.now question.now nodes.new.items node) }
    ensures shown { IfErr result (λ halt. IfShown halt.stop (λ made line. IsAction made × ShowsAt N.stands script.now question.now nodes.new.items halt.at made line)) }
{
    for i in 0..most {
        if i >= nodes.len() {
            return Ok(());
        }
        match act_node(alloc, script, question, nodes, i, most) {
            Ok(()) => {}
            Err(stop) => return Err(Halt { at: i, stop }),
        }
    }
    Ok(())
}

/// Makes the step of a node, if it has one, and adds the node to the next layer.
fn step_node<N: Node>(
    script: &Script,
    question: &Question,
    mut node: N,
    next: &mut Vec<N>,
    most: usize,
) -> Result<(), Over<N>>
    requires { length next.old.items ≤ most }
    ensures within { length next.new.items ≤ most }
    ensures adds { AddsTo N.stands next.old.items next.new.items }
    ensures keep { StepKeeps N.stands N.keeps script.now question.now node next.old.items next.new.items }
    ensures stepped { IfOk result (λ _. NodeStepped N.stands script.now question.now next.new.items node) }
    ensures shown { IfErr result (λ over. IfOver over (ShownOf N.stands N.keeps script.now question.now node)) }
{
    match node.step(script, question) {
        Ok(true) => match add(next, node, most) {
            Ok(()) => Ok(()),
            Err(Full::Limit) => Err(Over::Limit),
            Err(Full::Memory) => Err(Over::Memory),
        },
        Ok(false) => Ok(()),
        Err(Stop::Shown(made, line)) => Err(Over::Shown(node, made, line)),
        Err(Stop::Limit) => Err(Over::Limit),
        Err(Stop::Memory) => Err(Over::Memory),
    }
}

/// The nodes that the steps of these lead to, the last first.
fn step_nodes<N: Node>(
    alloc: Global,
    script: &Script,
    question: &Question,
    nodes: Vec<N>,
    most: usize,
) -> Result<Vec<N>, Over<N>>
    ensures within { IfOk result (λ next. length next.items ≤ most) }
    ensures keep { IfOk result (λ next. NextKeep N.stands N.keeps script.now question.now nodes.items next.items) }
    ensures stepped { IfOk result (λ next. (node : N) → Contains nodes.items node → NodeStepped N.stands script.now question.now next.items node) }
    ensures shown { IfErr result (λ over. IfOver over (ShownAmong N.stands N.keeps script.now question.now nodes.items)) }
{
    let mut nodes = nodes;
    let mut next = Vec::new(alloc);
    while let Some(node) = nodes.pop() {
        match step_node(script, question, node, &mut next, most) {
            Ok(()) => {}
            Err(over) => return Err(over),
        }
    }
    Ok(next)
}

/// The same nodes, the last first.
fn last_first<N: Drop>(nodes: Vec<N>) -> Vec<N>
    ensures { IsPermutation nodes.items result.items }
{
    let mut nodes = nodes;
    nodes.as_mut_slice().reverse();
    nodes
}

/// The nodes that the steps of these lead to, in their order.
pub(crate) fn next_nodes<N: Node>(
    alloc: Global,
    script: &Script,
    question: &Question,
    nodes: Vec<N>,
    most: usize,
) -> Result<Vec<N>, Over<N>>
    ensures within { IfOk result (λ next. length next.items ≤ most) }
    ensures keep { IfOk result (λ next. NextKeep N.stands N.keeps script.now question.now nodes.items next.items) }
    ensures stepped { IfOk result (λ next. (node : N) → Contains nodes.items node → NodeStepped N.stands script.now question.now next.items node) }
    ensures shown { IfErr result (λ over. IfOver over (ShownAmong N.stands N.keeps script.now question.now nodes.items)) }
{
    step_nodes(alloc, script, question, last_first(nodes), most)
}
