// Checked rungs copied and compared.
ghost use Rattle.std.specs.Prelude.{◌≡◌, true, IfOk};

use crate::rung::{Legs, Node, Rung, Rungs};
use crate::same::{ins_again, same_ins};
use lgx_num::{Items, Memory};
use std::alloc::Global;

/// The rungs once more.
pub fn rungs_again(alloc: Global, rungs: &[Rung]) -> Result<Rungs, Memory>
    ensures { IfOk result (λ copy. copy ≡ rungs.now) }
{
    let mut list = Vec::with_capacity(alloc, rungs.len())?;
    for rung in rungs {
        list.push(rung_again(alloc, rung)?)?;
    }
    Ok(Items::of(list))
}

/// Whether the rungs are the same, one by one. Nothing else is found to be the same.
pub fn same_rungs(a: &[Rung], b: &[Rung]) -> bool
    ensures { result ≡ true → a.now ≡ b.now }
{
    if a.len() != b.len() {
        return false;
    }
    for i in 0..a.len() {
        if !same_rung(&a[i], &b[i]) {
            return false;
        }
    }
    true
}

/// A rung or a leg once more.
#[cycle(again)]
fn rung_again(alloc: Global, rung: &Rung) -> Result<Rung, Memory>
    ensures { IfOk result (λ copy. copy ≡ rung.now) }
{
    let mut nodes = Vec::with_capacity(alloc, rung.nodes.len())?;
    for node in &rung.nodes {
        nodes.push(node_again(alloc, node)?)?;
    }
    Ok(Rung { nodes })
}

/// An instruction or a fork once more.
#[cycle(again)]
fn node_again(alloc: Global, node: &Node) -> Result<Node, Memory>
    ensures { IfOk result (λ copy. copy ≡ node.now) }
{
    match node {
        Node::Ins(ins) => Ok(Node::Ins(ins_again(alloc, ins)?)),
        Node::Fork(legs) => Ok(Node::Fork(legs_again(alloc, legs)?)),
    }
}

/// The legs of a fork once more.
#[cycle(again)]
fn legs_again(alloc: Global, legs: &Legs) -> Result<Legs, Memory>
    ensures { IfOk result (λ copy. copy ≡ legs.now) }
{
    let mut list = Vec::with_capacity(alloc, legs.legs.len())?;
    for leg in &legs.legs {
        list.push(rung_again(alloc, leg)?)?;
    }
    Ok(Legs { legs: list })
}

/// Whether two rungs or legs are the same.
#[cycle(same)]
pub fn same_rung(a: &Rung, b: &Rung) -> bool
    ensures { result ≡ true → a.now ≡ b.now }
{
    if a.nodes.len() != b.nodes.len() {
        return false;
    }
    for (number, node) in a.nodes.iter().enumerate() {
        if !same_node(node, &b.nodes[number]) {
            return false;
        }
    }
    true
}

/// Whether two instructions or forks are the same.
#[cycle(same)]
fn same_node(a: &Node, b: &Node) -> bool
    ensures { result ≡ true → a.now ≡ b.now }
{
    match (a, b) {
        (Node::Ins(x), Node::Ins(y)) => same_ins(x, y),
        (Node::Fork(x), Node::Fork(y)) => same_legs(x, y),
        _ => false,
    }
}

/// Whether the legs of two forks are the same.
#[cycle(same)]
fn same_legs(a: &Legs, b: &Legs) -> bool
    ensures { result ≡ true → a.now ≡ b.now }
{
    if a.legs.len() != b.legs.len() {
        return false;
    }
    for (number, leg) in a.legs.iter().enumerate() {
        if !same_rung(leg, &b.legs[number]) {
            return false;
        }
    }
    true
}
