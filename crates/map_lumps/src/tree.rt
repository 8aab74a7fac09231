// The tree of the nodes under the root. Rules: `level_rules/maps`, Trees.
ghost use Rattle.std.specs.Prelude.{◌≡◌, ◌<◌, ◌≤◌, ◌+◌, ◌-◌, true, false, length, slice_get, slice_set, slice_index_or, OnOk, IfNone, Option, Some, None, Ok, Err};
ghost use Rattle.map_lumps.specs.Rules.{MapRefusal, preorder, reached_after, root_of, tree_refusal, visit_refusal, visits_refusal};

use crate::entries::child_on;
use crate::fault::MapFault;
use level_rules::{Child, MAX_DEPTH, MAX_RECORDS, MapRefusal, Node};
use std::alloc::Global;

// Whether the nodes are a tree under the last of them, at most `MAX_DEPTH` deep. Each node is
// visited once at most before the answer, and the calls are no deeper than the tree may be.
#[tactic(auto, unfolding(level_rules::specs::maps::Trees::tree_refusal))]
pub(crate) fn check_tree(alloc: Global, nodes: &[Node]) -> Result<(), MapFault>
    requires { length nodes.now ≤ MAX_RECORDS }
    ensures ok { OnOk result (tree_refusal nodes.now ≡ None) }
    ensures refused { (r : MapRefusal) → result ≡ Err (MapFault.Refused r) →
        tree_refusal nodes.now ≡ Some r }
{
    let mut reached = vec![in alloc; false; nodes.len()]?;
    match visit(nodes, root_of(nodes), 1, &mut reached) {
        Some(refusal) => Err(MapFault::Refused(refusal)),
        None => Ok(()),
    }
}

// The root: the last node, or leaf 0 where there is none.
#[tactic(auto, unfolding(level_rules::specs::maps::Trees::root_of))]
pub(crate) fn root_of(nodes: &[Node]) -> Child
    requires { length nodes.now ≤ MAX_RECORDS }
    ensures { result ≡ root_of nodes.now }
{
    if nodes.is_empty() {
        Child::Leaf(0)
    } else {
        Child::Node((nodes.len() - 1) as u16)
    }
}

// Reaches the nodes from a child at `depth` on, child 0 before child 1, up to the first that is
// refused.
#[tactic(auto, using(level_rules::proofs::maps::VisitLemmas::visiting), unfolding(level_rules::specs::maps::Trees::visits_of))]
fn visit(nodes: &[Node], child: Child, depth: u32, reached: &mut [bool]) -> Option<MapRefusal>
    requires { depth ≤ MAX_DEPTH + 1 }
    ensures refusal { let visits = preorder nodes.now (MAX_DEPTH + 2 - depth) depth child in
        result ≡ visits_refusal reached.old visits }
    ensures reached { let visits = preorder nodes.now (MAX_DEPTH + 2 - depth) depth child in
        IfNone result (reached.new ≡ reached_after reached.old visits) }
{
    match child {
        Child::Leaf(_) => None,
        Child::Node(n) => {
            if let Some(refusal) = visit_refusal(reached, n, depth) {
                return Some(refusal);
            }
            mark(reached, n);
            let node = node_at(nodes, n)?;
            if let Some(refusal) = visit(nodes, child_on(node, 0), depth + 1, reached) {
                return Some(refusal);
            }
            visit(nodes, child_on(node, 1), depth + 1, reached)
        }
    }
}

// What is wrong with a node that is reached at this depth.
#[tactic(auto, unfolding(level_rules::specs::maps::Trees::visit_refusal))]
fn visit_refusal(reached: &[bool], node: u16, depth: u32) -> Option<MapRefusal>
    ensures value { result ≡ visit_refusal reached.now (record { node = node; depth = depth }) }
    ensures deep { result ≡ None → depth ≤ MAX_DEPTH }
{
    if is_reached(reached, node) {
        return Some(MapRefusal::NodeTwice { node: node as u64 });
    }
    if depth > MAX_DEPTH {
        return Some(MapRefusal::TooDeep { node: node as u64 });
    }
    None
}

// Whether a node was reached before.
fn is_reached(reached: &[bool], node: u16) -> bool
    ensures { result ≡ slice_index_or reached.now node false }
{
    match reached.get(node as usize) {
        Some(mark) => *mark,
        None => false,
    }
}

// Marks a node as reached.
fn mark(reached: &mut [bool], node: u16)
    ensures { reached.new ≡ slice_set reached.old node true }
{
    if (node as usize) < reached.len() {
        reached[node as usize] = true;
    }
}

// A node by its number.
fn node_at(nodes: &[Node], n: u16) -> Option<Node>
    ensures { result ≡ slice_get nodes.now n }
{
    nodes.get(n as usize).copied()
}
