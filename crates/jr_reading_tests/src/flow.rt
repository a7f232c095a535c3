//! Paths of small graphs. A row has the number of nodes, the edges, and behind `not by` the stops;
//! then what is asked: which nodes reach which, or what is the least of some nodes that one
//! reaches.
ghost use Rattle.std.specs.Prelude.{◌≡◌, ◌↔◌, ◌<◌, All, IsTrue};

use crate::rows::{cut_at, number};
use jr_flow::{Graph, reachable, reaching, used_after};
use std::alloc::Global;
use std::process::Abort;

/// What is expected is read off each graph's drawing: a path has at least one edge, and a stop is
/// reached and not passed.
pub(crate) const ROWS: &'static str = "
~one node, with an edge to itself and without
~reach 1 => none
~reach 1 0-0 => 0-0
~a line, a branch, a loop that is entered
~reach 3 0-1 1-2 => 0-1 0-2 1-2
~reach 4 0-1 0-2 1-3 2-3 => 0-1 0-2 0-3 1-3 2-3
~reach 3 0-1 1-2 2-1 => 0-1 0-2 1-1 1-2 2-1 2-2
~edges that lead downwards, and one twice
~reach 4 3-2 2-1 1-0 3-2 => 1-0 2-0 2-1 3-0 3-1 3-2
~a stop is reached and not passed; it may begin and end a path
~reach 3 0-1 1-2 not by 1 => 0-1 1-2
~reach 4 0-1 1-3 0-2 2-3 not by 1 => 0-1 0-2 0-3 1-3 2-3
~reach 2 0-1 1-0 not by 0 => 0-0 0-1 1-0
~reach 2 0-1 1-0 not by 0 1 => 0-1 1-0
~a stop that is no node
~reach 2 0-1 not by 7 => 0-1
~the least of some reads, from a node, which may be a stop or the node itself
~used 0 of 2 1 in 3 0-1 1-2 => 1
~used 0 of 2 in 3 0-1 1-2 not by 1 => none
~used 0 of 1 2 in 3 0-1 1-2 not by 1 => 1
~used 2 of 0 1 in 3 0-1 1-2 => none
~used 1 of 1 in 3 0-1 1-2 2-1 => 1
~used 1 of 1 in 3 0-1 1-2 2-1 not by 2 => none
~used 9 of 0 in 1 0-0 => none
";

fn numbers(rt: &impl Abort, alloc: Global, text: &str) -> Vec<u32> {
    let mut all = Vec::new(alloc);
    for word in text.split_whitespace() {
        all.push(number(rt, word)).expect(rt, "memory");
    }
    all
}

/// The edges, each a word.
fn edges(rt: &impl Abort, alloc: Global, text: &str) -> Vec<(u32, u32)> {
    let mut all = Vec::new(alloc);
    for word in text.split_whitespace() {
        let (from, to) = cut_at(word, "-");
        all.push((number(rt, from), number(rt, to)))
            .expect(rt, "memory");
    }
    all
}

/// Whether each edge begins at a node.
fn begin_at_nodes(size: u32, edges: &[(u32, u32)]) -> bool
    ensures { IsTrue result ↔ All (λ e. e.0 < size) edges.now }
{
    edges.iter().all(|edge| edge.0 < size)
}

/// Whether each edge ends at a node.
fn end_at_nodes(size: u32, edges: &[(u32, u32)]) -> bool
    ensures { IsTrue result ↔ All (λ e. e.1 < size) edges.now }
{
    edges.iter().all(|edge| edge.1 < size)
}

/// The graph of edges that lead from node to node.
pub(crate) fn graph_of(rt: &impl Abort, alloc: Global, size: u32, text: &str) -> Graph
    ensures { result.size ≡ size }
{
    let edges = edges(rt, alloc, text);
    assert!(rt; begin_at_nodes(size, edges.as_slice()));
    assert!(rt; end_at_nodes(size, edges.as_slice()));
    Graph { size, edges }
}

/// A graph and stops.
fn asked(rt: &impl Abort, alloc: Global, text: &str) -> (Graph, Vec<u32>) {
    let (graph, stops) = cut_at(text, " not by ");
    let (size, listed) = cut_at(graph, " ");
    let graph = graph_of(rt, alloc, number(rt, size), listed);
    (graph, numbers(rt, alloc, stops))
}

/// The pairs of nodes of which one reaches the other.
pub(crate) fn reach(rt: &impl Abort, alloc: Global, text: &str) -> String {
    let (graph, stops) = asked(rt, alloc, text);
    let reach = if stops.is_empty() {
        reachable(alloc, &graph).expect(rt, "memory")
    } else {
        reaching(alloc, &graph, &stops).expect(rt, "memory")
    };
    let mut told = String::new(alloc);
    for from in 0..graph.size {
        for to in 0..graph.size {
            if reach.comes(from, to) {
                let space = if told.is_empty() { "" } else { " " };
                write!(&mut told, "{space}{from}-{to}").expect(rt, "memory");
            }
        }
    }
    if told.is_empty() {
        told.push_str("none").expect(rt, "memory");
    }
    told
}

/// The least read that is reached.
pub(crate) fn used(rt: &impl Abort, alloc: Global, text: &str) -> String {
    let (from, text) = cut_at(text, " of ");
    let (reads, text) = cut_at(text, " in ");
    let (graph, stops) = asked(rt, alloc, text);
    let reads = numbers(rt, alloc, reads);
    match used_after(alloc, &graph, number(rt, from), &reads, &stops).expect(rt, "memory") {
        None => format!(in alloc; "none").expect(rt, "memory"),
        Some(least) => format!(in alloc; "{least}").expect(rt, "memory"),
    }
}
