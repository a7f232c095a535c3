//! What one node reaches.
ghost use Rattle.std.specs.Prelude.{ℕ, List, [], ◌∷◌, ◌++◌, IfOk, Contains};
ghost use Rattle.jr_flow.specs.Edges.{EdgeOf};
ghost use Rattle.jr_flow.specs.Paths.{PathBetween};
ghost use Rattle.jr_flow.specs.Least.{IsLeast};
ghost use Rattle.jr_flow.specs.Nodes.{IsReached, TellsNodes};
ghost use Rattle.jr_flow.specs.Searched.{AreRowsOf};

use crate::filling::{put_edges, row_of};
use crate::rows::width_of;
use crate::search::search;
use crate::{EdgeRows, Graph, Reached};
use std::alloc::{AllocError, Global};

/// The rows of a graph's edges, for searches from several of its nodes.
pub fn rows_of_edges(alloc: Global, graph: &Graph) -> Result<EdgeRows, AllocError>
    ensures { IfOk result (AreRowsOf graph.now.edges.items) }
{
    let width = width_of(graph.size);
    let none = row_of(alloc, width, &[])?;
    let mut words = vec![in alloc; 0u64; (64 * width + 1) * width]?;
    put_edges(&mut words, width, &none, &graph.edges);
    Ok(EdgeRows {
        size: graph.size,
        words,
    })
}

/// The nodes that a path reaches which begins at a node, has at least one edge, and has no stop
/// strictly between; of the graph whose edges stand in these rows.
pub fn reached_in(
    alloc: Global,
    rows: &EdgeRows,
    from: u32,
    stops: &[u32],
) -> Result<Reached, AllocError>
    ensures { (edges : List (ℕ × ℕ)) → AreRowsOf edges rows.now → IfOk result (TellsNodes
        (PathBetween (EdgeOf edges) (Contains stops.now) from)) }
{
    let width = width_of(rows.size);
    let shut = row_of(alloc, width, stops)?;
    let mut words = rows.words.to_vec(alloc)?;
    search(&mut words, width, from as usize, &shut);
    Ok(Reached {
        size: rows.size,
        words,
    })
}

/// The nodes that a path reaches which begins at a node, has at least one edge, and has no stop
/// strictly between.
pub fn reached_from(
    alloc: Global,
    graph: &Graph,
    from: u32,
    stops: &[u32],
) -> Result<Reached, AllocError>
    ensures { IfOk result (TellsNodes
        (PathBetween (EdgeOf graph.now.edges.items) (Contains stops.now) from)) }
{
    let rows = rows_of_edges(alloc, graph)?;
    reached_in(alloc, &rows, from, stops)
}

/// The least so far, with one read more.
fn lesser(reached: &Reached, least: Option<u32>, read: u32) -> Option<u32>
    ensures { (reads : List ℕ) → IsLeast (IsReached reached.now) reads least
        → IsLeast (IsReached reached.now) (reads ++ read ∷ []) result }
{
    if !reached.has(read) {
        return least;
    }
    match least {
        None => Some(read),
        Some(other) => {
            let is_lower = read < other;
            if is_lower { Some(read) } else { Some(other) }
        }
    }
}

fn least_read(reached: &Reached, reads: &[u32]) -> Option<u32>
    ensures { IsLeast (IsReached reached.now) reads.now result }
{
    let mut least = None;
    for read in reads {
        least = lesser(reached, least, *read);
    }
    least
}

/// The least of the reads that a path reaches which begins at a node, has at least one edge, and
/// has no stop strictly between.
///
/// A read may be a stop itself, and may be the node where the path begins. None exactly where no
/// read is reached.
pub fn used_after(
    alloc: Global,
    graph: &Graph,
    from: u32,
    reads: &[u32],
    stops: &[u32],
) -> Result<Option<u32>, AllocError>
    ensures { IfOk result (IsLeast
        (PathBetween (EdgeOf graph.now.edges.items) (Contains stops.now) from) reads.now) }
{
    let reached = reached_from(alloc, graph, from, stops)?;
    Ok(least_read(&reached, reads))
}
