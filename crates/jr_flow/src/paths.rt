//! Between which nodes there are paths.
ghost use Rattle.std.specs.Prelude.{IfOk, Contains};
ghost use Rattle.jr_flow.specs.Edges.{EdgeOf};
ghost use Rattle.jr_flow.specs.Paths.{Path, PathBetween};
ghost use Rattle.jr_flow.specs.Pairs.{Tells};

use crate::closure::close;
use crate::filling::{row_of, rows_of};
use crate::rows::width_of;
use crate::{Graph, Reach};
use std::alloc::{AllocError, Global};

/// Between which nodes there is a path of at least one edge.
pub fn reachable(alloc: Global, graph: &Graph) -> Result<Reach, AllocError>
    ensures { IfOk result (Tells (Path (EdgeOf graph.now.edges.items))) }
{
    reaching(alloc, graph, &[])
}

/// Between which nodes there is a path of at least one edge on which no stop stands strictly
/// between: a stop is reached, and not passed.
pub fn reaching(alloc: Global, graph: &Graph, stops: &[u32]) -> Result<Reach, AllocError>
    ensures { IfOk result (Tells
        (PathBetween (EdgeOf graph.now.edges.items) (Contains stops.now))) }
{
    let width = width_of(graph.size);
    let none = row_of(alloc, width, &[])?;
    let shut = row_of(alloc, width, stops)?;
    let steps = rows_of(alloc, graph, width, &shut)?;
    let mut words = rows_of(alloc, graph, width, &none)?;
    close(&mut words, &steps, width);
    Ok(Reach {
        size: graph.size,
        words,
    })
}
