//! Rows of bits that are made of numbers and of edges.
ghost use Rattle.std.specs.Prelude.{◌≡◌, ℕ, ◌*◌, ◌/◌, ◌<◌, ◌≤◌, ◌^◌, List, [], ◌∷◌, ◌++◌};
ghost use Rattle.std.specs.Prelude.{IfOk, length};
ghost use Rattle.jr_flow.specs.Edges.{EdgeOf};
ghost use Rattle.jr_flow.specs.Rows.{width_of};
ghost use Rattle.jr_flow.specs.Holding.{HoldsNumbers, HoldsEdges};

use crate::Graph;
use crate::rows::{has, put};
use std::alloc::{AllocError, Global};

/// Sets the bit of a number, if the row has one for it.
fn put_number(row: &mut [u64], width: usize, number: usize)
    requires { length row.old ≡ width }
    ensures { (numbers : List ℕ) → HoldsNumbers width numbers row.old
        → HoldsNumbers width (numbers ++ number ∷ []) row.new }
{
    if number / 64 >= width {
        return;
    }
    put(row, width, 0, number);
}

fn put_numbers(row: &mut [u64], width: usize, numbers: &[u32])
    requires size { length row.old ≡ width }
    requires empty { HoldsNumbers width [] row.old }
    ensures { HoldsNumbers width numbers.now row.new }
{
    for number in numbers {
        put_number(row, width, *number as usize);
    }
}

/// A row that has the bits of these numbers, as far as there are bits for them.
pub(crate) fn row_of(alloc: Global, width: usize, numbers: &[u32]) -> Result<Vec<u64>, AllocError>
    ensures size { IfOk result (λ row. length row.items ≡ width) }
    ensures holds { IfOk result (λ row. HoldsNumbers width numbers.now row.items) }
{
    let mut row = vec![in alloc; 0u64; width]?;
    put_numbers(&mut row, width, numbers);
    Ok(row)
}

/// Sets the bit of an edge, unless it leads to a stop.
fn put_edge(rows: &mut [u64], width: usize, stops: &[u64], from: usize, to: usize)
    requires size { 64 * width * width ≤ length rows.old }
    requires stops { length stops.now ≡ width }
    requires from { from / 64 < width }
    requires to { to / 64 < width }
    ensures { (edges : List (ℕ × ℕ)) → HoldsEdges width stops.now edges rows.old
        → HoldsEdges width stops.now (edges ++ (from, to) ∷ []) rows.new }
{
    if has(stops, width, 0, to) {
        return;
    }
    put(rows, width, from, to);
}

/// Sets the bits of edges, but for those that lead to a stop.
pub(crate) fn put_edges(rows: &mut [u64], width: usize, stops: &[u64], edges: &[(u32, u32)])
    requires size { 64 * width * width ≤ length rows.old }
    requires stops { length stops.now ≡ width }
    requires inside { (a b : ℕ) → EdgeOf edges.now a b → (a / 64 < width) × (b / 64 < width) }
    requires empty { HoldsEdges width stops.now [] rows.old }
    ensures { HoldsEdges width stops.now edges.now rows.new }
{
    for edge in edges {
        put_edge(rows, width, stops, edge.0 as usize, edge.1 as usize);
    }
}

/// Of each node a row that has the bits of the nodes to which its edges lead, but for stops. There
/// are rows for all numbers that have bits.
pub(crate) fn rows_of(
    alloc: Global,
    graph: &Graph,
    width: usize,
    stops: &[u64],
) -> Result<Vec<u64>, AllocError>
    requires width { width ≡ width_of graph.now.size }
    requires few { width ≤ 2 ^ 26 }
    requires stops { length stops.now ≡ width }
    ensures size { IfOk result (λ rows. length rows.items ≡ 64 * width * width) }
    ensures holds { IfOk result (λ rows.
        HoldsEdges width stops.now graph.now.edges.items rows.items) }
{
    let mut rows = vec![in alloc; 0u64; 64 * width * width]?;
    put_edges(&mut rows, width, stops, &graph.edges);
    Ok(rows)
}
