//! One node's row is closed under the edges of a graph. It stands behind the other rows, which stay
//! as they are.
ghost use Rattle.std.specs.Prelude.{◌≡◌, ℕ, ◌+◌, ◌*◌, ◌/◌, ◌<◌, ◌≤◌, ◌^◌, List, length};
ghost use Rattle.jr_flow.specs.Rows.{Moves};
ghost use Rattle.jr_flow.specs.Holding.{HoldsEdges};
ghost use Rattle.jr_flow.specs.Spreading.{Starts, Spreads, Searches};
ghost use Rattle.jr_flow.specs.Searched.{IsSearched};

use crate::rows::{has, merge};

/// Adds the row of a node to the last row, if there is one.
fn start(rows: &mut [u64], width: usize, from: usize)
    requires { length rows.old ≡ (64 * width + 1) * width }
    ensures { Starts width (64 * width) from rows.old rows.new }
{
    if from / 64 >= width {
        return;
    }
    merge(rows, width, from, 64 * width);
}

/// Adds the row of a node to the last row, if that has the node and it is no stop.
fn spread_step(rows: &mut [u64], stops: &[u64], width: usize, node: usize) -> bool
    requires rows { length rows.old ≡ (64 * width + 1) * width }
    requires stops { length stops.now ≡ width }
    requires node { node / 64 < width }
    ensures spreads { Spreads width (64 * width) stops.now (λ b. b ≡ node) rows.old rows.new }
    ensures moves { Moves rows.old rows.new result }
{
    if has(stops, width, 0, node) {
        return false;
    }
    if !has(rows, width, 64 * width, node) {
        return false;
    }
    merge(rows, width, node, 64 * width)
}

/// Goes once over all nodes, the least first.
fn spread_pass(rows: &mut [u64], stops: &[u64], width: usize) -> bool
    requires rows { length rows.old ≡ (64 * width + 1) * width }
    requires stops { length stops.now ≡ width }
    requires few { width ≤ 2 ^ 26 }
    ensures spreads { Spreads width (64 * width) stops.now (λ b. b / 64 < width)
        rows.old rows.new }
    ensures moves { Moves rows.old rows.new result }
{
    let mut changed = false;
    for node in 0..64 * width {
        let told = spread_step(rows, stops, width, node);
        changed = changed | told;
    }
    changed
}

/// Closes the last row, pass by pass, until a pass changes nothing.
fn spread(rows: &mut [u64], stops: &[u64], width: usize)
    requires rows { length rows.old ≡ (64 * width + 1) * width }
    requires stops { length stops.now ≡ width }
    requires few { width ≤ 2 ^ 26 }
    ensures { Searches width (64 * width) stops.now rows.old rows.new }
{
    loop {
        let changed = spread_pass(rows, stops, width);
        if !changed {
            return;
        }
    }
}

/// Searches from a node, in rows of edges.
pub(crate) fn search(rows: &mut [u64], width: usize, from: usize, shut: &[u64])
    requires rows { length rows.old ≡ (64 * width + 1) * width }
    requires few { width ≤ 2 ^ 26 }
    requires shut { length shut.now ≡ width }
    ensures { (edges : List (ℕ × ℕ)) (none : List ℕ) → HoldsEdges width none edges rows.old
        → IsSearched width edges from none shut.now rows.new }
{
    start(rows, width, from);
    spread(rows, shut, width);
}
