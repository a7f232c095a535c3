//! Rows are closed under steps. A step is a bit too: where the steps of a node have the bit of
//! another, the node's row gets the other's row.
ghost use Rattle.std.specs.Prelude.{◌≡◌, ◌*◌, ◌/◌, ◌<◌, ◌≤◌, ◌^◌, length};
ghost use Rattle.jr_flow.specs.Rows.{Moves};
ghost use Rattle.jr_flow.specs.Closure.{Extends, Closes};

use crate::rows::{has, merge};

/// Adds to the row of a node the row of another, if a step leads there.
fn merge_step(rows: &mut [u64], steps: &[u64], width: usize, node: usize, next: usize) -> bool
    requires rows { length rows.old ≡ 64 * width * width }
    requires steps { length steps.now ≡ 64 * width * width }
    requires node { node / 64 < width }
    requires next { next / 64 < width }
    ensures extends { Extends width steps.now (λ a b. (a ≡ node) × (b ≡ next)) rows.old rows.new }
    ensures moves { Moves rows.old rows.new result }
{
    if !has(steps, width, node, next) {
        return false;
    }
    merge(rows, width, next, node)
}

/// Adds to the row of a node the rows to which the steps in one of its words lead.
fn merge_word_steps(rows: &mut [u64], steps: &[u64], width: usize, node: usize, word: usize) -> bool
    requires rows { length rows.old ≡ 64 * width * width }
    requires steps { length steps.now ≡ 64 * width * width }
    requires node { node / 64 < width }
    requires word { word < width }
    ensures extends { Extends width steps.now (λ a b. (a ≡ node) × (b / 64 ≡ word))
        rows.old rows.new }
    ensures moves { Moves rows.old rows.new result }
{
    if steps[node * width + word] == 0 {
        return false;
    }
    let mut changed = false;
    for bit in 0..64 {
        let told = merge_step(rows, steps, width, node, word * 64 + bit);
        changed = changed | told;
    }
    changed
}

/// Adds to the row of a node the rows to which its steps lead.
fn merge_steps(rows: &mut [u64], steps: &[u64], width: usize, node: usize) -> bool
    requires rows { length rows.old ≡ 64 * width * width }
    requires steps { length steps.now ≡ 64 * width * width }
    requires node { node / 64 < width }
    ensures extends { Extends width steps.now (λ a b. a ≡ node) rows.old rows.new }
    ensures moves { Moves rows.old rows.new result }
{
    let mut changed = false;
    for word in 0..width {
        let told = merge_word_steps(rows, steps, width, node, word);
        changed = changed | told;
    }
    changed
}

/// Goes once over all nodes, the greatest first.
fn pass(rows: &mut [u64], steps: &[u64], width: usize) -> bool
    requires rows { length rows.old ≡ 64 * width * width }
    requires steps { length steps.now ≡ 64 * width * width }
    requires few { width ≤ 2 ^ 26 }
    ensures extends { Extends width steps.now (λ a b. a / 64 < width) rows.old rows.new }
    ensures moves { Moves rows.old rows.new result }
{
    let mut moved = false;
    for node in (0..64 * width).rev() {
        let told = merge_steps(rows, steps, width, node);
        moved = moved | told;
    }
    moved
}

/// Closes rows under steps, pass by pass, until a pass changes nothing.
pub(crate) fn close(rows: &mut [u64], steps: &[u64], width: usize)
    requires rows { length rows.old ≡ 64 * width * width }
    requires steps { length steps.now ≡ 64 * width * width }
    requires few { width ≤ 2 ^ 26 }
    ensures { Closes width steps.now rows.old rows.new }
{
    loop {
        let changed = pass(rows, steps, width);
        if !changed {
            return;
        }
    }
}
