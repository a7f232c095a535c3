//! Which nodes one node reaches, as it is kept.
ghost use Rattle.std.specs.Prelude.{◌≡◌, ◌+◌, ◌*◌, length};
ghost use Rattle.jr_flow.specs.Rows.{width_of};

use crate::rows::{has, width_of};

/// Which nodes of a graph are reached from one of them.
#[derive(Drop)]
pub struct Reached {
    pub(crate) size: u32,
    /// Behind the rows of the graph's edges a last row of bits: the nodes that are reached.
    pub(crate) words: Vec<u64>,
    ghost whole: { length words.items ≡ (64 * width_of size + 1) * width_of size },
}

impl Reached {
    ghost use Rattle.std.specs.Prelude.{IsTrue, ◌↔◌};
    ghost use Rattle.jr_flow.specs.Nodes.{IsReached};

    /// Whether the node is reached. A number that is no node is not.
    pub fn has(&self, node: u32) -> bool
        ensures { IsTrue result ↔ IsReached self.now node }
    {
        if node >= self.size {
            return false;
        }
        let width = width_of(self.size);
        has(&self.words, width, 64 * width, node as usize)
    }
}
