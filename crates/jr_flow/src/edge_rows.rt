//! The edges of a graph, as searches go along them.
ghost use Rattle.std.specs.Prelude.{◌≡◌, ◌+◌, ◌*◌, length};
ghost use Rattle.jr_flow.specs.Rows.{width_of};

/// The edges of a graph, made once for searches from several of its nodes.
#[derive(Drop)]
pub struct EdgeRows {
    pub(crate) size: u32,
    /// For each number that has a bit, a row of bits: the nodes to which its edges lead. Behind
    /// them stands an empty row.
    pub(crate) words: Vec<u64>,
    ghost whole: { length words.items ≡ (64 * width_of size + 1) * width_of size },
}
