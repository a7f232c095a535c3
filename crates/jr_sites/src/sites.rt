ghost use Rattle.std.specs.Prelude.{◌≡◌, length};

use jr_flow::Graph;
use jr_sync::Site;
use jr_table::{FieldKey, LocalKey};

/// What a member does at a byte that is counted from its first byte.
#[derive(Drop)]
pub struct PlacedSite {
    pub at: u32,
    pub site: Site<FieldKey, LocalKey>,
}

/// The sites of a member in evaluation order, and the edges between their numbers.
#[derive(Drop)]
pub struct SiteGraph {
    pub sites: Vec<PlacedSite>,
    pub graph: Graph,
    ghost nodes: { length sites.items ≡ graph.size },
}
