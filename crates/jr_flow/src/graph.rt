ghost use Rattle.jr_flow.specs.Edges.{AreBelow};

/// A graph whose nodes are the numbers below `size`. An edge leads from its first number to its
/// second; one that stands twice is one.
#[derive(Drop)]
pub struct Graph {
    pub size: u32,
    pub edges: Vec<(u32, u32)>,
    ghost below: { AreBelow size edges.items },
}
