//! Laws that no call's clause carries.
ghost use Rattle.jr_paths_nodes.specs.With.{OneChildReplaced};

/// A child replaced is one child: the node's others stay, and with its own child it is the node
/// that it was.
pub fn one_child_is_replaced<A>()
    ensures { OneChildReplaced A }
{}
