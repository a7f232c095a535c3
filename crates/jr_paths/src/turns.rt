//! Where a path turns from members to statements, and from statements to expressions.
ghost use Rattle.std.specs.Prelude.{length};
ghost use Rattle.jr_ast.specs.Nodes as pure;
ghost use Rattle.jr_ast.specs.View.{unit_of};
ghost use Rattle.jr_paths.specs.PathKinds.{IsLast};

use jr_ast::Unit;
use jr_paths_nodes::Node;

/// After how many steps a path stands at its last member and at its last statement; 0 for none.
#[derive(Drop)]
pub(crate) struct Turns {
    pub(crate) members: usize,
    pub(crate) stmts: usize,
}

/// What the path passes, as far as it leads.
pub(crate) fn turns_of<A>(unit: &Unit<A>, steps: &[u32]) -> Turns
    ensures members { IsLast (pure.member_at (pure.unit (unit_of unit.now))) steps.now
        (length steps.now) result.members }
    ensures stmts { IsLast (pure.stmt_at (pure.unit (unit_of unit.now))) steps.now
        (length steps.now) result.stmts }
{
    let mut node = Node::Unit(unit);
    let mut members = 0;
    let mut stmts = 0;
    for i in 0..steps.len() {
        node = match node.child(steps[i] as usize) {
            None => return Turns { members, stmts },
            Some(child) => child,
        };
        if node.is_member() {
            members = i + 1;
        }
        if node.is_stmt() {
            stmts = i + 1;
        }
    }
    Turns { members, stmts }
}
