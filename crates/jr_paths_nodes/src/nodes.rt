//! Nodes: the parts of a tree that have a mark.
ghost use Rattle.std.specs.Prelude.{◌≡◌, option_map};
ghost use Rattle.std.specs.Option.{is_some};
ghost use Rattle.jr_ast.specs.Nodes as pure;
ghost use Rattle.jr_ast.specs.View.{expr_of, stmt_of, member_of};
ghost use Rattle.jr_paths_nodes.specs.NodeView.{node_of};

use crate::children;
use jr_ast::{Class, Expr, Ident, Member, Modifier, Param, Path, Stmt, TypeRef, Unit};

/// A reference to a node of a tree: a part that has a mark. Its children are its parts that have
/// a mark, numbered from 0 in the order of the text.
pub enum Node<'a, A> {
    Unit(&'a Unit<A>),
    Class(&'a Class<A>),
    Modifier(&'a Modifier<A>),
    Word(&'a Ident<A>),
    Type(&'a TypeRef<A>),
    Param(&'a Param<A>),
    Member(&'a Member<A>),
    Stmt(&'a Stmt<A>),
    Expr(&'a Expr<A>),
}

impl<A> Drop for Node<'_, A> {
    fn drop(self) {
        match self {
            Node::Unit(_) => {}
            Node::Class(_) => {}
            Node::Modifier(_) => {}
            Node::Word(_) => {}
            Node::Type(_) => {}
            Node::Param(_) => {}
            Node::Member(_) => {}
            Node::Stmt(_) => {}
            Node::Expr(_) => {}
        }
    }
}

impl<'a, A> Node<'a, A> {
    /// The child of this number; `None` exactly where there are no more than `number` children.
    pub fn child(self, number: usize) -> Option<Node<'a, A>>
        ensures { option_map node_of result ≡ pure.child_of (node_of self.entry) number }
    {
        match self {
            Node::Unit(unit) => children::unit_child(unit, number),
            Node::Class(class) => children::class_child(class, number),
            Node::Modifier(_) => None,
            Node::Word(_) => None,
            Node::Type(ty) => children::type_child(ty, number),
            Node::Param(param) => children::param_child(param, number),
            Node::Member(member) => children::member_child(member, number),
            Node::Stmt(stmt) => children::stmt_child(stmt, number),
            Node::Expr(expr) => children::expr_child(expr, number),
        }
    }

    /// The node to which the path leads from this one, if there is one.
    pub fn at(self, path: &Path) -> Option<Node<'a, A>>
        ensures { option_map node_of result
            ≡ pure.node_at (node_of self.entry) path.now.steps.items }
    {
        self.down(path.steps.as_slice())
    }

    /// The node as an expression, if it is one.
    pub fn as_expr(self) -> Option<&'a Expr<A>>
        ensures { option_map (λ e. expr_of e.now) result ≡ pure.as_exp (node_of self.entry) }
    {
        match self {
            Node::Expr(expr) => Some(expr),
            _ => None,
        }
    }

    /// The node as a statement, if it is one.
    pub fn as_stmt(self) -> Option<&'a Stmt<A>>
        ensures { option_map (λ s. stmt_of s.now) result ≡ pure.as_stmt (node_of self.entry) }
    {
        match self {
            Node::Stmt(stmt) => Some(stmt),
            _ => None,
        }
    }

    /// The node as a member, if it is one.
    pub fn as_member(self) -> Option<&'a Member<A>>
        ensures { option_map (λ m. member_of m.now) result ≡ pure.as_member (node_of self.entry) }
    {
        match self {
            Node::Member(member) => Some(member),
            _ => None,
        }
    }

    /// Whether the node is a member.
    pub fn is_member(&self) -> bool
        ensures { result ≡ is_some (pure.as_member (node_of self.now)) }
    {
        match self {
            Node::Member(_) => true,
            Node::Unit(_) => false,
            Node::Class(_) => false,
            Node::Modifier(_) => false,
            Node::Word(_) => false,
            Node::Type(_) => false,
            Node::Param(_) => false,
            Node::Stmt(_) => false,
            Node::Expr(_) => false,
        }
    }

    /// Whether the node is a statement.
    pub fn is_stmt(&self) -> bool
        ensures { result ≡ is_some (pure.as_stmt (node_of self.now)) }
    {
        match self {
            Node::Stmt(_) => true,
            Node::Unit(_) => false,
            Node::Class(_) => false,
            Node::Modifier(_) => false,
            Node::Word(_) => false,
            Node::Type(_) => false,
            Node::Param(_) => false,
            Node::Member(_) => false,
            Node::Expr(_) => false,
        }
    }

    fn down(self, steps: &[u32]) -> Option<Node<'a, A>>
        ensures { option_map node_of result ≡ pure.node_at (node_of self.entry) steps.now }
    {
        let mut node = self;
        for step in steps {
            node = node.child(*step as usize)?;
        }
        Some(node)
    }
}
