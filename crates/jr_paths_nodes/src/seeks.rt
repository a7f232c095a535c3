//! The search for the child of a number among the parts of a node.
ghost use Rattle.std.specs.Prelude.{◌≡◌, ◌++◌, List, ◌∷◌, [], map, option_map};
ghost use Rattle.std.specs.Option.{option_copied};
ghost use Rattle.jr_ast.specs.Nodes as pure;
ghost use Rattle.jr_ast.specs.View.{word_of, modifier_of, type_of, param_of, exprs_of, stmts_of};
ghost use Rattle.jr_ast.specs.View.{members_of, class_of};
ghost use Rattle.jr_paths_nodes.specs.NodeView.{node_of};
ghost use Rattle.jr_paths_nodes.specs.Seeks.{sought};

use crate::nodes::Node;
use jr_ast::{Class, Expr, Ident, Member, Modifier, Param, Stmt, TypeRef};

/// The child is found, or as many parts are still to be passed over.
pub(crate) enum Seek<'a, A> {
    Found(Node<'a, A>),
    Left(usize),
}

impl<A> Drop for Seek<'_, A> {
    fn drop(self) {
        match self {
            Seek::Found(_) => {}
            Seek::Left(_) => {}
        }
    }
}

impl<'a, A> Seek<'a, A> {
    /// No parts follow.
    pub(crate) fn end(self) -> Option<Node<'a, A>>
        ensures { option_map node_of result ≡ sought self.entry [] }
    {
        match self {
            Seek::Found(found) => Some(found),
            Seek::Left(_) => None,
        }
    }

    /// The next part is this node.
    pub(crate) fn then(self, node: Node<'a, A>) -> Seek<'a, A>
        ensures { (rest : List (pure.Node A))
            → sought result rest ≡ sought self.entry (node_of node.entry ∷ rest) }
    {
        match self {
            Seek::Found(found) => Seek::Found(found),
            Seek::Left(0) => Seek::Found(node),
            Seek::Left(left) => Seek::Left(left - 1),
        }
    }

    /// The next part is this type, if there is one.
    pub(crate) fn then_type(self, ty: Option<&'a TypeRef<A>>) -> Seek<'a, A>
        ensures { (rest : List (pure.Node A))
            → sought result rest ≡ sought self.entry
            (pure.maybe (option_map pure.type
            (option_map type_of (option_copied ty.entry))) ++ rest) }
    {
        match ty {
            Some(ty) => self.then(Node::Type(ty)),
            None => self,
        }
    }

    /// The next parts are these.
    pub(crate) fn words(self, parts: &'a [Ident<A>]) -> Seek<'a, A>
        ensures { (rest : List (pure.Node A))
            → sought result rest ≡ sought self.entry
            (map pure.word (map word_of parts.now) ++ rest) }
    {
        match self {
            Seek::Found(found) => Seek::Found(found),
            Seek::Left(left) => {
                if left < parts.len() {
                    Seek::Found(Node::Word(&parts[left]))
                } else {
                    Seek::Left(left - parts.len())
                }
            }
        }
    }

    /// The next parts are these.
    pub(crate) fn classes(self, parts: &'a [Class<A>]) -> Seek<'a, A>
        ensures { (rest : List (pure.Node A))
            → sought result rest ≡ sought self.entry
            (map pure.class (map class_of parts.now) ++ rest) }
    {
        match self {
            Seek::Found(found) => Seek::Found(found),
            Seek::Left(left) => {
                if left < parts.len() {
                    Seek::Found(Node::Class(&parts[left]))
                } else {
                    Seek::Left(left - parts.len())
                }
            }
        }
    }

    /// The next parts are these.
    pub(crate) fn modifiers(self, parts: &'a [Modifier<A>]) -> Seek<'a, A>
        ensures { (rest : List (pure.Node A))
            → sought result rest ≡ sought self.entry
            (map pure.modifier (map modifier_of parts.now) ++ rest) }
    {
        match self {
            Seek::Found(found) => Seek::Found(found),
            Seek::Left(left) => {
                if left < parts.len() {
                    Seek::Found(Node::Modifier(&parts[left]))
                } else {
                    Seek::Left(left - parts.len())
                }
            }
        }
    }

    /// The next parts are these.
    pub(crate) fn params(self, parts: &'a [Param<A>]) -> Seek<'a, A>
        ensures { (rest : List (pure.Node A))
            → sought result rest ≡ sought self.entry
            (map pure.param (map param_of parts.now) ++ rest) }
    {
        match self {
            Seek::Found(found) => Seek::Found(found),
            Seek::Left(left) => {
                if left < parts.len() {
                    Seek::Found(Node::Param(&parts[left]))
                } else {
                    Seek::Left(left - parts.len())
                }
            }
        }
    }

    /// The next parts are these.
    pub(crate) fn members(self, parts: &'a [Member<A>]) -> Seek<'a, A>
        ensures { (rest : List (pure.Node A))
            → sought result rest ≡ sought self.entry (pure.members (members_of parts.now) ++ rest) }
    {
        match self {
            Seek::Found(found) => Seek::Found(found),
            Seek::Left(left) => {
                if left < parts.len() {
                    Seek::Found(Node::Member(&parts[left]))
                } else {
                    Seek::Left(left - parts.len())
                }
            }
        }
    }

    /// The next parts are these.
    pub(crate) fn stmts(self, parts: &'a [Stmt<A>]) -> Seek<'a, A>
        ensures { (rest : List (pure.Node A))
            → sought result rest ≡ sought self.entry (pure.stmts (stmts_of parts.now) ++ rest) }
    {
        match self {
            Seek::Found(found) => Seek::Found(found),
            Seek::Left(left) => {
                if left < parts.len() {
                    Seek::Found(Node::Stmt(&parts[left]))
                } else {
                    Seek::Left(left - parts.len())
                }
            }
        }
    }

    /// The next parts are these.
    pub(crate) fn exprs(self, parts: &'a [Expr<A>]) -> Seek<'a, A>
        ensures { (rest : List (pure.Node A))
            → sought result rest ≡ sought self.entry (pure.exps (exprs_of parts.now) ++ rest) }
    {
        match self {
            Seek::Found(found) => Seek::Found(found),
            Seek::Left(left) => {
                if left < parts.len() {
                    Seek::Found(Node::Expr(&parts[left]))
                } else {
                    Seek::Left(left - parts.len())
                }
            }
        }
    }
}
