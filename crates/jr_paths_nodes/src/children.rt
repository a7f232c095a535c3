//! The children of a node, by their numbers.
ghost use Rattle.std.specs.Prelude.{◌≡◌, ◌∷◌, ◌++◌, [], map, option_map};
ghost use Rattle.std.specs.List.{slice_get};
ghost use Rattle.jr_ast.specs.Nodes as pure;
ghost use Rattle.jr_ast.specs.View.{word_of, modifier_of, type_of, param_of, expr_of, exprs_of};
ghost use Rattle.jr_ast.specs.View.{args_of};
ghost use Rattle.jr_ast.specs.View.{stmt_of, stmts_of, class_of, member_of, unit_of};
ghost use Rattle.jr_paths_nodes.specs.NodeView.{node_of};

use crate::nodes::Node;
use crate::seeks::Seek;
use jr_ast::{
    Class, Expr, ExprKind, Ident, Member, MemberKind, Modifier, Param, Stmt, StmtKind, TypeKind,
    TypeRef, Unit,
};

/// The child of this number, where this is the only one.
fn one<'a, A>(number: usize, node: Node<'a, A>) -> Option<Node<'a, A>>
    ensures { option_map node_of result ≡ slice_get (node_of node.entry ∷ []) number }
{
    if number == 0 { Some(node) } else { None }
}

/// The child of this number, where these are the two.
fn two<'a, A>(number: usize, first: Node<'a, A>, second: Node<'a, A>) -> Option<Node<'a, A>>
    ensures { option_map node_of result
        ≡ slice_get (node_of first.entry ∷ (node_of second.entry ∷ [])) number }
{
    match number {
        0 => Some(first),
        1 => Some(second),
        _ => None,
    }
}

/// The child of this number, where these are the three.
fn three<'a, A>(
    number: usize,
    first: Node<'a, A>,
    second: Node<'a, A>,
    third: Node<'a, A>,
) -> Option<Node<'a, A>>
    ensures { option_map node_of result
        ≡ slice_get (node_of first.entry
        ∷ (node_of second.entry ∷ (node_of third.entry ∷ []))) number }
{
    match number {
        0 => Some(first),
        1 => Some(second),
        2 => Some(third),
        _ => None,
    }
}

/// The child of this number, where the first is this node, and the others are these expressions.
fn then_exprs<'a, A>(
    number: usize,
    first: Node<'a, A>,
    others: &'a [Expr<A>],
) -> Option<Node<'a, A>>
    ensures { option_map node_of result
        ≡ slice_get (node_of first.entry ∷ pure.exps (exprs_of others.now)) number }
{
    Seek::Left(number).then(first).exprs(others).end()
}

/// The child of this number, where the first two are these nodes, and the others are these
/// expressions.
fn two_then_exprs<'a, A>(
    number: usize,
    first: Node<'a, A>,
    second: Node<'a, A>,
    others: &'a [Expr<A>],
) -> Option<Node<'a, A>>
    ensures { option_map node_of result
        ≡ slice_get (node_of first.entry
        ∷ (node_of second.entry ∷ pure.exps (exprs_of others.now))) number }
{
    Seek::Left(number)
        .then(first)
        .then(second)
        .exprs(others)
        .end()
}

/// The child of this number, where the first is this node, and the others are these statements.
fn then_stmts<'a, A>(
    number: usize,
    first: Node<'a, A>,
    others: &'a [Stmt<A>],
) -> Option<Node<'a, A>>
    ensures { option_map node_of result
        ≡ slice_get (node_of first.entry ∷ pure.stmts (stmts_of others.now)) number }
{
    Seek::Left(number).then(first).stmts(others).end()
}

/// The child of this number, where the children are these statements.
fn only_stmts<'a, A>(number: usize, all: &'a [Stmt<A>]) -> Option<Node<'a, A>>
    ensures { option_map node_of result ≡ slice_get (pure.stmts (stmts_of all.now)) number }
{
    Seek::Left(number).stmts(all).end()
}

/// The node of a type in a box.
fn type_node<A>(ty: &Box<TypeRef<A>>) -> Node<'_, A>
    ensures { node_of result ≡ pure.type (type_of ty.now.value) }
{
    Node::Type(ty)
}

#[tactic(auto, unfolding(jr_ast::specs::View::expr_kind, jr_ast::specs::Nodes::exp_children))]
pub(crate) fn expr_child<'a, A>(expr: &'a Expr<A>, number: usize) -> Option<Node<'a, A>>
    ensures { option_map node_of result ≡ slice_get (pure.exp_children (expr_of expr.now)) number }
{
    match &expr.kind {
        ExprKind::Int(_) => None,
        ExprKind::Bool(_) => None,
        ExprKind::Null => None,
        ExprKind::Text(_) => None,
        ExprKind::This => None,
        ExprKind::Simple(name) => one(number, Node::Word(name)),
        ExprKind::SuperField(name) => one(number, Node::Word(name)),
        ExprKind::ClassLit(ty) => one(number, Node::Type(ty)),
        ExprKind::Field(of, name) => two(number, Node::Expr(of), Node::Word(name)),
        ExprKind::Call(target, name, args) => match target {
            None => then_exprs(number, Node::Word(name), args),
            Some(target) => two_then_exprs(number, Node::Expr(target), Node::Word(name), args),
        },
        ExprKind::SuperCall(name, args) => then_exprs(number, Node::Word(name), args),
        ExprKind::New(ty, args) => then_exprs(number, type_node(ty), args),
        ExprKind::Paren(of) => one(number, Node::Expr(of)),
        ExprKind::Cast(ty, of) => two(number, type_node(ty), Node::Expr(of)),
        ExprKind::Unary(_, of) => one(number, Node::Expr(of)),
        ExprKind::Bump(_, of) => one(number, Node::Expr(of)),
        ExprKind::Binary(_, left, right) => two(number, Node::Expr(left), Node::Expr(right)),
        ExprKind::Assign(to, value) => two(number, Node::Expr(to), Node::Expr(value)),
        ExprKind::Compound(_, to, value) => two(number, Node::Expr(to), Node::Expr(value)),
    }
}

#[tactic(auto, unfolding(jr_ast::specs::View::stmt_kind, jr_ast::specs::Nodes::stmt_children))]
pub(crate) fn stmt_child<'a, A>(stmt: &'a Stmt<A>, number: usize) -> Option<Node<'a, A>>
    ensures { option_map node_of result ≡ slice_get (pure.stmt_children (stmt_of stmt.now)) number }
{
    match &stmt.kind {
        StmtKind::Local { ty, name, init, .. } => {
            three(number, Node::Type(ty), Node::Word(name), Node::Expr(init))
        }
        StmtKind::Eval(of) => one(number, Node::Expr(of)),
        StmtKind::If(condition, yes, no) => match no {
            None => two(number, Node::Expr(condition), Node::Stmt(yes)),
            Some(no) => three(
                number,
                Node::Expr(condition),
                Node::Stmt(yes),
                Node::Stmt(no),
            ),
        },
        StmtKind::While(condition, body) => two(number, Node::Expr(condition), Node::Stmt(body)),
        StmtKind::Return(value) => match value {
            None => None,
            Some(value) => one(number, Node::Expr(value)),
        },
        StmtKind::Block(body) => only_stmts(number, body),
        StmtKind::Sync(lock, body) => then_stmts(number, Node::Expr(lock), body),
        StmtKind::Empty => None,
    }
}

fn field_child<'a, A>(
    number: usize,
    modifiers: &'a [Modifier<A>],
    ty: &'a TypeRef<A>,
    name: &'a Ident<A>,
    init: &'a Option<Expr<A>>,
) -> Option<Node<'a, A>>
    ensures { option_map node_of result
        ≡ slice_get (map pure.modifier (map modifier_of modifiers.now)
        ++ (pure.type (type_of ty.now)
        ∷ (pure.word (word_of name.now)
        ∷ pure.maybe (option_map pure.exp (option_map expr_of init.now))))) number }
{
    let seek = Seek::Left(number)
        .modifiers(modifiers)
        .then(Node::Type(ty))
        .then(Node::Word(name));
    match init {
        None => seek.end(),
        Some(init) => seek.then(Node::Expr(init)).end(),
    }
}

fn method_child<'a, A>(
    number: usize,
    modifiers: &'a [Modifier<A>],
    ret: &'a Option<TypeRef<A>>,
    name: &'a Ident<A>,
    params: &'a [Param<A>],
    body: &'a [Stmt<A>],
) -> Option<Node<'a, A>>
    ensures { option_map node_of result
        ≡ slice_get (map pure.modifier (map modifier_of modifiers.now)
        ++ (pure.maybe (option_map pure.type (option_map type_of ret.now))
        ++ (pure.word (word_of name.now)
        ∷ (map pure.param (map param_of params.now) ++ pure.stmts (stmts_of body.now))))) number }
{
    Seek::Left(number)
        .modifiers(modifiers)
        .then_type(ret.as_ref())
        .then(Node::Word(name))
        .params(params)
        .stmts(body)
        .end()
}

fn ctor_child<'a, A>(
    number: usize,
    modifiers: &'a [Modifier<A>],
    name: &'a Ident<A>,
    params: &'a [Param<A>],
    parent_args: &'a Option<Vec<Expr<A>>>,
    body: &'a [Stmt<A>],
) -> Option<Node<'a, A>>
    ensures { option_map node_of result
        ≡ slice_get (map pure.modifier (map modifier_of modifiers.now)
        ++ (pure.word (word_of name.now)
        ∷ (map pure.param (map param_of params.now)
        ++ (pure.args_children (args_of parent_args.now)
        ++ pure.stmts (stmts_of body.now))))) number }
{
    let seek = Seek::Left(number)
        .modifiers(modifiers)
        .then(Node::Word(name))
        .params(params);
    match parent_args {
        None => seek.stmts(body).end(),
        Some(args) => seek.exprs(args).stmts(body).end(),
    }
}

#[tactic(auto, unfolding(jr_ast::specs::View::member_kind, jr_ast::specs::Nodes::member_children))]
pub(crate) fn member_child<'a, A>(member: &'a Member<A>, number: usize) -> Option<Node<'a, A>>
    ensures { option_map node_of result
        ≡ slice_get (pure.member_children (member_of member.now)) number }
{
    match &member.kind {
        MemberKind::Field {
            modifiers,
            ty,
            name,
            init,
        } => field_child(number, modifiers, ty, name, init),
        MemberKind::Method {
            modifiers,
            ret,
            name,
            params,
            body,
        } => method_child(number, modifiers, ret, name, params, body),
        MemberKind::Ctor {
            modifiers,
            name,
            params,
            parent_args,
            body,
        } => ctor_child(number, modifiers, name, params, parent_args, body),
        MemberKind::Inner(class) => one(number, Node::Class(class)),
    }
}

#[tactic(auto, unfolding(jr_ast::specs::View::class_of, jr_ast::specs::Nodes::class_children))]
pub(crate) fn class_child<'a, A>(class: &'a Class<A>, number: usize) -> Option<Node<'a, A>>
    ensures { option_map node_of result
        ≡ slice_get (pure.class_children (class_of class.now)) number }
{
    Seek::Left(number)
        .modifiers(&class.modifiers)
        .then(Node::Word(&class.name))
        .then_type(class.parent.as_ref())
        .members(&class.members)
        .end()
}

pub(crate) fn unit_child<'a, A>(unit: &'a Unit<A>, number: usize) -> Option<Node<'a, A>>
    ensures { option_map node_of result ≡ pure.child_of (pure.unit (unit_of unit.now)) number }
{
    Seek::Left(number)
        .words(&unit.package)
        .classes(&unit.classes)
        .end()
}

pub(crate) fn type_child<'a, A>(ty: &'a TypeRef<A>, number: usize) -> Option<Node<'a, A>>
    ensures { option_map node_of result ≡ slice_get (pure.type_children (type_of ty.now)) number }
{
    match &ty.kind {
        TypeKind::Int => None,
        TypeKind::Boolean => None,
        TypeKind::Named(None, name) => one(number, Node::Word(name)),
        TypeKind::Named(Some(outer), name) => two(number, Node::Word(outer), Node::Word(name)),
    }
}

pub(crate) fn param_child<'a, A>(param: &'a Param<A>, number: usize) -> Option<Node<'a, A>>
    ensures { option_map node_of result ≡ pure.child_of (pure.param (param_of param.now)) number }
{
    two(number, Node::Type(&param.ty), Node::Word(&param.name))
}
