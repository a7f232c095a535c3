//! Changeable parts of classes, members and compilation units.
ghost use Rattle.std.specs.Prelude.{◌≡◌, ◌≤◌, ◌*◌, length, map, option_map, option_and_then};
ghost use Rattle.std.specs.Borrow.{sem};
ghost use Rattle.jr_ast.specs.Nodes as pure;
ghost use Rattle.jr_ast.specs.View as view;
ghost use Rattle.jr_paths_nodes.specs.With.{get_from};
ghost use Rattle.jr_paths_nodes.specs.MemberLent.{members_begin, init_begins, left_of, names_of};
ghost use Rattle.jr_paths_nodes.specs.MemberLent.{at_place, body_place, args_place};
ghost use Rattle.jr_paths_nodes.specs.MemberLent.{lends_member_among, lends_member_of_class};
ghost use Rattle.jr_paths_nodes.specs.MemberLent.{lends_class_of_member, lends_class_among};
ghost use Rattle.jr_paths_nodes.specs.MemberLent.{lends_class_of_unit};
ghost use Rattle.jr_paths_nodes.specs.MemberLent.{lends_stmt_left, lends_arg_left, lends_init};
ghost use Rattle.jr_paths_nodes.specs.MemberLent.{lends_stmt_of_member, lends_expr_of_member};
ghost use Rattle.jr_paths_nodes.specs.MemberLent.{lends_below_class};

use crate::expr_writes::nth_expr;
use crate::reaches::{One, Twice};
use crate::stmt_writes::{held_expr, nth_stmt};
use jr_ast::{Class, Expr, Member, MemberKind, Stmt, TypeRef, Unit};

/// The member of this number, where the first of the row has the number `first`.
pub(crate) fn nth_member<A>(
    among: &mut Vec<Member<A>>,
    first: usize,
    number: usize,
) -> Option<&mut Member<A>>
    ensures* writes_back { sem 𝓛 (lends_member_among A.row among.entry first number result) }
    ensures value { option_map (λ x. view.member_of x.now) result
        ≡ get_from first (map view.member_of among.entry.now.items) number }
{
    if number < first {
        return None;
    }
    among.get_mut(number - first)
}

/// The class of this number, where the first of the row has the number `first`.
fn nth_class<A>(among: &mut Vec<Class<A>>, first: usize, number: usize) -> Option<&mut Class<A>>
    ensures* writes_back { sem 𝓛 (lends_class_among A.row among.entry first number result) }
    ensures value { option_map (λ x. view.class_of x.now) result
        ≡ get_from first (map view.class_of among.entry.now.items) number }
{
    if number < first {
        return None;
    }
    among.get_mut(number - first)
}

/// What is left of a number once so many children are passed over.
fn left_after(number: Option<usize>, count: usize) -> Option<usize>
    ensures { result ≡ option_and_then (left_of count) number }
{
    match number {
        Some(number) => {
            if number < count {
                None
            } else {
                Some(number - count)
            }
        }
        None => None,
    }
}

/// How many children a method's type and name are.
fn names<A>(ret: &Option<TypeRef<A>>) -> usize
    ensures { result ≡ names_of ret.now }
{
    match ret {
        None => 1,
        Some(_) => 2,
    }
}

/// How many arguments are given.
fn argument_count<A>(args: &Option<Vec<Expr<A>>>) -> usize
    ensures { result ≡ length (pure.args_children (view.args_of args.now)) }
{
    match args {
        None => 0,
        Some(args) => args.len(),
    }
}

fn stmt_left<A>(body: &mut Vec<Stmt<A>>, left: Option<usize>) -> Option<&mut Stmt<A>>
    ensures* writes_back { sem 𝓛 (lends_stmt_left A.row body.entry left result) }
    ensures value { option_map (λ x. view.stmt_of x.now) result
        ≡ at_place pure.as_stmt (pure.stmts (view.stmts_of body.entry.now.items)) left }
{
    match left {
        Some(left) => nth_stmt(body, 0, left),
        None => None,
    }
}

fn arg_left<A>(args: &mut Option<Vec<Expr<A>>>, left: Option<usize>) -> Option<&mut Expr<A>>
    ensures* writes_back { sem 𝓛 (lends_arg_left A.row args.entry left result) }
    ensures value { option_map (λ x. view.expr_of x.now) result
        ≡ at_place pure.as_exp (pure.args_children (view.args_of args.entry.now)) left }
{
    match (args, left) {
        (Some(args), Some(left)) => nth_expr(args, 0, left),
        (Some(_), None) => None,
        (None, _) => None,
    }
}

/// The expression that may be missing, where it has the number `first`.
fn init_mut<A>(init: &mut Option<Expr<A>>, first: usize, number: usize) -> Option<&mut Expr<A>>
    ensures* writes_back { sem 𝓛 (lends_init A.row init.entry first number result) }
    ensures value { option_map (λ x. view.expr_of x.now) result
        ≡ option_and_then pure.as_exp (get_from first
        (pure.maybe (option_map pure.exp (option_map view.expr_of init.entry.now))) number) }
{
    if number != first {
        return None;
    }
    held_expr(init)
}

/// The number of the first member.
fn begin_of_members<A>(class: &Class<A>) -> usize
    ensures { result ≡ members_begin (view.class_of class.now) }
{
    match &class.parent {
        None => class.modifiers.len() + 1,
        Some(_) => class.modifiers.len() + 2,
    }
}

/// The member that is the child of this number, if it is one.
pub(crate) fn member_of_class<A>(class: &mut Class<A>, number: usize) -> Option<&mut Member<A>>
    ensures* writes_back { sem 𝓛 (lends_member_of_class A.row class.entry number result) }
    ensures value { option_map (λ x. view.member_of x.now) result
        ≡ option_and_then pure.as_member
        (pure.child_of (pure.class (view.class_of class.entry.now)) number) }
{
    let first = begin_of_members(class);
    nth_member(&mut class.members, first, number)
}

/// The class that this member is, if it is the child of this number.
pub(crate) fn class_of_member<A>(kind: &mut MemberKind<A>, number: usize) -> Option<&mut Class<A>>
    ensures* writes_back { sem 𝓛 (lends_class_of_member A.row kind.entry number result) }
    ensures value { (m : A) → option_map (λ x. view.class_of x.now) result
        ≡ option_and_then pure.as_class
        (pure.child_of (pure.member (view.member_kind m kind.entry.now)) number) }
{
    match (kind, number) {
        (MemberKind::Inner(class), 0) => Some(class),
        (MemberKind::Field { .. }, _) => None,
        (MemberKind::Method { .. }, _) => None,
        (MemberKind::Ctor { .. }, _) => None,
        (MemberKind::Inner(_), _) => None,
    }
}

/// The number of a field's initial value.
#[tactic(auto, unfolding(jr_ast::specs::View::member_kind))]
fn begin_of_init<A>(kind: &MemberKind<A>) -> usize
    ensures { (m : A) → result ≡ init_begins (view.member_kind m kind.now) }
{
    match kind {
        MemberKind::Field { modifiers, .. } => modifiers.len() + 2,
        MemberKind::Method { .. } | MemberKind::Ctor { .. } | MemberKind::Inner(_) => 0,
    }
}

/// Which argument of a written `super(..)` has this number.
#[tactic(auto, unfolding(jr_ast::specs::View::member_kind))]
fn place_in_args<A>(kind: &MemberKind<A>, number: usize) -> Option<usize>
    ensures { (m : A) → result ≡ args_place (view.member_kind m kind.now) number }
{
    match kind {
        MemberKind::Ctor {
            modifiers,
            params,
            ..
        } => left_after(
            left_after(left_after(Some(number), modifiers.len()), 1),
            params.len(),
        ),
        MemberKind::Field { .. } | MemberKind::Method { .. } | MemberKind::Inner(_) => None,
    }
}

/// Which statement of a body has this number.
#[tactic(auto, unfolding(jr_ast::specs::View::member_kind))]
fn place_in_body<A>(kind: &MemberKind<A>, number: usize) -> Option<usize>
    ensures { (m : A) → result ≡ body_place (view.member_kind m kind.now) number }
{
    match kind {
        MemberKind::Method {
            modifiers,
            ret,
            params,
            ..
        } => left_after(
            left_after(left_after(Some(number), modifiers.len()), names(ret)),
            params.len(),
        ),
        MemberKind::Ctor { parent_args, .. } => {
            left_after(place_in_args(kind, number), argument_count(parent_args))
        }
        MemberKind::Field { .. } | MemberKind::Inner(_) => None,
    }
}

/// The statement that is the child of this number, if it is one.
pub fn stmt_of_member<A>(kind: &mut MemberKind<A>, number: usize) -> Option<&mut Stmt<A>>
    ensures* writes_back { sem 𝓛 (lends_stmt_of_member A.row kind.entry number result) }
    ensures value { (m : A) → option_map (λ x. view.stmt_of x.now) result
        ≡ option_and_then pure.as_stmt
        (pure.child_of (pure.member (view.member_kind m kind.entry.now)) number) }
{
    let left = place_in_body(kind, number);
    match kind {
        MemberKind::Method { body, .. } => stmt_left(body, left),
        MemberKind::Ctor { body, .. } => stmt_left(body, left),
        MemberKind::Field { .. } => None,
        MemberKind::Inner(_) => None,
    }
}

/// The expression that is the child of this number, if it is one.
pub fn expr_of_member<A>(kind: &mut MemberKind<A>, number: usize) -> Option<&mut Expr<A>>
    ensures* writes_back { sem 𝓛 (lends_expr_of_member A.row kind.entry number result) }
    ensures value { (m : A) → option_map (λ x. view.expr_of x.now) result
        ≡ option_and_then pure.as_exp (pure.child_of
        (pure.member (view.member_kind m kind.entry.now)) number) }
{
    let first = begin_of_init(kind);
    let left = place_in_args(kind, number);
    match kind {
        MemberKind::Field { init, .. } => init_mut(init, first, number),
        MemberKind::Ctor { parent_args, .. } => arg_left(parent_args, left),
        MemberKind::Method { .. } => None,
        MemberKind::Inner(_) => None,
    }
}

/// The class that is the child of this number, if it is one.
pub fn class_of_unit<A>(unit: &mut Unit<A>, number: usize) -> Option<&mut Class<A>>
    ensures* writes_back { sem 𝓛 (lends_class_of_unit A.row unit.entry number result) }
    ensures value { option_map (λ x. view.class_of x.now) result
        ≡ option_and_then pure.as_class
        (pure.child_of (pure.unit (view.unit_of unit.entry.now)) number) }
{
    let first = unit.package.len();
    nth_class(&mut unit.classes, first, number)
}

/// A way down from a class to a member below it, in trees with marks of this type.
///
/// The mark is `Self`, so that a call of the way has it where the caller has it: elsewhere the
/// check compares whole types.
pub trait ClassLevel<L>: Sized {
    ghost use Rattle.std.specs.Prelude.{ℕ};

    ghost reach: { ℕ };

    /// What the steps lead to, if they are within reach.
    fn below<'k>(class: &'k mut Class<Self>, steps: &[u32]) -> Option<&'k mut Member<Self>>
        ensures* writes_back { sem 𝓛 (lends_below_class Self.row reach class.entry
            steps.now result) }
        ensures value { length steps.now ≤ 2 * reach
            → option_map (λ x. view.member_of x.now) result
            ≡ pure.member_at (pure.class (view.class_of class.entry.now)) steps.now };
}

impl<A> ClassLevel<One> for A {
    ghost reach = { 1 };

    fn below<'k>(class: &'k mut Class<A>, steps: &[u32]) -> Option<&'k mut Member<A>> {
        if steps.len() != 1 {
            return None;
        }
        member_of_class(class, steps[0] as usize)
    }
}

impl<A: ClassLevel<L>, L> ClassLevel<Twice<L>> for A {
    ghost reach = { 2 * A.reach };

    fn below<'k>(class: &'k mut Class<A>, steps: &[u32]) -> Option<&'k mut Member<A>> {
        if steps.len() % 2 == 0 {
            return None;
        }
        let upper = (steps.len() / 2 + 1) / 2;
        if upper == 0 {
            return <A as ClassLevel<L>>::below(class, steps);
        }
        let member = <A as ClassLevel<L>>::below(class, &steps[..2 * upper - 1])?;
        let inner = class_of_member(&mut member.kind, steps[2 * upper - 1] as usize)?;
        <A as ClassLevel<L>>::below(inner, &steps[2 * upper..])
    }
}
