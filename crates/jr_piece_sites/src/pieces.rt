//! The pieces of a member, by their paths.
ghost use Rattle.std.specs.Prelude.{◌≡◌, ◌+◌, ◌-◌, ◌≤◌, [], suc, length, map, None, IfSome};
ghost use Rattle.std.specs.Prelude.{SomeIff, option_map};
ghost use Rattle.jr_ast.specs.View.{args_of, else_of, expr_of, exprs_of, member_of};
ghost use Rattle.jr_ast.specs.View.{modifier_of, param_of, stmt_of, stmts_of, type_of};
ghost use Rattle.jr_expr_sites.specs.Routes.{begins_by};
ghost use Rattle.jr_piece_sites.specs.Parts.{behind};
ghost use Rattle.jr_piece_sites.specs.Pieces as pure;
ghost use Rattle.jr_piece_sites.specs.Pieces.{FitsPiece, spotted};
ghost use Rattle.jr_piece_sites.specs.PieceView.{piece_of};

use crate::parts::{expr_in, nth, only, parts_of};
use jr_ast::{Expr, Member, MemberKind, Modifier, Param, Stmt, StmtKind, TypeRef};
use jr_text::Mark;

/// A member, or a statement or an expression in it.
#[derive(Drop)]
pub(crate) enum Piece<'a, A> {
    Member(&'a Member<A>),
    Stmt(&'a Stmt<A>),
    Expr(&'a Expr<A>),
}

/// The expression, if it has the number.
fn as_only<A>(own: u32, of: &Expr<A>, number: u32) -> Option<Piece<'_, A>>
    ensures { option_map piece_of result ≡ pure.as_only own (expr_of of.now) number }
{
    match only(own, of, number) {
        None => None,
        Some(of) => Some(Piece::Expr(of)),
    }
}

fn maybe_at<A>(own: u32, of: &Option<Expr<A>>, number: u32) -> Option<Piece<'_, A>>
    ensures { option_map piece_of result ≡ pure.maybe_at own (option_map expr_of of.now) number }
{
    match of {
        None => None,
        Some(of) => as_only(own, of, number),
    }
}

/// The argument of this number.
fn nth_exp<A>(args: &[Expr<A>], number: u32) -> Option<Piece<'_, A>>
    ensures { option_map piece_of result ≡ pure.nth_exp (exprs_of args.now) number }
{
    match nth(args, number) {
        None => None,
        Some(of) => Some(Piece::Expr(of)),
    }
}

/// The statement of this number.
fn nth_stmt<A>(body: &[Stmt<A>], number: u32) -> Option<Piece<'_, A>>
    ensures { option_map piece_of result ≡ pure.nth_stmt (stmts_of body.now) number }
{
    match nth(body, number) {
        None => None,
        Some(of) => Some(Piece::Stmt(of)),
    }
}

fn else_stmt<A>(no: &Option<Box<Stmt<A>>>) -> Option<Piece<'_, A>>
    ensures { option_map piece_of result ≡ pure.else_stmt (else_of no.now) }
{
    match no {
        None => None,
        Some(of) => Some(Piece::Stmt(of)),
    }
}

fn in_branch<'a, A>(
    test: &'a Expr<A>,
    yes: &'a Stmt<A>,
    no: &'a Option<Box<Stmt<A>>>,
    number: u32,
) -> Option<Piece<'a, A>>
    ensures { option_map piece_of result
        ≡ pure.in_branch (expr_of test.now) (stmt_of yes.now) (else_of no.now) number }
{
    match number {
        0 => Some(Piece::Expr(test)),
        1 => Some(Piece::Stmt(yes)),
        2 => else_stmt(no),
        _ => None,
    }
}

fn in_loop<'a, A>(test: &'a Expr<A>, body: &'a Stmt<A>, number: u32) -> Option<Piece<'a, A>>
    ensures { option_map piece_of result
        ≡ pure.in_loop (expr_of test.now) (stmt_of body.now) number }
{
    match number {
        0 => Some(Piece::Expr(test)),
        1 => Some(Piece::Stmt(body)),
        _ => None,
    }
}

fn in_sync<'a, A>(object: &'a Expr<A>, body: &'a [Stmt<A>], number: u32) -> Option<Piece<'a, A>>
    ensures { option_map piece_of result
        ≡ pure.in_sync (expr_of object.now) (stmts_of body.now) number }
{
    match number.checked_sub(1) {
        None => Some(Piece::Expr(object)),
        Some(number) => nth_stmt(body, number),
    }
}

#[tactic(auto, unfolding(jr_ast::specs::View::stmt_kind))]
fn stmt_part<A>(of: &Stmt<A>, number: u32) -> Option<Piece<'_, A>>
    ensures { option_map piece_of result ≡ pure.stmt_part (stmt_of of.now) number }
{
    match &of.kind {
        StmtKind::Local {
            is_final: _,
            ty: _,
            name: _,
            init,
        } => as_only(2, init, number),
        StmtKind::Eval(value) => as_only(0, value, number),
        StmtKind::If(test, yes, no) => in_branch(test, yes, no, number),
        StmtKind::While(test, body) => in_loop(test, body, number),
        StmtKind::Return(value) => maybe_at(0, value, number),
        StmtKind::Block(body) => nth_stmt(body, number),
        StmtKind::Sync(object, body) => in_sync(object, body, number),
        StmtKind::Empty => None,
    }
}

/// The number that is left of one behind modifiers, `words` other parts, and parameters.
pub(crate) fn left_of(number: u32, modifiers: usize, words: u32, params: usize) -> Option<u32>
    ensures { SomeIff result (suc (modifiers + words) + params ≤ number)
        (number - (suc (modifiers + words) + params)) }
{
    let left = (number as usize).checked_sub(modifiers)?;
    let left = left.checked_sub(1)?;
    let left = left.checked_sub(words as usize)?;
    let left = left.checked_sub(params)?;
    Some(left as u32)
}

/// How many of a method's parts are its result.
pub(crate) fn results<A>(result_type: &Option<TypeRef<A>>) -> u32
    ensures { result ≡ pure.results (option_map type_of result_type.now) }
{
    match result_type {
        None => 0,
        Some(_) => 1,
    }
}

fn method_part<'a, A>(
    modifiers: &[Modifier<A>],
    result_type: &Option<TypeRef<A>>,
    params: &[Param<A>],
    body: &'a [Stmt<A>],
    number: u32,
) -> Option<Piece<'a, A>>
    ensures { option_map piece_of result ≡ behind None (pure.method_front
        (map modifier_of modifiers.now) (option_map type_of result_type.now)
        (map param_of params.now)) (pure.nth_stmt (stmts_of body.now)) number }
{
    match left_of(number, modifiers.len(), results(result_type), params.len()) {
        None => None,
        Some(number) => nth_stmt(body, number),
    }
}

/// An argument, or a statement behind the arguments.
fn exps_then<'a, A>(args: &'a [Expr<A>], body: &'a [Stmt<A>], number: u32) -> Option<Piece<'a, A>>
    ensures { option_map piece_of result
        ≡ pure.exps_then (exprs_of args.now) (stmts_of body.now) number }
{
    match (number as usize).checked_sub(args.len()) {
        None => nth_exp(args, number),
        Some(left) => nth_stmt(body, left as u32),
    }
}

fn in_constructor<'a, A>(
    args: &'a Option<Vec<Expr<A>>>,
    body: &'a [Stmt<A>],
    number: u32,
) -> Option<Piece<'a, A>>
    ensures { option_map piece_of result
        ≡ pure.in_constructor (args_of args.now) (stmts_of body.now) number }
{
    match args {
        None => nth_stmt(body, number),
        Some(args) => exps_then(args, body, number),
    }
}

fn constructor_part<'a, A>(
    modifiers: &[Modifier<A>],
    params: &[Param<A>],
    args: &'a Option<Vec<Expr<A>>>,
    body: &'a [Stmt<A>],
    number: u32,
) -> Option<Piece<'a, A>>
    ensures { option_map piece_of result ≡ behind None (pure.constructor_front
        (map modifier_of modifiers.now) (map param_of params.now))
        (pure.in_constructor (args_of args.now) (stmts_of body.now)) number }
{
    match left_of(number, modifiers.len(), 0, params.len()) {
        None => None,
        Some(number) => in_constructor(args, body, number),
    }
}

/// A field's initializer.
fn field_part<'a, A>(
    modifiers: &[Modifier<A>],
    init: &'a Option<Expr<A>>,
    number: u32,
) -> Option<Piece<'a, A>>
    ensures { option_map piece_of result ≡ behind None
        (suc (suc (length (map modifier_of modifiers.now))))
        (pure.maybe_at 0 (option_map expr_of init.now)) number }
{
    match left_of(number, modifiers.len(), 1, 0) {
        None => None,
        Some(number) => maybe_at(0, init, number),
    }
}

#[tactic(auto, unfolding(jr_ast::specs::View::member_kind))]
fn member_part<A>(of: &Member<A>, number: u32) -> Option<Piece<'_, A>>
    ensures { option_map piece_of result ≡ pure.member_part (member_of of.now) number }
{
    match &of.kind {
        MemberKind::Field {
            modifiers,
            ty: _,
            name: _,
            init,
        } => field_part(modifiers, init, number),
        MemberKind::Method {
            modifiers,
            ret,
            name: _,
            params,
            body,
        } => method_part(modifiers, ret, params, body, number),
        MemberKind::Ctor {
            modifiers,
            name: _,
            params,
            parent_args,
            body,
        } => constructor_part(modifiers, params, parent_args, body, number),
        MemberKind::Inner(_) => None,
    }
}

fn expr_part<A>(of: &Expr<A>, number: u32) -> Option<Piece<'_, A>>
    ensures { option_map piece_of result ≡ pure.part_of (pure.exp (expr_of of.now)) number }
{
    match expr_in(parts_of(of), number) {
        None => None,
        Some(of) => Some(Piece::Expr(of)),
    }
}

/// The part of this number, if it is an expression or a statement.
pub(crate) fn part<'a, A>(of: &Piece<'a, A>, number: u32) -> Option<Piece<'a, A>>
    ensures { option_map piece_of result ≡ pure.part_of (piece_of of.now) number }
{
    match of {
        Piece::Member(of) => member_part(*of, number),
        Piece::Stmt(of) => stmt_part(*of, number),
        Piece::Expr(of) => expr_part(*of, number),
    }
}

/// The first byte of a piece whose parent begins at `base`.
pub(crate) fn begin<A: Mark>(of: &Piece<'_, A>, base: u32) -> u32
    requires fits { FitsPiece A.span_from A.fits_at base (piece_of of.now) }
    ensures { result ≡ begins_by A.span_from (pure.mark_of (piece_of of.now)) base }
{
    match of {
        Piece::Member(of) => of.mark.span(base).from,
        Piece::Stmt(of) => of.mark.span(base).from,
        Piece::Expr(of) => of.mark.span(base).from,
    }
}

/// A piece whose parent begins at the byte `base` of the file.
#[derive(Drop)]
pub(crate) struct Placed<'a, A> {
    pub(crate) of: Piece<'a, A>,
    pub(crate) base: u32,
}

/// The piece to which a path leads from a member whose parent begins at `base`.
pub(crate) fn piece_at<'a, A: Mark>(
    member: &'a Member<A>,
    base: u32,
    steps: &[u32],
) -> Option<Placed<'a, A>>
    requires fits { FitsPiece A.span_from A.fits_at base (pure.member (member_of member.now)) }
    ensures spots { option_map (λ p. spotted A.span_from p.base steps.now (piece_of p.of)) result
        ≡ pure.piece_at (spotted A.span_from base [] (pure.member (member_of member.now)))
        steps.now }
    ensures fits { IfSome result (λ p. FitsPiece A.span_from A.fits_at p.base (piece_of p.of)) }
{
    let mut of = Piece::Member(member);
    let mut base = base;
    for step in steps {
        let at = begin(&of, base);
        of = part(&of, *step)?;
        base = at;
    }
    Some(Placed { of, base })
}
