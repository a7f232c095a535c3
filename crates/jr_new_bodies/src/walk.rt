//! The walk over an expression.
ghost use Rattle.std.specs.Prelude.{◌≡◌, ◌++◌, ◌∷◌, [], IfOk, suc};
ghost use Rattle.jr_ast.specs.Tree as tree;
ghost use Rattle.jr_ast.specs.View.{word_of, type_of, expr_of, exprs_of, target_of};
ghost use Rattle.jr_table.specs.Binding.{value, left};
ghost use Rattle.jr_grammar.specs.Shape.{rank_of};
ghost use Rattle.jr_rewrite.specs.Spots.{level, a_target};
ghost use Rattle.jr_bind_expr.specs.Fits.{FitsType};
ghost use Rattle.jr_new_words.specs.ChoiceView.{choice_of};
ghost use Rattle.jr_new_bodies.specs.Known.{role_of, rows_of, context_of, IsKnown, TypeIsBound};
ghost use Rattle.jr_new_bodies.specs.Known.{ExpReady, RowReady, TargetReady, TypesRow};
ghost use Rattle.jr_new_bodies.specs.Known.{TypesCreation, first_of};
ghost use Rattle.jr_new_bodies.specs.Known as pure;
ghost use Rattle.jr_new_bodies.specs.Walks as gives;
ghost use Rattle.jr_new_bodies.specs.OutputView.{gathered};

use crate::called::call_choice;
use crate::chosen::dotted_choice;
use crate::here::{Here, Role, below, next};
use crate::levels::{SIGN_LEVEL, UNSIGNED_LEVEL, asked_by, rank};
use crate::node_words::{boxed_creation_words, call_word, called_on_super, on_super, simple};
use crate::outputs::{Output, put_end, put_front, put_part, start_of};
use crate::spots::part_at;
use crate::type_names::{boxed_type, written_type};
use jr_ast::{BinOp, Expr, ExprKind, Ident, Path, TypeRef};
use jr_new_words::Choice;
use jr_text::{Mark, Span};
use std::alloc::{AllocError, Global};

/// The number of a call's first argument among its parts.
fn first_argument<A>(target: &Option<Box<Expr<A>>>) -> u32
    ensures { result ≡ first_of (target_of target.now) }
{
    match target {
        None => 1,
        Some(_) => 2,
    }
}

/// What comes of an expression.
#[cycle(walk)]
pub(crate) fn expr<A: Mark>(
    alloc: Global,
    here: &Here<'_>,
    role: Role,
    path: &Path,
    base: u32,
    of: &Expr<A>,
    out: &mut Output,
) -> Result<(), AllocError>
    requires known { IsKnown here.now }
    requires ready { ExpReady A.span_from A.fits_at here.now (role_of role)
        path.now.steps.items base (expr_of of.now) }
    ensures { IfOk result (λ _. gives.ExpGathers A.span_from here.now (role_of role) base
        (expr_of of.now) (gathered out.old) (gathered out.new)) }
{
    let span = of.mark.span(base);
    let at = span.from;
    match &of.kind {
        ExprKind::Int(_) => Ok(()),
        ExprKind::Bool(_) => Ok(()),
        ExprKind::Null => Ok(()),
        ExprKind::Text(_) => Ok(()),
        ExprKind::This => Ok(()),
        ExprKind::ClassLit(ty) => written_type(alloc, here, at, ty, out),
        ExprKind::Simple(name) => simple(alloc, here, role, at, name, out),
        ExprKind::Field(part, name) => field(alloc, here, role, path, at, part, name, out),
        ExprKind::SuperField(name) => on_super(alloc, here, span, name, out),
        ExprKind::Call(target, name, args) => call(alloc, here, path, at, target, name, args, out),
        ExprKind::SuperCall(name, args) => super_call(alloc, here, path, at, name, args, out),
        ExprKind::New(ty, args) => create(alloc, here, path, at, ty, args, out),
        ExprKind::Paren(part) => operand(alloc, here, 0, path, 0, at, part, out),
        ExprKind::Cast(ty, part) => cast(alloc, here, path, at, ty, part, out),
        ExprKind::Unary(_, part) => operand(alloc, here, SIGN_LEVEL, path, 0, at, part, out),
        ExprKind::Bump(_, part) => target(alloc, here, path, at, part, out),
        ExprKind::Binary(op, left, right) => pair(alloc, here, *op, path, at, left, right, out),
        ExprKind::Assign(to, value) => assigned(alloc, here, path, at, to, value, out),
        ExprKind::Compound(_, to, value) => assigned(alloc, here, path, at, to, value, out),
    }
}

/// Gathers what comes of an expression that is used for its value and goes elsewhere, so that it is
/// no spot itself. It stands at its path in a node whose first byte is `base`. The only fault is
/// want of memory.
pub fn piece<A: Mark>(
    alloc: Global,
    here: &Here<'_>,
    path: &Path,
    base: u32,
    of: &Expr<A>,
    out: &mut Output,
) -> Result<(), AllocError>
    requires known { IsKnown here.now }
    requires ready { ExpReady A.span_from A.fits_at here.now value path.now.steps.items base
        (expr_of of.now) }
    ensures { IfOk result (λ _. gives.ExpGathers A.span_from here.now value base
        (expr_of of.now) (gathered out.old) (gathered out.new)) }
{
    expr(alloc, here, Role::Value, path, base, of, out)
}

/// An expression that has to bind so tightly, at its path, in a node that begins at `base`: as a
/// spot has it, or node by node.
#[cycle(walk)]
fn asked<A: Mark>(
    alloc: Global,
    here: &Here<'_>,
    role: Role,
    least: u32,
    path: &Path,
    base: u32,
    of: &Expr<A>,
    out: &mut Output,
) -> Result<(), AllocError>
    requires known { IsKnown here.now }
    requires ready { ExpReady A.span_from A.fits_at here.now (role_of role)
        path.now.steps.items base (expr_of of.now) }
    ensures { IfOk result (λ _. gives.PartGathers A.span_from here.now (level least)
        (role_of role) base (expr_of of.now) (gathered out.old) (gathered out.new)) }
{
    match part_at(&here.spots, of.mark.span(base)) {
        None => expr(alloc, here, role, path, base, of, out),
        Some(spot) => put_part(alloc, spot, least, out),
    }
}

/// An operand, which is the part of this number, and has to bind so tightly.
#[cycle(walk)]
pub(crate) fn operand<A: Mark>(
    alloc: Global,
    here: &Here<'_>,
    least: u32,
    path: &Path,
    step: u32,
    at: u32,
    part: &Expr<A>,
    out: &mut Output,
) -> Result<(), AllocError>
    requires known { IsKnown here.now }
    requires ready { ExpReady A.span_from A.fits_at here.now value
        (path.now.steps.items ++ step ∷ []) at (expr_of part.now) }
    ensures { IfOk result (λ _. gives.PartGathers A.span_from here.now (level least) value at
        (expr_of part.now) (gathered out.old) (gathered out.new)) }
{
    let inner = below(alloc, path, step)?;
    asked(alloc, here, Role::Value, least, &inner, at, part, out)
}

/// What is assigned, the first part, which is no spot.
#[cycle(walk)]
fn target<A: Mark>(
    alloc: Global,
    here: &Here<'_>,
    path: &Path,
    at: u32,
    of: &Expr<A>,
    out: &mut Output,
) -> Result<(), AllocError>
    requires known { IsKnown here.now }
    requires ready { ExpReady A.span_from A.fits_at here.now value
        (path.now.steps.items ++ 0 ∷ []) at (expr_of of.now) }
    ensures { IfOk result (λ _. gives.PartGathers A.span_from here.now a_target value at
        (expr_of of.now) (gathered out.old) (gathered out.new)) }
{
    let inner = below(alloc, path, 0)?;
    expr(alloc, here, Role::Value, &inner, at, of, out)
}

/// The operands of a binary operator, of which the second has to bind more tightly (JLS 15.7).
#[cycle(walk)]
fn pair<A: Mark>(
    alloc: Global,
    here: &Here<'_>,
    op: BinOp,
    path: &Path,
    at: u32,
    left: &Expr<A>,
    right: &Expr<A>,
    out: &mut Output,
) -> Result<(), AllocError>
    requires known { IsKnown here.now }
    requires ready_left { ExpReady A.span_from A.fits_at here.now value
        (path.now.steps.items ++ 0 ∷ []) at (expr_of left.now) }
    requires ready_right { ExpReady A.span_from A.fits_at here.now value
        (path.now.steps.items ++ 1 ∷ []) at (expr_of right.now) }
    ensures { IfOk result (λ _. gives.PairGathers A.span_from here.now (level (rank_of op))
        (level (suc (rank_of op))) at (expr_of left.now) (expr_of right.now)
        (gathered out.old) (gathered out.new)) }
{
    let least = rank(op);
    operand(alloc, here, least, path, 0, at, left, out)?;
    operand(alloc, here, least + 1, path, 1, at, right, out)
}

/// A target, and what is assigned to it.
#[cycle(walk)]
fn assigned<A: Mark>(
    alloc: Global,
    here: &Here<'_>,
    path: &Path,
    at: u32,
    to: &Expr<A>,
    of: &Expr<A>,
    out: &mut Output,
) -> Result<(), AllocError>
    requires known { IsKnown here.now }
    requires ready_to { ExpReady A.span_from A.fits_at here.now value
        (path.now.steps.items ++ 0 ∷ []) at (expr_of to.now) }
    requires ready_value { ExpReady A.span_from A.fits_at here.now value
        (path.now.steps.items ++ 1 ∷ []) at (expr_of of.now) }
    ensures { IfOk result (λ _. gives.PairGathers A.span_from here.now a_target (level 0) at
        (expr_of to.now) (expr_of of.now) (gathered out.old) (gathered out.new)) }
{
    target(alloc, here, path, at, to, out)?;
    operand(alloc, here, 0, path, 1, at, of, out)
}

/// A type and an operand.
#[cycle(walk)]
fn cast<A: Mark>(
    alloc: Global,
    here: &Here<'_>,
    path: &Path,
    at: u32,
    ty: &Box<TypeRef<A>>,
    part: &Expr<A>,
    out: &mut Output,
) -> Result<(), AllocError>
    requires known { IsKnown here.now }
    requires fits { FitsType (λ m b. (A.span_from m b).from) A.fits_at at (type_of ty.now.value) }
    requires bound { TypeIsBound (λ m b. (A.span_from m b).from) (rows_of here.now)
        (context_of here.now) at (type_of ty.now.value) }
    requires ready { ExpReady A.span_from A.fits_at here.now value
        (path.now.steps.items ++ 1 ∷ []) at (expr_of part.now) }
    ensures { IfOk result (λ _. gives.CastGathers A.span_from here.now at (type_of ty.now.value)
        (expr_of part.now) (gathered out.old) (gathered out.new)) }
{
    boxed_type(alloc, here, at, ty, out)?;
    operand(alloc, here, UNSIGNED_LEVEL, path, 1, at, part, out)
}

/// An operand, and the word behind its dot, for which this is chosen.
#[cycle(walk)]
fn operand_and_word<A: Mark>(
    alloc: Global,
    here: &Here<'_>,
    path: &Path,
    at: u32,
    part: &Expr<A>,
    word: Span,
    choice: Choice,
    out: &mut Output,
) -> Result<(), AllocError>
    requires known { IsKnown here.now }
    requires ready { ExpReady A.span_from A.fits_at here.now left path.now.steps.items at
        (expr_of part.now) }
    ensures { IfOk result (λ _. gives.DottedGathers A.span_from here.now (choice_of choice) at
        word (expr_of part.now) (gathered out.old) (gathered out.new)) }
{
    let operand = part.mark.span(at);
    let least = asked_by(&choice);
    put_front(alloc, operand, &choice, out)?;
    let from = start_of(out);
    asked(alloc, here, Role::Left, least, path, at, part, out)?;
    put_end(alloc, operand, word, from, choice, out)
}

/// A name behind an operand and a dot.
#[cycle(walk)]
fn field<A: Mark>(
    alloc: Global,
    here: &Here<'_>,
    role: Role,
    path: &Path,
    at: u32,
    part: &Expr<A>,
    name: &Ident<A>,
    out: &mut Output,
) -> Result<(), AllocError>
    requires known { IsKnown here.now }
    requires ready { ExpReady A.span_from A.fits_at here.now left
        (path.now.steps.items ++ 0 ∷ []) at (expr_of part.now) }
    requires fits { A.fits_at name.now.mark at }
    requires bound { pure.DottedIsBound (λ m b. (A.span_from m b).from) (rows_of here.now)
        (context_of here.now) (role_of role) (expr_of part.now) name.now.name }
    ensures { IfOk result (λ _. gives.FieldGathers A.span_from here.now (role_of role) at
        (expr_of part.now) (word_of name.now) (gathered out.old) (gathered out.new)) }
{
    let word = name.mark.span(at);
    let inner = below(alloc, path, 0)?;
    let choice = dotted_choice(alloc, here, role, &inner, at, part, word.from, &name.name)?;
    operand_and_word(alloc, here, &inner, at, part, word, choice, out)
}

/// A call on an operand, without its arguments.
#[cycle(walk)]
fn call_on<A: Mark>(
    alloc: Global,
    here: &Here<'_>,
    path: &Path,
    at: u32,
    part: &Expr<A>,
    name: &Ident<A>,
    args: &[Expr<A>],
    out: &mut Output,
) -> Result<(), AllocError>
    requires known { IsKnown here.now }
    requires ready { ExpReady A.span_from A.fits_at here.now left
        (path.now.steps.items ++ 0 ∷ []) at (expr_of part.now) }
    requires fits { A.fits_at name.now.mark at }
    requires types { TypesRow here.now (context_of here.now) path.now.steps.items 2
        (exprs_of args.now) }
    requires bound { pure.CallIsBound (λ m b. (A.span_from m b).from) (rows_of here.now)
        (context_of here.now) (tree.on (expr_of part.now)) name.now.name (exprs_of args.now) }
    ensures { IfOk result (λ _. gives.CallOnGathers A.span_from here.now at (expr_of part.now)
        (word_of name.now) (exprs_of args.now) (gathered out.old) (gathered out.new)) }
{
    let word = name.mark.span(at);
    let inner = below(alloc, path, 0)?;
    let choice = call_choice(
        alloc, here, path, &inner, at, part, args, word.from, &name.name,
    )?;
    operand_and_word(alloc, here, &inner, at, part, word, choice, out)
}

/// A call's target and word.
#[cycle(walk)]
fn target_word<A: Mark>(
    alloc: Global,
    here: &Here<'_>,
    path: &Path,
    at: u32,
    target: &Option<Box<Expr<A>>>,
    name: &Ident<A>,
    args: &[Expr<A>],
    out: &mut Output,
) -> Result<(), AllocError>
    requires known { IsKnown here.now }
    requires ready { TargetReady A.span_from A.fits_at here.now path.now.steps.items at
        (target_of target.now) }
    requires fits { A.fits_at name.now.mark at }
    requires types { TypesRow here.now (context_of here.now) path.now.steps.items
        (first_of (target_of target.now)) (exprs_of args.now) }
    requires bound { pure.CallIsBound (λ m b. (A.span_from m b).from) (rows_of here.now)
        (context_of here.now) (target_of target.now) name.now.name (exprs_of args.now) }
    ensures { IfOk result (λ _. gives.TargetGathers A.span_from here.now at
        (target_of target.now) (word_of name.now) (exprs_of args.now) (gathered out.old)
        (gathered out.new)) }
{
    match target {
        None => call_word(alloc, here, path, at, name, args, out),
        Some(part) => call_on(alloc, here, path, at, part, name, args, out),
    }
}

/// A call.
#[cycle(walk)]
fn call<A: Mark>(
    alloc: Global,
    here: &Here<'_>,
    path: &Path,
    at: u32,
    target: &Option<Box<Expr<A>>>,
    name: &Ident<A>,
    args: &[Expr<A>],
    out: &mut Output,
) -> Result<(), AllocError>
    requires known { IsKnown here.now }
    requires ready { TargetReady A.span_from A.fits_at here.now path.now.steps.items at
        (target_of target.now) }
    requires ready_args { RowReady A.span_from A.fits_at here.now path.now.steps.items
        (first_of (target_of target.now)) at (exprs_of args.now) }
    requires fits { A.fits_at name.now.mark at }
    requires bound { pure.CallIsBound (λ m b. (A.span_from m b).from) (rows_of here.now)
        (context_of here.now) (target_of target.now) name.now.name (exprs_of args.now) }
    ensures { IfOk result (λ _. gives.CallGathers A.span_from here.now at
        (target_of target.now) (word_of name.now) (exprs_of args.now) (gathered out.old)
        (gathered out.new)) }
{
    target_word(alloc, here, path, at, target, name, args, out)?;
    exprs(alloc, here, path, first_argument(target), at, args, out)
}

/// A call behind `super`.
#[cycle(walk)]
fn super_call<A: Mark>(
    alloc: Global,
    here: &Here<'_>,
    path: &Path,
    at: u32,
    name: &Ident<A>,
    args: &[Expr<A>],
    out: &mut Output,
) -> Result<(), AllocError>
    requires known { IsKnown here.now }
    requires ready { RowReady A.span_from A.fits_at here.now path.now.steps.items 1 at
        (exprs_of args.now) }
    requires fits { A.fits_at name.now.mark at }
    requires bound { pure.SuperCallIsBound (λ m b. (A.span_from m b).from) (rows_of here.now)
        (context_of here.now) name.now.name (exprs_of args.now) }
    ensures { IfOk result (λ _. gives.SuperCallGathers A.span_from here.now at
        (word_of name.now) (exprs_of args.now) (gathered out.old) (gathered out.new)) }
{
    called_on_super(alloc, here, path, at, name, args, out)?;
    exprs(alloc, here, path, 1, at, args, out)
}

/// A creation.
#[cycle(walk)]
fn create<A: Mark>(
    alloc: Global,
    here: &Here<'_>,
    path: &Path,
    at: u32,
    ty: &Box<TypeRef<A>>,
    args: &[Expr<A>],
    out: &mut Output,
) -> Result<(), AllocError>
    requires known { IsKnown here.now }
    requires fits { FitsType (λ m b. (A.span_from m b).from) A.fits_at at (type_of ty.now.value) }
    requires ready { RowReady A.span_from A.fits_at here.now path.now.steps.items 1 at
        (exprs_of args.now) }
    requires created { TypesCreation here.now (context_of here.now) path.now.steps.items
        (type_of ty.now.value) (exprs_of args.now) }
    requires type_bound { TypeIsBound (λ m b. (A.span_from m b).from) (rows_of here.now)
        (context_of here.now) at (type_of ty.now.value) }
    requires bound { pure.CreationIsBound (λ m b. (A.span_from m b).from) (rows_of here.now)
        (context_of here.now) (type_of ty.now.value) (exprs_of args.now) }
    ensures { IfOk result (λ _. gives.CreateGathers A.span_from here.now at (type_of ty.now.value)
        (exprs_of args.now) (gathered out.old) (gathered out.new)) }
{
    boxed_creation_words(alloc, here, path, at, ty, args, out)?;
    exprs(alloc, here, path, 1, at, args, out)
}

/// Arguments, the first of which is the part of this number.
#[cycle(walk)]
pub fn exprs<A: Mark>(
    alloc: Global,
    here: &Here<'_>,
    path: &Path,
    first: u32,
    at: u32,
    parts: &[Expr<A>],
    out: &mut Output,
) -> Result<(), AllocError>
    requires known { IsKnown here.now }
    requires ready { RowReady A.span_from A.fits_at here.now path.now.steps.items first at
        (exprs_of parts.now) }
    ensures { IfOk result (λ _. gives.RowGathers A.span_from here.now at (exprs_of parts.now)
        (gathered out.old) (gathered out.new)) }
{
    let mut step = first;
    for part in parts {
        operand(alloc, here, 0, path, step, at, part, out)?;
        step = next(step)?;
    }
    Ok(())
}
