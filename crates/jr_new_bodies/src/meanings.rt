//! What binding knows of expressions.
ghost use Rattle.std.specs.Prelude.{◌≡◌, ◌++◌, ◌∷◌, [], IfOk, Some, option_map, option_and_then};
ghost use Rattle.jr_ast.specs.View.{word_of, expr_of, exprs_of};
ghost use Rattle.jr_table.specs.TypeView.{class_key_of, ty_of};
ghost use Rattle.jr_table.specs.KeyView.{decl_of};
ghost use Rattle.jr_table.specs.Binding.{left};
ghost use Rattle.jr_bind_expr.specs.Fits.{FitsExp};
ghost use Rattle.jr_new_bodies.specs.Known as pure;
ghost use Rattle.jr_new_bodies.specs.Known.{rows_of, context_of, IsKnown, ExpReady};
ghost use Rattle.jr_new_bodies.specs.Known.{SoundExp, RefersExp, TypesRow, found_at};
ghost use Rattle.jr_new_bodies.specs.MeaningView as meaning;
ghost use Rattle.jr_new_bodies.specs.MeaningView.{class_in, IsValueIn, IsNamed, IsBefore, AreTypes};
ghost use Rattle.jr_new_bodies.specs.MeaningView.{types_from};

use crate::here::{Here, below, next};
use jr_ast::{Expr, ExprKind, Ident, Path};
use jr_table::{ClassKey, Decl, Facts, Ty, Tys, lookups_are_exact, types_are_exact};
use jr_text::Mark;
use std::alloc::{AllocError, Global};

/// What stands in front of a dot: the name of a class, a value of a class, or neither.
#[derive(Clone, Copy, Drop)]
pub(crate) enum Before<'a> {
    Class(&'a ClassKey),
    Value(&'a ClassKey),
    Neither,
}

/// What the reference at a byte of the file is bound to.
fn decl_at<'a>(here: &Here<'a>, at: u32) -> Option<&'a Decl>
    ensures { option_map (λ d. decl_of d.now) result ≡ found_at here.now at }
{
    if at < here.from {
        None
    } else {
        here.bound.decl(at - here.from)
    }
}

fn as_class(decl: &Decl) -> Option<&ClassKey>
    ensures { option_map (λ k. class_key_of k.now) result ≡ class_in (decl_of decl.now) }
{
    match decl {
        Decl::Class(key) => Some(key),
        Decl::Field(_) => None,
        Decl::Method(_) => None,
        Decl::Ctor(_) => None,
        Decl::Local(_) => None,
    }
}

/// The class to which the reference at a byte of the file is bound.
fn class_found<'a>(here: &Here<'a>, at: u32) -> Option<&'a ClassKey>
    ensures { option_map (λ k. class_key_of k.now) result
        ≡ option_and_then class_in (found_at here.now at) }
{
    match decl_at(here, at) {
        None => None,
        Some(decl) => as_class(decl),
    }
}

/// The last word of what may be a class's name.
#[tactic(auto, unfolding(jr_ast::specs::View::expr_kind))]
fn last_word<A>(of: &Expr<A>) -> Option<&Ident<A>>
    ensures { option_map (λ n. word_of n.now) result ≡ meaning.last_word (expr_of of.now) }
{
    match &of.kind {
        ExprKind::Int(_) => None,
        ExprKind::Bool(_) => None,
        ExprKind::Null => None,
        ExprKind::Text(_) => None,
        ExprKind::Simple(name) => Some(name),
        ExprKind::Field(_, name) => Some(name),
        ExprKind::SuperField(_) => None,
        ExprKind::This => None,
        ExprKind::ClassLit(_) => None,
        ExprKind::Call(_, _, _) => None,
        ExprKind::SuperCall(_, _) => None,
        ExprKind::New(_, _) => None,
        ExprKind::Paren(_) => None,
        ExprKind::Cast(_, _) => None,
        ExprKind::Unary(_, _) => None,
        ExprKind::Bump(_, _) => None,
        ExprKind::Binary(_, _, _) => None,
        ExprKind::Assign(_, _) => None,
        ExprKind::Compound(_, _, _) => None,
    }
}

/// What stands in front of the dot of a name.
#[tactic(auto, unfolding(jr_ast::specs::View::expr_kind))]
pub(crate) fn front<A>(of: &Expr<A>) -> Option<&Expr<A>>
    ensures { option_map (λ e. expr_of e.now) result ≡ meaning.front (expr_of of.now) }
{
    match &of.kind {
        ExprKind::Int(_) => None,
        ExprKind::Bool(_) => None,
        ExprKind::Null => None,
        ExprKind::Text(_) => None,
        ExprKind::Simple(_) => None,
        ExprKind::Field(part, _) => Some(part),
        ExprKind::SuperField(_) => None,
        ExprKind::This => None,
        ExprKind::ClassLit(_) => None,
        ExprKind::Call(_, _, _) => None,
        ExprKind::SuperCall(_, _) => None,
        ExprKind::New(_, _) => None,
        ExprKind::Paren(_) => None,
        ExprKind::Cast(_, _) => None,
        ExprKind::Unary(_, _) => None,
        ExprKind::Bump(_, _) => None,
        ExprKind::Binary(_, _, _) => None,
        ExprKind::Assign(_, _) => None,
        ExprKind::Compound(_, _, _) => None,
    }
}

/// The class that an expression names in front of a dot.
pub(crate) fn named_class<'a, A: Mark>(
    here: &Here<'a>,
    base: u32,
    of: &Expr<A>,
) -> Option<&'a ClassKey>
    requires fits { FitsExp (λ m b. (A.span_from m b).from) A.fits_at base (expr_of of.now) }
    requires sound { SoundExp (λ m b. (A.span_from m b).from) (rows_of here.now)
        (context_of here.now) left base (expr_of of.now) }
    requires refers { RefersExp (λ m b. (A.span_from m b).from) here.now (context_of here.now)
        left base (expr_of of.now) }
    ensures { IsNamed (rows_of here.now) (context_of here.now) (expr_of of.now)
        (option_map (λ k. class_key_of k.now) result) }
{
    lookups_are_exact();
    types_are_exact::<A>();
    here.scopes.programs.before.keeps_rows();
    let at = of.mark.span(base).from;
    match last_word(of) {
        None => None,
        Some(name) => class_found(here, name.mark.span(at).from),
    }
}

/// The class of a type.
fn class_value(ty: &Ty) -> Before<'_>
    ensures { IsValueIn (Some (ty_of ty.now)) result }
{
    match ty {
        Ty::Int => Before::Neither,
        Ty::Boolean => Before::Neither,
        Ty::Void => Before::Neither,
        Ty::Null => Before::Neither,
        Ty::Class(key) => Before::Value(key),
    }
}

/// The class of the type of the expression to which a path leads.
pub(crate) fn value_at<'a>(here: &Here<'a>, path: &Path) -> Before<'a>
    ensures { IsValueIn (pure.type_at here.now path.now.steps.items) result }
{
    match here.bound.ty(path) {
        None => Before::Neither,
        Some(ty) => class_value(ty),
    }
}

/// What an expression is in front of a dot.
pub(crate) fn before_dot<'a, A: Mark>(
    here: &Here<'a>,
    path: &Path,
    base: u32,
    of: &Expr<A>,
) -> Before<'a>
    requires ready { ExpReady A.span_from A.fits_at here.now left path.now.steps.items base
        (expr_of of.now) }
    ensures { IsBefore (rows_of here.now) (context_of here.now) (expr_of of.now) result }
{
    match named_class(here, base, of) {
        Some(key) => Before::Class(key),
        None => value_at(here, path),
    }
}

fn copy_type(ty: Option<&Ty>) -> Result<Option<Ty>, AllocError>
    ensures { IfOk result (λ o. option_map ty_of o ≡ option_map (λ t. ty_of t.now) ty.entry) }
{
    match ty {
        None => Ok(None),
        Some(ty) => {
            let ty = ty.copy()?;
            Ok(Some(ty))
        }
    }
}

/// The type of the part of a number, of the node to which a path leads.
fn part_type(
    alloc: Global,
    here: &Here<'_>,
    path: &Path,
    step: u32,
) -> Result<Option<Ty>, AllocError>
    ensures { IfOk result (λ o. option_map ty_of o
        ≡ pure.type_at here.now (path.now.steps.items ++ step ∷ [])) }
{
    let inner = below(alloc, path, step)?;
    copy_type(here.bound.ty(&inner))
}

fn part_types<A>(
    alloc: Global,
    here: &Here<'_>,
    path: &Path,
    first: u32,
    parts: &[Expr<A>],
) -> Result<Option<Vec<Ty>>, AllocError>
    ensures { IfOk result (λ ts. option_map (λ v. meaning.types_of v.items) ts ≡ types_from
        (λ n. pure.type_at here.now (path.now.steps.items ++ n ∷ [])) first parts.now) }
{
    let mut types = Vec::new(alloc);
    let mut step = first;
    for _part in parts {
        let ty = part_type(alloc, here, path, step)?;
        match ty {
            None => return Ok(None),
            Some(ty) => types.push(ty)?,
        }
        step = next(step)?;
    }
    Ok(Some(types))
}

/// The types of arguments, the first of which is the part of this number, if each has one.
pub(crate) fn types<A: Mark>(
    alloc: Global,
    here: &Here<'_>,
    path: &Path,
    first: u32,
    parts: &[Expr<A>],
) -> Result<Option<Tys>, AllocError>
    requires types { TypesRow here.now (context_of here.now) path.now.steps.items first
        (exprs_of parts.now) }
    ensures { IfOk result (AreTypes (rows_of here.now) (context_of here.now)
        (exprs_of parts.now)) }
{
    let types = part_types(alloc, here, path, first, parts)?;
    match types {
        None => Ok(None),
        Some(types) => Ok(Some(Tys::from_vec(types)?)),
    }
}
