//! An expression of a body of which a local can take the value.
ghost use Rattle.std.specs.Prelude.{◌≡◌, IfOk, option_map};
ghost use Rattle.jr_ast.specs.View.{expr_of, stmts_of};
ghost use Rattle.jr_table.specs.TypeView.{ty_of};
ghost use Rattle.jr_piece_search.specs.StatementView.{found_of};
ghost use Rattle.jr_piece_search.specs.StepView.{use_of};
ghost use Rattle.jr_local_finds.specs.SoughtValues as pure;
ghost use Rattle.jr_local_finds.specs.ValueView.{value_of};

use jr_ast::{Expr, ExprKind, Path};
use jr_bind::Bound;
use jr_bodies::Code;
use jr_piece_search::{Found, Usage, find, none_has_the_span};
use jr_table::{Facts, Ty};
use jr_text::Span;
use jr_told_ways::one_way_has_a_span;
use std::alloc::{AllocError, Global};

/// An expression, its path from the member, and its type.
#[derive(Drop)]
pub struct Value<'a> {
    pub found: Found<'a>,
    pub path: Path,
    pub ty: &'a Ty,
}

fn is_valued(usage: Usage) -> bool
    ensures { result ≡ pure.is_valued (use_of usage) }
{
    match usage {
        Usage::Valued => true,
        Usage::Assigned => false,
        Usage::Changed => false,
        Usage::Stated => false,
    }
}

/// Whether it is the literal that stands behind a minus alone (JLS 3.10.1).
#[tactic(auto, unfolding(jr_ast::specs::View::expr_kind))]
fn is_greatest(of: &Expr<Span>) -> bool
    ensures { result ≡ pure.is_greatest (expr_of of.now) }
{
    match &of.kind {
        ExprKind::Int(number) => *number == 2147483648,
        ExprKind::Simple(_) => false,
        ExprKind::Bool(_) => false,
        ExprKind::Null => false,
        ExprKind::Text(_) => false,
        ExprKind::Field(_, _) => false,
        ExprKind::SuperField(_) => false,
        ExprKind::This => false,
        ExprKind::ClassLit(_) => false,
        ExprKind::Call(_, _, _) => false,
        ExprKind::SuperCall(_, _) => false,
        ExprKind::New(_, _) => false,
        ExprKind::Paren(_) => false,
        ExprKind::Cast(_, _) => false,
        ExprKind::Unary(_, _) => false,
        ExprKind::Bump(_, _) => false,
        ExprKind::Binary(_, _, _) => false,
        ExprKind::Assign(_, _) => false,
        ExprKind::Compound(_, _, _) => false,
    }
}

/// Whether it is used for its value, and isn't that literal.
fn is_taken(found: &Found<'_>) -> bool
    ensures { result ≡ pure.is_taken (found_of found.now) }
{
    is_valued(found.usage) & !is_greatest(found.value)
}

/// Whether a local can have the type.
fn is_kept(ty: &Ty) -> bool
    ensures { result ≡ pure.is_kept (ty_of ty.now) }
{
    match ty {
        Ty::Int => true,
        Ty::Boolean => true,
        Ty::Void => false,
        Ty::Null => false,
        Ty::Class(_) => true,
    }
}

/// What is found, where it is a value.
fn suited<'a>(bound: &'a Bound, found: Found<'a>, path: Path) -> Option<Value<'a>>
    ensures { option_map value_of result
        ≡ pure.suited bound.now.types (found_of found.entry) path.steps.items }
{
    if !is_taken(&found) {
        drop(path);
        return None;
    }
    match bound.ty(&path) {
        None => {
            drop(path);
            None
        }
        Some(ty) => {
            if is_kept(ty) {
                Some(Value { found, path, ty })
            } else {
                drop(path);
                None
            }
        }
    }
}

fn chosen<'a>(bound: &'a Bound, found: Option<Found<'a>>, path: Path) -> Option<Value<'a>>
    ensures { option_map value_of result
        ≡ pure.chosen bound.now.types (option_map found_of found.entry) path.steps.items }
{
    match found {
        None => {
            drop(path);
            None
        }
        Some(found) => suited(bound, found, path),
    }
}

/// The expression of exactly this span in the code of a member of which this is bound, where a
/// local can take its value. The only fault is want of memory.
pub(crate) fn value_in<'a>(
    alloc: Global,
    bound: &'a Bound,
    code: &Code<'a>,
    span: &Span,
) -> Result<Option<Value<'a>>, AllocError>
    ensures { IfOk result (λ o. pure.IsSought (stmts_of code.now.list.now) code.now.front
        bound.now.types span.now (option_map value_of o)) }
{
    none_has_the_span();
    one_way_has_a_span::<Span>();
    let mut steps = Vec::new(alloc);
    let found = find(span, code.front, code.list, &mut steps)?;
    Ok(chosen(bound, found, Path { steps }))
}
