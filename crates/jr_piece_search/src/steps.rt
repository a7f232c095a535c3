//! The part of an expression into which a search by a span goes.
ghost use Rattle.std.specs.Prelude.{◌≡◌, suc, option_map, IfOk};
ghost use Rattle.jr_ast.specs.Marks.{exp_mark};
ghost use Rattle.jr_ast.specs.View.{expr_of, exprs_of, target_of};
ghost use Rattle.jr_piece_search.specs.Steps as pure;
ghost use Rattle.jr_piece_search.specs.StepView.{step_of, chosen_of, use_of};
ghost use Rattle.jr_pieces.specs.Finding.{is_behind, same_span};
ghost use Rattle.jr_grammar.specs.Layout.{itself};

use jr_ast::{BinOp, Expr, ExprKind};
use jr_text::Span;
use std::alloc::AllocError;

/// How an expression is used.
#[derive(Clone, Copy, Drop)]
pub enum Usage {
    /// For its value.
    Valued,
    /// As what `=` assigns.
    Assigned,
    /// As what `op=`, `++` or `--` changes.
    Changed,
    /// As a whole statement.
    Stated,
}

/// The first bytes of the innermost constructs that may leave a place out, or come to it again:
/// from where a search began, and from the innermost element of a list on.
#[derive(Clone, Copy, Drop)]
pub struct Bars {
    pub outer: Option<u32>,
    pub own: Option<u32>,
}

/// Into a part of an expression, by its number among the children.
#[derive(Drop)]
pub(crate) struct Step<'a> {
    pub number: u32,
    pub usage: Usage,
    /// The operator may leave the part out.
    pub lazy: bool,
    pub part: &'a Expr<Span>,
}

/// One of some arguments, by its number.
#[derive(Drop)]
pub(crate) struct Chosen<'a> {
    pub number: u32,
    pub part: &'a Expr<Span>,
}

/// Whether the span is this one.
pub(crate) fn is_span(part: &Span, span: &Span) -> bool
    ensures { result ≡ same_span part.now span.now }
{
    part.from == span.from && part.to == span.to
}

/// Whether the span ends behind the expression.
pub(crate) fn passes(span: &Span, part: &Expr<Span>) -> bool
    ensures { result ≡ is_behind itself span.now (exp_mark (expr_of part.now)) }
{
    part.mark.to < span.to
}

fn into<'a>(number: u32, usage: Usage, lazy: bool, part: &'a Expr<Span>) -> Option<Step<'a>>
    ensures { option_map step_of result ≡ pure.into number (use_of usage) lazy (expr_of part.now) }
{
    Some(Step {
        number,
        usage,
        lazy,
        part,
    })
}

/// Whether the operator may leave its right operand out (JLS 15.23, 15.24).
fn is_lazy(op: BinOp) -> bool
    ensures { result ≡ pure.is_lazy op }
{
    match op {
        BinOp::Or => true,
        BinOp::And => true,
        BinOp::Eq => false,
        BinOp::Ne => false,
        BinOp::Lt => false,
        BinOp::Gt => false,
        BinOp::Le => false,
        BinOp::Ge => false,
        BinOp::Add => false,
        BinOp::Sub => false,
        BinOp::Mul => false,
        BinOp::Div => false,
        BinOp::Rem => false,
    }
}

/// Into the first of two parts, which is used so, or the second.
fn in_two<'a>(
    span: &Span,
    usage: Usage,
    lazy: bool,
    first: &'a Expr<Span>,
    second: &'a Expr<Span>,
) -> Option<Step<'a>>
    ensures { option_map step_of result ≡ pure.in_two span.now (use_of usage) lazy
        (expr_of first.now) (expr_of second.now) }
{
    if passes(span, first) {
        into(1, Usage::Valued, lazy, second)
    } else {
        into(0, usage, false, first)
    }
}

/// The number behind this one. More parts than numbers don't fit any memory.
pub(crate) fn next(number: u32) -> Result<u32, AllocError>
    ensures { IfOk result (λ n. n ≡ suc number) }
{
    match number.checked_add(1) {
        None => Err(AllocError),
        Some(next) => Ok(next),
    }
}

/// The first argument that doesn't end in front of the span's end; they have numbers from `first`
/// on.
fn choose<'a>(
    span: &Span,
    first: u32,
    args: &'a [Expr<Span>],
) -> Result<Option<Chosen<'a>>, AllocError>
    ensures { IfOk result (λ o. option_map chosen_of o
        ≡ pure.choose span.now first (exprs_of args.now)) }
{
    let mut number = first;
    for part in args {
        if passes(span, part) {
            number = next(number)?;
        } else {
            return Ok(Some(Chosen { number, part }));
        }
    }
    Ok(None)
}

/// Into an argument.
fn in_row<'a>(
    span: &Span,
    first: u32,
    args: &'a [Expr<Span>],
) -> Result<Option<Step<'a>>, AllocError>
    ensures { IfOk result (λ o. option_map step_of o
        ≡ pure.in_row span.now first (exprs_of args.now)) }
{
    match choose(span, first, args)? {
        None => Ok(None),
        Some(chosen) => Ok(into(chosen.number, Usage::Valued, false, chosen.part)),
    }
}

/// Into what a call is made on, or an argument behind it and the name.
fn in_call<'a>(
    span: &Span,
    target: &'a Option<Box<Expr<Span>>>,
    args: &'a [Expr<Span>],
) -> Result<Option<Step<'a>>, AllocError>
    ensures { IfOk result (λ o. option_map step_of o
        ≡ pure.in_call span.now (target_of target.now) (exprs_of args.now)) }
{
    match target {
        None => in_row(span, 1, args),
        Some(part) => {
            if passes(span, part) {
                in_row(span, 2, args)
            } else {
                Ok(into(0, Usage::Valued, false, part))
            }
        }
    }
}

/// Into the part that doesn't end in front of the span's end, if there is one.
#[tactic(auto, unfolding(jr_ast::specs::View::expr_kind))]
pub(crate) fn inward<'a>(span: &Span, of: &'a Expr<Span>) -> Result<Option<Step<'a>>, AllocError>
    ensures { IfOk result (λ o. option_map step_of o ≡ pure.inward span.now (expr_of of.now)) }
{
    match &of.kind {
        ExprKind::Int(_) => Ok(None),
        ExprKind::Bool(_) => Ok(None),
        ExprKind::Null => Ok(None),
        ExprKind::Text(_) => Ok(None),
        ExprKind::Simple(_) => Ok(None),
        ExprKind::SuperField(_) => Ok(None),
        ExprKind::This => Ok(None),
        ExprKind::ClassLit(_) => Ok(None),
        ExprKind::Field(part, _) => Ok(into(0, Usage::Valued, false, part)),
        ExprKind::Call(target, _, args) => in_call(span, target, args),
        ExprKind::SuperCall(_, args) => in_row(span, 1, args),
        ExprKind::New(_, args) => in_row(span, 1, args),
        ExprKind::Paren(part) => Ok(into(0, Usage::Valued, false, part)),
        ExprKind::Cast(_, part) => Ok(into(1, Usage::Valued, false, part)),
        ExprKind::Unary(_, part) => Ok(into(0, Usage::Valued, false, part)),
        ExprKind::Bump(_, part) => Ok(into(0, Usage::Changed, false, part)),
        ExprKind::Binary(op, left, right) => {
            Ok(in_two(span, Usage::Valued, is_lazy(*op), left, right))
        }
        ExprKind::Assign(to, value) => Ok(in_two(span, Usage::Assigned, false, to, value)),
        ExprKind::Compound(_, to, value) => Ok(in_two(span, Usage::Changed, false, to, value)),
    }
}
