//! Where a search by a span goes from a statement, and from a list of statements.
ghost use Rattle.std.specs.Prelude.{◌≡◌, ◌≤◌, false, length, drop, option_map, IfOk, ⊤};
ghost use Rattle.jr_ast.specs.Marks.{stmt_mark};
ghost use Rattle.jr_ast.specs.View.{else_of, expr_of, stmt_of, stmts_of};
ghost use Rattle.jr_grammar.specs.Layout.{itself};
ghost use Rattle.jr_piece_search.specs.StatementSteps as pure;
ghost use Rattle.jr_piece_search.specs.StatementView.{inward_of, chosen_of};
ghost use Rattle.jr_piece_search.specs.StepView.{use_of};
ghost use Rattle.jr_pieces.specs.Finding.{is_behind};

use crate::steps::{Usage, next, passes};
use jr_ast::{Expr, Stmt, StmtKind};
use jr_text::Span;
use std::alloc::AllocError;

/// Into a part of a statement, by its number among the children.
pub(crate) enum Inward<'a> {
    Nowhere,
    /// An expression, and whether a loop may evaluate it again.
    Expr(u32, Usage, bool, &'a Expr<Span>),
    /// A statement that may be left out.
    Stmt(u32, &'a Stmt<Span>),
    /// A list, whose elements have numbers from this one on.
    List(u32, &'a [Stmt<Span>]),
}

impl Copy for Inward<'_> {}

impl Clone for Inward<'_> {
    ghost is_clone = { λ x y. y ≡ x };

    ghost is_infallible = { λ _. ⊤ };

    fn clone(&self) -> Result<Self, AllocError> {
        Ok(*self)
    }
}

/// An element of a list, by its number, and the list from it on.
#[derive(Drop)]
pub(crate) struct ChosenStmt<'a> {
    pub number: u32,
    pub of: &'a Stmt<Span>,
    pub list: &'a [Stmt<Span>],
}

/// Whether the span ends behind the statement.
fn passes_stmt(span: &Span, part: &Stmt<Span>) -> bool
    ensures { result ≡ is_behind itself span.now (stmt_mark (stmt_of part.now)) }
{
    part.mark.to < span.to
}

fn value<'a>(number: u32, usage: Usage, of: &'a Expr<Span>) -> Inward<'a>
    ensures { inward_of result ≡ pure.to_exp number (use_of usage) false (expr_of of.now) }
{
    Inward::Expr(number, usage, false, of)
}

/// Into the second branch, or the first.
fn in_branches<'a>(span: &Span, yes: &'a Stmt<Span>, no: &'a Stmt<Span>) -> Inward<'a>
    ensures { inward_of result ≡ pure.in_branches span.now (stmt_of yes.now) (stmt_of no.now) }
{
    if passes_stmt(span, yes) {
        Inward::Stmt(2, no)
    } else {
        Inward::Stmt(1, yes)
    }
}

/// Into a branch behind the condition.
fn behind_test<'a>(span: &Span, yes: &'a Stmt<Span>, no: &'a Option<Box<Stmt<Span>>>) -> Inward<'a>
    ensures { inward_of result ≡ pure.behind_test span.now (stmt_of yes.now) (else_of no.now) }
{
    match no {
        None => Inward::Stmt(1, yes),
        Some(no) => in_branches(span, yes, no),
    }
}

fn in_if<'a>(
    span: &Span,
    test: &'a Expr<Span>,
    yes: &'a Stmt<Span>,
    no: &'a Option<Box<Stmt<Span>>>,
) -> Inward<'a>
    ensures { inward_of result
        ≡ pure.in_if span.now (expr_of test.now) (stmt_of yes.now) (else_of no.now) }
{
    if passes(span, test) {
        behind_test(span, yes, no)
    } else {
        value(0, Usage::Valued, test)
    }
}

fn in_while<'a>(span: &Span, test: &'a Expr<Span>, body: &'a Stmt<Span>) -> Inward<'a>
    ensures { inward_of result ≡ pure.in_while span.now (expr_of test.now) (stmt_of body.now) }
{
    if passes(span, test) {
        Inward::Stmt(1, body)
    } else {
        Inward::Expr(0, Usage::Valued, true, test)
    }
}

fn in_return<'a>(of: &'a Option<Expr<Span>>) -> Inward<'a>
    ensures { inward_of result ≡ pure.in_return (option_map expr_of of.now) }
{
    match of {
        None => Inward::Nowhere,
        Some(of) => value(0, Usage::Valued, of),
    }
}

fn in_sync<'a>(span: &Span, lock: &'a Expr<Span>, body: &'a [Stmt<Span>]) -> Inward<'a>
    ensures { inward_of result ≡ pure.in_sync span.now (expr_of lock.now) (stmts_of body.now) }
{
    if passes(span, lock) {
        Inward::List(1, body)
    } else {
        value(0, Usage::Valued, lock)
    }
}

/// Into the part that doesn't end in front of the span's end, if there is one.
#[tactic(auto, unfolding(jr_ast::specs::View::stmt_kind))]
pub(crate) fn inward_stmt<'a>(span: &Span, of: &'a Stmt<Span>) -> Inward<'a>
    ensures { inward_of result ≡ pure.inward span.now (stmt_of of.now) }
{
    match &of.kind {
        StmtKind::Local { init, .. } => value(2, Usage::Valued, init),
        StmtKind::Eval(of) => value(0, Usage::Stated, of),
        StmtKind::If(test, yes, no) => in_if(span, test, yes, no),
        StmtKind::While(test, body) => in_while(span, test, body),
        StmtKind::Return(of) => in_return(of),
        StmtKind::Block(body) => Inward::List(0, body),
        StmtKind::Sync(lock, body) => in_sync(span, lock, body),
        StmtKind::Empty => Inward::Nowhere,
    }
}

/// The list behind so many elements.
fn behind(list: &[Stmt<Span>], count: usize) -> &[Stmt<Span>]
    requires fits { count ≤ length list.now }
    ensures { result.now ≡ drop count list.now }
{
    let (_, rest) = list.split_at(count);
    rest
}

/// The first element that doesn't end in front of the span's end; they have numbers from `first`
/// on.
pub(crate) fn choose_stmt<'a>(
    span: &Span,
    first: u32,
    list: &'a [Stmt<Span>],
) -> Result<Option<ChosenStmt<'a>>, AllocError>
    ensures { IfOk result (λ o. option_map chosen_of o
        ≡ pure.choose span.now first (stmts_of list.now)) }
{
    let mut number = first;
    let mut count = 0;
    for of in list {
        if passes_stmt(span, of) {
            number = next(number)?;
            count += 1;
        } else {
            let list = behind(list, count);
            return Ok(Some(ChosenStmt { number, of, list }));
        }
    }
    Ok(None)
}
