//! The first `return` of a list of statements, at any depth.
ghost use Rattle.std.specs.Prelude.{◌≡◌, ℕ, slice_get, ⊤};
ghost use Rattle.jr_ast.specs.View.{else_of, stmt_of, stmts_of};
ghost use Rattle.jr_grammar.specs.Layout.{itself};
ghost use Rattle.jr_piece_search.specs.Ends.{BranchesEndSo, EndsSo, MayEnd, first_in};
ghost use Rattle.jr_piece_search.specs.EndView.{end_of};
ghost use Rattle.jr_pieces.specs.Returns.{returns_in, returns_in_list};

use jr_ast::{Stmt, StmtKind};
use jr_text::Span;
use std::alloc::AllocError;

/// The first `return` of a statement, but for those of the statement that stands last in it: a call
/// for each of these would take stack for each of the thousands of `if` and `while` that a text may
/// nest.
pub(crate) enum End<'a> {
    Found(Span),
    Nothing,
    Last(&'a Stmt<Span>),
}

impl Copy for End<'_> {}

impl Clone for End<'_> {
    ghost is_clone = { λ x y. y ≡ x };

    ghost is_infallible = { λ _. ⊤ };

    fn clone(&self) -> Result<Self, AllocError> {
        Ok(*self)
    }
}

fn as_end<'a>(of: Option<Span>) -> End<'a>
    ensures { MayEnd of (end_of result) }
{
    match of {
        None => End::Nothing,
        Some(span) => End::Found(span),
    }
}

#[cycle(return_walk)]
#[tactic(auto, unfolding(jr_ast::specs::View::stmt_kind))]
fn head<'a>(of: &'a Stmt<Span>) -> End<'a>
    ensures { EndsSo (stmt_of of.now) (end_of result) }
{
    match &of.kind {
        StmtKind::Local { .. } => End::Nothing,
        StmtKind::Eval(_) => End::Nothing,
        StmtKind::If(_, yes, no) => in_branches(yes, no),
        StmtKind::While(_, body) => End::Last(body),
        StmtKind::Return(_) => End::Found(of.mark),
        StmtKind::Block(body) => as_end(first_return(body)),
        StmtKind::Sync(_, body) => as_end(first_return(body)),
        StmtKind::Empty => End::Nothing,
    }
}

/// The branches of an `if`.
#[cycle(return_walk)]
fn in_branches<'a>(yes: &'a Stmt<Span>, no: &'a Option<Box<Stmt<Span>>>) -> End<'a>
    ensures { BranchesEndSo (stmt_of yes.now) (else_of no.now) (end_of result) }
{
    match no {
        None => End::Last(yes),
        Some(no) => match in_stmt(yes) {
            Some(span) => End::Found(span),
            None => End::Last(no),
        },
    }
}

/// The first `return` of a statement.
#[cycle(return_walk)]
fn in_stmt(of: &Stmt<Span>) -> Option<Span>
    ensures { first_in (λ base. returns_in itself base (stmt_of of.now)) result }
{
    let mut of = of;
    loop {
        match head(of) {
            End::Found(span) => return Some(span),
            End::Nothing => return None,
            End::Last(last) => of = last,
        }
    }
}

/// The span of the first `return` statement of a list, at any depth, in text order (JLS 14.17).
#[cycle(return_walk)]
pub fn first_return(list: &[Stmt<Span>]) -> Option<Span>
    ensures { (base : ℕ) → slice_get (returns_in_list itself base (stmts_of list.now)) 0 ≡ result }
{
    for of in list {
        match in_stmt(of) {
            None => {}
            Some(span) => return Some(span),
        }
    }
    None
}
