//! The parameter or local of a member whose declared name begins at a byte.
ghost use Rattle.std.specs.Prelude.{◌≡◌, ◌+◌, ◌==◌, IfOk, map};
ghost use Rattle.jr_ast.specs.View.{word_of, param_of, stmt_of, stmts_of, else_of, member_of};
ghost use Rattle.jr_cursor.specs.Searches as pure;

use jr_ast::{Ident, Member, MemberKind, Param, Stmt, StmtKind};
use jr_text::Span;
use std::alloc::AllocError;

/// What a walk over a member has found.
#[derive(Clone, Copy, Drop)]
pub(crate) struct Search {
    /// The first whose name begins at the byte.
    pub found: Option<u32>,
    /// The number of the next one that is declared.
    pub next: u32,
}

fn start() -> Search
    ensures { result ≡ pure.start }
{
    Search {
        found: None,
        next: 0,
    }
}

/// The number behind this one. More locals than numbers don't fit any memory.
fn next(number: u32) -> Result<u32, AllocError>
    ensures { IfOk result (λ n. n ≡ number + 1) }
{
    match number.checked_add(1) {
        None => Err(AllocError),
        Some(next) => Ok(next),
    }
}

/// Whether a word begins there.
pub(crate) fn begins_at(name: &Ident<Span>, at: u32) -> bool
    ensures { result ≡ (name.now.mark.from == at) }
{
    name.mark.from == at
}

fn number_there(name: &Ident<Span>, at: u32, number: u32) -> Option<u32>
    ensures { result ≡ pure.number_there at number (word_of name.now) }
{
    if begins_at(name, at) {
        Some(number)
    } else {
        None
    }
}

fn or_else(first: Option<u32>, second: Option<u32>) -> Option<u32>
    ensures { result ≡ pure.or_else first second }
{
    match first {
        None => second,
        Some(number) => Some(number),
    }
}

/// Behind the name of one more parameter or local.
fn meet(at: u32, before: Search, name: &Ident<Span>) -> Result<Search, AllocError>
    ensures { IfOk result (λ s. s ≡ pure.meet at before (word_of name.now)) }
{
    let next = next(before.next)?;
    Ok(Search {
        found: or_else(before.found, number_there(name, at, before.next)),
        next,
    })
}

/// Behind the parameters (JLS 8.4.1).
fn in_params(at: u32, before: Search, params: &[Param<Span>]) -> Result<Search, AllocError>
    ensures { IfOk result (λ s. s ≡ pure.in_params at before (map param_of params.now)) }
{
    let mut search = before;
    for param in params {
        search = meet(at, search, &param.name)?;
    }
    Ok(search)
}

/// Behind a statement (JLS 14.4).
#[cycle(search_walk)]
#[tactic(auto, unfolding(jr_ast::specs::View::stmt_kind, crate::specs::Searches::in_stmt))]
fn in_stmt(at: u32, before: Search, of: &Stmt<Span>) -> Result<Search, AllocError>
    ensures { IfOk result (λ s. s ≡ pure.in_stmt at before (stmt_of of.now)) }
{
    match &of.kind {
        StmtKind::Local { name, .. } => meet(at, before, name),
        StmtKind::Eval(_) => Ok(before),
        StmtKind::If(_, yes, no) => {
            let behind = in_stmt(at, before, yes)?;
            in_else(at, behind, no)
        }
        StmtKind::While(_, body) => in_stmt(at, before, body),
        StmtKind::Return(_) => Ok(before),
        StmtKind::Block(body) => in_stmts(at, before, body),
        StmtKind::Sync(_, body) => in_stmts(at, before, body),
        StmtKind::Empty => Ok(before),
    }
}

/// Behind what stands behind `else`, if anything.
#[cycle(search_walk)]
#[tactic(auto, unfolding(crate::specs::Searches::in_else))]
fn in_else(at: u32, before: Search, of: &Option<Box<Stmt<Span>>>) -> Result<Search, AllocError>
    ensures { IfOk result (λ s. s ≡ pure.in_else at before (else_of of.now)) }
{
    match of {
        None => Ok(before),
        Some(of) => in_stmt(at, before, of),
    }
}

/// Behind a list of statements.
#[cycle(search_walk)]
fn in_stmts(at: u32, before: Search, body: &[Stmt<Span>]) -> Result<Search, AllocError>
    ensures { IfOk result (λ s. s ≡ pure.in_stmts at before (stmts_of body.now)) }
{
    let mut search = before;
    for of in body {
        search = in_stmt(at, search, of)?;
    }
    Ok(search)
}

fn in_code(at: u32, params: &[Param<Span>], body: &[Stmt<Span>]) -> Result<Option<u32>, AllocError>
    ensures { IfOk result (λ n. n ≡ pure.in_code at (map param_of params.now) (stmts_of body.now)) }
{
    let behind = in_params(at, start(), params)?;
    let search = in_stmts(at, behind, body)?;
    Ok(search.found)
}

/// The number of the parameter or local of a member whose declared name begins there.
#[tactic(auto, unfolding(jr_ast::specs::View::member_kind))]
pub(crate) fn in_member(at: u32, member: &Member<Span>) -> Result<Option<u32>, AllocError>
    ensures { IfOk result (λ n. n ≡ pure.in_member at (member_of member.now)) }
{
    match &member.kind {
        MemberKind::Method { params, body, .. } => in_code(at, params, body),
        MemberKind::Ctor { params, body, .. } => in_code(at, params, body),
        MemberKind::Field { .. } => Ok(None),
        MemberKind::Inner(_) => Ok(None),
    }
}
