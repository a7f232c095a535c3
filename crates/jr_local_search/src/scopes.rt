//! What is known of locals at an element of a list.
ghost use Rattle.std.specs.Prelude.{◌≡◌, ◌+◌, IfOk, List, ℕ, ⊤};
ghost use Rattle.jr_ast.specs.Tree as tree;
ghost use Rattle.jr_ast.specs.StatementTree as statement;
ghost use Rattle.jr_ast.specs.View.{else_of, stmt_of, stmts_of};
ghost use Rattle.jr_table.specs.Context.{locals_in};
ghost use Rattle.jr_local_search.specs.Descending as pure;
ghost use Rattle.jr_local_search.specs.Descending.{at_of, place_of};
ghost use Rattle.jr_local_search.specs.Scopes.{IsAtElement};

use crate::declarations::{behind_stmt, number_behind};
use jr_ast::{Name, Stmt, StmtKind};
use jr_text::Span;
use std::alloc::AllocError;

/// What is known at an element of a list: the number of the next local, and that of the first local
/// or parameter in scope that has a name (JLS 6.3).
#[derive(Clone, Copy, Drop)]
pub struct AtElement {
    pub next: u32,
    pub named: Option<u32>,
}

/// How far a path has led, with what is known at the nearest element.
pub(crate) enum Place<'a> {
    /// In front of a list, whose elements have numbers from this one on.
    List(AtElement, u32, &'a [Stmt<Span>]),
    /// To a statement, where the next local has the number.
    Stmt(AtElement, u32, &'a Stmt<Span>),
    /// Into no statement any more.
    Ended(AtElement),
}

impl Copy for Place<'_> {}

impl Clone for Place<'_> {
    ghost is_clone = { λ x y. y ≡ x };

    ghost is_infallible = { λ _. ⊤ };

    fn clone(&self) -> Result<Self, AllocError> {
        Ok(*self)
    }
}

/// Whether the statement declares a local of the name, which is in scope behind it (JLS 6.3).
#[tactic(auto, unfolding(jr_ast::specs::View::stmt_kind))]
fn declares(name: &Name, of: &Stmt<Span>) -> bool
    ensures { result ≡ pure.declares name.now (stmt_of of.now) }
{
    match &of.kind {
        StmtKind::Local { name: own, .. } => own.name == *name,
        StmtKind::Eval(_) => false,
        StmtKind::If(_, _, _) => false,
        StmtKind::While(_, _) => false,
        StmtKind::Return(_) => false,
        StmtKind::Block(_) => false,
        StmtKind::Sync(_, _) => false,
        StmtKind::Empty => false,
    }
}

fn or_next(named: Option<u32>, is_named: bool, next: u32) -> Option<u32>
    ensures { result ≡ pure.or_next named is_named next }
{
    match named {
        Some(number) => Some(number),
        None => { if is_named { Some(next) } else { None } }
    }
}

/// Behind an element.
fn past(name: &Name, of: &Stmt<Span>, at: AtElement) -> Result<AtElement, AllocError>
    ensures { IfOk result (λ x. at_of x ≡ pure.past name.now (stmt_of of.now) (at_of at)) }
{
    let named = or_next(at.named, declares(name, of), at.next);
    let next = behind_stmt(at.next, of)?;
    Ok(AtElement { next, named })
}

/// To the element of a number, where the first one has the number `first`.
fn pick<'a>(
    name: &Name,
    at: AtElement,
    first: u32,
    wanted: u32,
    list: &'a [Stmt<Span>],
) -> Result<Place<'a>, AllocError>
    ensures { IfOk result (λ x. place_of x
        ≡ pure.pick name.now (at_of at) first wanted (stmts_of list.now)) }
{
    let mut at = at;
    let mut number = first;
    for of in list {
        if number == wanted {
            return Ok(Place::Stmt(at, at.next, of));
        }
        at = past(name, of, at)?;
        number = number_behind(number)?;
    }
    Ok(Place::Ended(at))
}

/// Into a list within an element, where the next local has the number.
fn pick_within<'a>(
    name: &Name,
    at: AtElement,
    next: u32,
    first: u32,
    wanted: u32,
    list: &'a [Stmt<Span>],
) -> Result<Place<'a>, AllocError>
    ensures { IfOk result (λ x. place_of x
        ≡ pure.pick name.now (pure.within name.now (at_of at) next) first wanted
        (stmts_of list.now)) }
{
    let at = AtElement {
        next,
        named: at.named,
    };
    pick(name, at, first, wanted, list)
}

/// Behind `else`.
fn else_step<'a>(at: AtElement, next: u32, no: &'a Option<Box<Stmt<Span>>>) -> Place<'a>
    ensures { (name : List ℕ) → place_of result
        ≡ pure.else_step name (at_of at) next (else_of no.now) }
{
    match no {
        None => Place::Ended(at),
        Some(no) => Place::Stmt(at, next, no),
    }
}

/// Into a branch of an `if`.
fn branch_step<'a>(
    at: AtElement,
    next: u32,
    yes: &'a Stmt<Span>,
    no: &'a Option<Box<Stmt<Span>>>,
    wanted: u32,
) -> Result<Place<'a>, AllocError>
    ensures { (name : List ℕ) (m : Span) (c : tree.Exp Span) → IfOk result (λ x. place_of x
        ≡ pure.stmt_step name (at_of at) next
        (statement.branch m c (stmt_of yes.now) (else_of no.now)) wanted) }
{
    if wanted == 0 {
        return Ok(Place::Ended(at));
    }
    if wanted == 1 {
        return Ok(Place::Stmt(at, next, yes));
    }
    let behind = behind_stmt(next, yes)?;
    Ok(else_step(at, behind, no))
}

/// Into the body of a loop.
fn body_step<'a>(at: AtElement, next: u32, body: &'a Stmt<Span>, wanted: u32) -> Place<'a>
    ensures { (name : List ℕ) (m : Span) (c : tree.Exp Span) → place_of result
        ≡ pure.stmt_step name (at_of at) next (statement.loop m c (stmt_of body.now)) wanted }
{
    if wanted == 0 {
        Place::Ended(at)
    } else {
        Place::Stmt(at, next, body)
    }
}

/// Into the list that holds a lock.
fn locked_step<'a>(
    name: &Name,
    at: AtElement,
    next: u32,
    body: &'a [Stmt<Span>],
    wanted: u32,
) -> Result<Place<'a>, AllocError>
    ensures { (m : Span) (e : tree.Exp Span) → IfOk result (λ x. place_of x
        ≡ pure.stmt_step name.now (at_of at) next (statement.sync m e (stmts_of body.now)) wanted) }
{
    if wanted == 0 {
        return Ok(Place::Ended(at));
    }
    pick_within(name, at, next, 1, wanted, body)
}

/// From a statement to the child of a number.
#[tactic(auto, unfolding(jr_ast::specs::View::stmt_kind))]
fn stmt_step<'a>(
    name: &Name,
    at: AtElement,
    next: u32,
    of: &'a Stmt<Span>,
    wanted: u32,
) -> Result<Place<'a>, AllocError>
    ensures { IfOk result (λ x. place_of x
        ≡ pure.stmt_step name.now (at_of at) next (stmt_of of.now) wanted) }
{
    match &of.kind {
        StmtKind::Local { .. } => Ok(Place::Ended(at)),
        StmtKind::Eval(_) => Ok(Place::Ended(at)),
        StmtKind::If(_, yes, no) => branch_step(at, next, yes, no, wanted),
        StmtKind::While(_, body) => Ok(body_step(at, next, body, wanted)),
        StmtKind::Return(_) => Ok(Place::Ended(at)),
        StmtKind::Block(body) => pick_within(name, at, next, 0, wanted, body),
        StmtKind::Sync(_, body) => locked_step(name, at, next, body, wanted),
        StmtKind::Empty => Ok(Place::Ended(at)),
    }
}

/// To the child of a number.
fn step<'a>(name: &Name, place: Place<'a>, wanted: u32) -> Result<Place<'a>, AllocError>
    ensures { IfOk result (λ x. place_of x ≡ pure.step name.now (place_of place.entry) wanted) }
{
    match place {
        Place::List(at, first, list) => pick(name, at, first, wanted, list),
        Place::Stmt(at, next, of) => stmt_step(name, at, next, of, wanted),
        Place::Ended(at) => Ok(Place::Ended(at)),
    }
}

fn element(place: Place<'_>) -> AtElement
    ensures { at_of result ≡ pure.element_of (place_of place.entry) }
{
    match place {
        Place::List(at, _, _) => at,
        Place::Stmt(at, _, _) => at,
        Place::Ended(at) => at,
    }
}

/// What is known of locals at the nearest element of an expression to which the path leads from a
/// list, whose elements have numbers from `first` on, by what is known where the list begins (JLS
/// 6.3). The only fault is want of memory.
pub fn at_element(
    name: &Name,
    path: &[u32],
    first: u32,
    list: &[Stmt<Span>],
    at: AtElement,
) -> Result<AtElement, AllocError>
    ensures { IfOk result (λ x. IsAtElement name.now first (stmts_of list.now) path.now (at_of at)
        (at_of x)) }
{
    let mut place = Place::List(at, first, list);
    for number in path {
        place = step(name, place, *number)?;
    }
    Ok(element(place))
}
