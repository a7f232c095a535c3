//! The walk over the declarations of locals in a list of statements, in text order.
ghost use Rattle.std.specs.Prelude.{◌≡◌, ◌∷◌, ◌+◌, ◌≤◌, [], IfOk, drop, length, option_map, ⊤};
ghost use Rattle.jr_ast.specs.View.{else_of, stmt_of, stmts_of};
ghost use Rattle.jr_table.specs.Context.{locals_in, locals_in_row};
ghost use Rattle.jr_local_search.specs.Declarations as pure;
ghost use Rattle.jr_local_search.specs.Declarations.{declarations, declarations_in, first_wanted};
ghost use Rattle.jr_local_search.specs.Walking.{
  BranchesWalk,
  HeadWalks,
  Walks,
  declaration_of as seen,
  found_in,
  walk_of,
  wanted_of,
};

use jr_ast::{Name, Stmt, StmtKind};
use jr_text::Span;
use std::alloc::AllocError;

/// The declaration of a local (JLS 14.4).
pub struct Declaration<'a> {
    /// Parameters have the first numbers, and locals those behind them, in text order.
    pub number: u32,
    pub name: &'a Name,
    /// The list from the declaration on; none where it is no element of a list.
    pub list: Option<&'a [Stmt<Span>]>,
}

impl Copy for Declaration<'_> {}

impl Clone for Declaration<'_> {
    ghost is_clone = { λ x y. y ≡ x };

    ghost is_infallible = { λ _. ⊤ };

    fn clone(&self) -> Result<Self, AllocError> {
        Ok(*self)
    }
}

/// Which local is looked for: none, the first of a name, or that of a number.
pub(crate) enum Wanted<'n> {
    Nobody,
    Named(&'n Name),
    Numbered(u32),
}

impl Copy for Wanted<'_> {}

impl Clone for Wanted<'_> {
    ghost is_clone = { λ x y. y ≡ x };

    ghost is_infallible = { λ _. ⊤ };

    fn clone(&self) -> Result<Self, AllocError> {
        Ok(*self)
    }
}

/// How far a walk has come: to what is looked for; behind all, where the next local has this
/// number; or to the statement that stands last, where the next local has this number: a call for
/// each of these would take stack for each of the thousands of `if` and `while` that a text may
/// nest.
pub(crate) enum Walk<'a> {
    Met(Declaration<'a>),
    Behind(u32),
    Last(u32, &'a Stmt<Span>),
}

impl Copy for Walk<'_> {}

impl Clone for Walk<'_> {
    ghost is_clone = { λ x y. y ≡ x };

    ghost is_infallible = { λ _. ⊤ };

    fn clone(&self) -> Result<Self, AllocError> {
        Ok(*self)
    }
}

/// The number behind this one. More locals than numbers don't fit any memory.
pub(crate) fn number_behind(number: u32) -> Result<u32, AllocError>
    ensures { IfOk result (λ n. n ≡ number + 1) }
{
    match number.checked_add(1) {
        None => Err(AllocError),
        Some(next) => Ok(next),
    }
}

fn is_wanted(wanted: Wanted<'_>, declaration: &Declaration<'_>) -> bool
    ensures { result ≡ pure.is_wanted (wanted_of wanted.entry) (seen declaration.now) }
{
    match wanted {
        Wanted::Nobody => false,
        Wanted::Named(name) => declaration.name == name,
        Wanted::Numbered(number) => declaration.number == number,
    }
}

/// Past a declaration.
fn declared<'a>(wanted: Wanted<'_>, declaration: Declaration<'a>) -> Result<Walk<'a>, AllocError>
    ensures { IfOk result (λ w. Walks (wanted_of wanted.entry)
        (seen declaration.entry ∷ []) (declaration.entry.number + 1) (walk_of w)) }
{
    if is_wanted(wanted, &declaration) {
        return Ok(Walk::Met(declaration));
    }
    let next = number_behind(declaration.number)?;
    Ok(Walk::Behind(next))
}

/// Past a statement, but for the one that stands last in it.
#[cycle(declared_walk)]
fn head<'a>(
    wanted: Wanted<'_>,
    next: u32,
    here: Option<&'a [Stmt<Span>]>,
    of: &'a Stmt<Span>,
) -> Result<Walk<'a>, AllocError>
    ensures { IfOk result (λ w. HeadWalks (wanted_of wanted.entry)
        (option_map (λ l. stmts_of l.now) here.entry) next (stmt_of of.now) (walk_of w)) }
{
    match &of.kind {
        StmtKind::Local { name, .. } => declared(
            wanted,
            Declaration {
                number: next,
                name: &name.name,
                list: here,
            },
        ),
        StmtKind::Eval(_) => Ok(Walk::Behind(next)),
        StmtKind::If(_, yes, no) => in_branches(wanted, next, yes, no),
        StmtKind::While(_, body) => Ok(Walk::Last(next, body)),
        StmtKind::Return(_) => Ok(Walk::Behind(next)),
        StmtKind::Block(body) => in_list(wanted, next, body),
        StmtKind::Sync(_, body) => in_list(wanted, next, body),
        StmtKind::Empty => Ok(Walk::Behind(next)),
    }
}

/// Past the branches of an `if`, but for the last one.
#[cycle(declared_walk)]
fn in_branches<'a>(
    wanted: Wanted<'_>,
    next: u32,
    yes: &'a Stmt<Span>,
    no: &'a Option<Box<Stmt<Span>>>,
) -> Result<Walk<'a>, AllocError>
    ensures { IfOk result (λ w. BranchesWalk (wanted_of wanted.entry) next (stmt_of yes.now)
        (else_of no.now) (walk_of w)) }
{
    match no {
        None => Ok(Walk::Last(next, yes)),
        Some(no) => {
            let walk = in_stmt(wanted, next, None, yes)?;
            match walk {
                Walk::Met(declaration) => Ok(Walk::Met(declaration)),
                Walk::Behind(next) => Ok(Walk::Last(next, no)),
                Walk::Last(next, last) => Ok(Walk::Last(next, last)),
            }
        }
    }
}

/// Past a statement, which is the first of the list `here` if it is an element of one.
#[cycle(declared_walk)]
fn in_stmt<'a>(
    wanted: Wanted<'_>,
    next: u32,
    here: Option<&'a [Stmt<Span>]>,
    of: &'a Stmt<Span>,
) -> Result<Walk<'a>, AllocError>
    ensures { IfOk result (λ w. Walks (wanted_of wanted.entry)
        (declarations (option_map (λ l. stmts_of l.now) here.entry) next (stmt_of of.now))
        (next + locals_in (stmt_of of.now)) (walk_of w)) }
{
    let mut next = next;
    let mut here = here;
    let mut of = of;
    loop {
        let walk = head(wanted, next, here, of)?;
        match walk {
            Walk::Met(declaration) => return Ok(Walk::Met(declaration)),
            Walk::Behind(next) => return Ok(Walk::Behind(next)),
            Walk::Last(number, last) => {
                next = number;
                here = None;
                of = last;
            }
        }
    }
}

/// The list behind so many elements.
pub(crate) fn behind(list: &[Stmt<Span>], count: usize) -> &[Stmt<Span>]
    requires fits { count ≤ length list.now }
    ensures { result.now ≡ drop count list.now }
{
    let (_, rest) = list.split_at(count);
    rest
}

/// Past the statements of a list.
#[cycle(declared_walk)]
fn in_list<'a>(
    wanted: Wanted<'_>,
    next: u32,
    list: &'a [Stmt<Span>],
) -> Result<Walk<'a>, AllocError>
    ensures { IfOk result (λ w. Walks (wanted_of wanted.entry)
        (declarations_in next (stmts_of list.now))
        (next + locals_in_row (stmts_of list.now)) (walk_of w)) }
{
    let mut next = next;
    let mut count = 0;
    for of in list {
        let walk = in_stmt(wanted, next, Some(behind(list, count)), of)?;
        match walk {
            Walk::Met(declaration) => return Ok(Walk::Met(declaration)),
            Walk::Last(number, last) => return Ok(Walk::Last(number, last)),
            Walk::Behind(number) => {
                next = number;
                count += 1;
            }
        }
    }
    Ok(Walk::Behind(next))
}

/// Past a statement, to the number of the next local.
pub fn behind_stmt(next: u32, of: &Stmt<Span>) -> Result<u32, AllocError>
    ensures { IfOk result (λ n. n ≡ next + locals_in (stmt_of of.now)) }
{
    let walk = in_stmt(Wanted::Nobody, next, None, of)?;
    match walk {
        Walk::Met(declaration) => Ok(declaration.number),
        Walk::Behind(next) => Ok(next),
        Walk::Last(next, _) => Ok(next),
    }
}

/// What a walk has met.
fn met<'a>(walk: Walk<'a>) -> Option<Declaration<'a>>
    ensures { option_map seen result ≡ found_in (walk_of walk.entry) }
{
    match walk {
        Walk::Met(declaration) => Some(declaration),
        Walk::Behind(_) => None,
        Walk::Last(_, _) => None,
    }
}

/// How many locals the statements of a list declare, at any depth (JLS 14.4). The only fault is
/// want of memory.
pub fn count_locals(list: &[Stmt<Span>]) -> Result<u32, AllocError>
    ensures { IfOk result (λ n. n ≡ locals_in_row (stmts_of list.now)) }
{
    let walk = in_list(Wanted::Nobody, 0, list)?;
    match walk {
        Walk::Met(declaration) => Ok(declaration.number),
        Walk::Behind(next) => Ok(next),
        Walk::Last(next, _) => Ok(next),
    }
}

/// The first local of the name among those that the statements of a list declare, at any depth, in
/// text order, so that it has the least number (JLS 14.4). The first of them has the number `next`.
/// The only fault is want of memory.
pub fn first_declared<'a>(
    name: &Name,
    next: u32,
    list: &'a [Stmt<Span>],
) -> Result<Option<Declaration<'a>>, AllocError>
    ensures { IfOk result (λ o. option_map seen o
        ≡ first_wanted (pure.named name.now) (declarations_in next (stmts_of list.now))) }
{
    let walk = in_list(Wanted::Named(name), next, list)?;
    Ok(met(walk))
}

/// The declaration of the local of a number in a list of statements, at any depth, if one of them
/// declares it (JLS 14.4). The first local of the list has the number `next`. The only fault is
/// want of memory.
pub fn declaration_of<'a>(
    number: u32,
    next: u32,
    list: &'a [Stmt<Span>],
) -> Result<Option<Declaration<'a>>, AllocError>
    ensures { IfOk result (λ o. option_map seen o
        ≡ first_wanted (pure.numbered number) (declarations_in next (stmts_of list.now))) }
{
    let walk = in_list(Wanted::Numbered(number), next, list)?;
    Ok(met(walk))
}
