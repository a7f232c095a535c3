//! The way down a path to the nearest element of a list: the locals that are declared in front of
//! it come into scope.
ghost use Rattle.std.specs.Prelude.{◌≡◌, ◌+◌, ◌≤◌, IfOk, drop, length, take, ⊤};
ghost use Rattle.jr_ast.specs.View.{else_of, stmt_of, stmts_of};
ghost use Rattle.jr_table.specs.Context.{Context, after, locals_in};
ghost use Rattle.jr_new_bodies.specs.Known.{IsKnown, context_of};
ghost use Rattle.jr_new_bodies.specs.Moves.{Goes};
ghost use Rattle.jr_local_parts.specs.Descending as pure;
ghost use Rattle.jr_local_parts.specs.Descending.{GoesTo, place_of};
ghost use Rattle.jr_local_parts.specs.ElementPlaces.{IsElementPlace};

use crate::bodies::WalkedBody;
use jr_ast::{Path, Stmt, StmtKind};
use jr_local_search::behind_stmt;
use jr_new_bodies::{Here, declare, leave_own, next as number_behind};
use jr_text::Span;
use std::alloc::{AllocError, Global};

/// An element of a list: the number of the first local that is declared from it on, the first byte
/// of the node around its list, its own number among that node's children, and how many steps of
/// the path lead to it.
#[derive(Clone, Copy, Drop)]
pub struct ElementPlace {
    pub next: u32,
    pub base: u32,
    pub step: u32,
    pub depth: u32,
}

/// How far a path has led. Of a place the next local's number and the first byte of the node around
/// it are known.
enum Reached<'a> {
    /// In front of a list, whose first element has the last number among the node's children.
    List(u32, u32, u32, &'a [Stmt<Span>]),
    Element(u32, u32, &'a Stmt<Span>),
    /// At a statement that is no element of a list.
    Part(u32, u32, &'a Stmt<Span>),
    /// Into no statement any more.
    Ended,
}

impl Copy for Reached<'_> {}

impl Clone for Reached<'_> {
    ghost is_clone = { λ x y. y ≡ x };

    ghost is_infallible = { λ _. ⊤ };

    fn clone(&self) -> Result<Self, AllocError> {
        Ok(*self)
    }
}

/// Moves a place from a statement into the initializer of the local that this declares, if it does:
/// that is in scope there (JLS 6.3), and the next local has the number. The only fault is want of
/// memory.
#[tactic(auto, unfolding(jr_ast::specs::View::stmt_kind))]
pub fn enter<'a>(here: &mut Here<'a>, next: u32, of: &'a Stmt<Span>) -> Result<(), AllocError>
    requires { IsKnown here.old }
    ensures { IfOk result (λ _. Goes here.old here.new
        (pure.entered next (context_of here.old) (stmt_of of.now))) }
{
    match &of.kind {
        StmtKind::Local {
            is_final,
            ty,
            name,
            ..
        } => declare(here, next, *is_final, ty, name),
        StmtKind::Eval(_) => Ok(()),
        StmtKind::If(_, _, _) => Ok(()),
        StmtKind::While(_, _) => Ok(()),
        StmtKind::Return(_) => Ok(()),
        StmtKind::Block(_) => Ok(()),
        StmtKind::Sync(_, _) => Ok(()),
        StmtKind::Empty => Ok(()),
    }
}

/// Brings the local into scope that the element declares, if it does (JLS 6.3).
#[tactic(auto, unfolding(jr_ast::specs::View::stmt_kind))]
fn bring<'a>(here: &mut Here<'a>, next: u32, of: &'a Stmt<Span>) -> Result<(), AllocError>
    requires { IsKnown here.old }
    ensures { IfOk result (λ _. Goes here.old here.new
        (after next (context_of here.old) (stmt_of of.now))) }
{
    match &of.kind {
        StmtKind::Local {
            is_final,
            ty,
            name,
            ..
        } => {
            declare(here, next, *is_final, ty, name)?;
            leave_own(here);
            Ok(())
        }
        StmtKind::Eval(_) => Ok(()),
        StmtKind::If(_, _, _) => Ok(()),
        StmtKind::While(_, _) => Ok(()),
        StmtKind::Return(_) => Ok(()),
        StmtKind::Block(_) => Ok(()),
        StmtKind::Sync(_, _) => Ok(()),
        StmtKind::Empty => Ok(()),
    }
}

/// Moves a place behind an element of a list, where the local is in scope that it declares, if it
/// does (JLS 6.3), and answers the number of the next local there. The only fault is want of memory.
pub fn pass<'a>(here: &mut Here<'a>, next: u32, of: &'a Stmt<Span>) -> Result<u32, AllocError>
    requires { IsKnown here.old }
    ensures number { IfOk result (λ n. n ≡ next + locals_in (stmt_of of.now)) }
    ensures goes { IfOk result (λ _. Goes here.old here.new
        (after next (context_of here.old) (stmt_of of.now))) }
{
    bring(here, next, of)?;
    behind_stmt(next, of)
}

/// To the element of a number, where the first one has the number `first`.
fn pick<'a>(
    here: &mut Here<'a>,
    next: u32,
    base: u32,
    first: u32,
    wanted: u32,
    list: &'a [Stmt<Span>],
) -> Result<Reached<'a>, AllocError>
    requires { IsKnown here.old }
    ensures { IfOk result (λ x. GoesTo here.old here.new x
        (pure.pick (pure.standing (context_of here.old) next base) first wanted
        (stmts_of list.now))) }
{
    let mut next = next;
    let mut number = first;
    for of in list {
        if number == wanted {
            return Ok(Reached::Element(next, base, of));
        }
        next = pass(here, next, of)?;
        number = number_behind(number)?;
    }
    Ok(Reached::Ended)
}

/// Behind `else`.
fn else_step<'a>(next: u32, at: u32, no: &'a Option<Box<Stmt<Span>>>) -> Reached<'a>
    ensures { (c : Context) → place_of c result
        ≡ pure.else_step (pure.standing c next at) (else_of no.now) }
{
    match no {
        None => Reached::Ended,
        Some(no) => Reached::Part(next, at, no),
    }
}

/// Into a branch of an `if`.
fn branch_step<'a>(
    next: u32,
    at: u32,
    yes: &'a Stmt<Span>,
    no: &'a Option<Box<Stmt<Span>>>,
    wanted: u32,
) -> Result<Reached<'a>, AllocError>
    ensures { (c : Context) → IfOk result (λ x. place_of c x
        ≡ pure.branch_step (pure.standing c next at) (stmt_of yes.now) (else_of no.now) wanted) }
{
    if wanted == 0 {
        return Ok(Reached::Ended);
    }
    if wanted == 1 {
        return Ok(Reached::Part(next, at, yes));
    }
    let behind = behind_stmt(next, yes)?;
    Ok(else_step(behind, at, no))
}

/// Into the body of a loop.
fn turning_step<'a>(next: u32, at: u32, body: &'a Stmt<Span>, wanted: u32) -> Reached<'a>
    ensures { (c : Context) → place_of c result
        ≡ pure.turning_step (pure.standing c next at) (stmt_of body.now) wanted }
{
    if wanted == 0 {
        Reached::Ended
    } else {
        Reached::Part(next, at, body)
    }
}

/// Into the list that holds a lock.
fn locked_step<'a>(
    here: &mut Here<'a>,
    next: u32,
    at: u32,
    body: &'a [Stmt<Span>],
    wanted: u32,
) -> Result<Reached<'a>, AllocError>
    requires { IsKnown here.old }
    ensures { IfOk result (λ x. GoesTo here.old here.new x
        (pure.locked_step (pure.standing (context_of here.old) next at) (stmts_of body.now)
        wanted)) }
{
    if wanted == 0 {
        return Ok(Reached::Ended);
    }
    pick(here, next, at, 1, wanted, body)
}

/// From a statement to its child of a number.
#[tactic(auto, unfolding(jr_ast::specs::View::stmt_kind))]
fn stmt_step<'a>(
    here: &mut Here<'a>,
    next: u32,
    of: &'a Stmt<Span>,
    wanted: u32,
) -> Result<Reached<'a>, AllocError>
    requires { IsKnown here.old }
    ensures { IfOk result (λ x. GoesTo here.old here.new x
        (pure.stmt_step (context_of here.old) next (stmt_of of.now) wanted)) }
{
    let at = of.mark.from;
    match &of.kind {
        StmtKind::Local { .. } => Ok(Reached::Ended),
        StmtKind::Eval(_) => Ok(Reached::Ended),
        StmtKind::If(_, yes, no) => branch_step(next, at, yes, no, wanted),
        StmtKind::While(_, body) => Ok(turning_step(next, at, body, wanted)),
        StmtKind::Return(_) => Ok(Reached::Ended),
        StmtKind::Block(body) => pick(here, next, at, 0, wanted, body),
        StmtKind::Sync(_, body) => locked_step(here, next, at, body, wanted),
        StmtKind::Empty => Ok(Reached::Ended),
    }
}

/// To the child of a number.
fn step<'a>(here: &mut Here<'a>, place: Reached<'a>, wanted: u32) -> Result<Reached<'a>, AllocError>
    requires { IsKnown here.old }
    ensures { IfOk result (λ x. GoesTo here.old here.new x
        (pure.step (place_of (context_of here.old) place.entry) wanted)) }
{
    match place {
        Reached::List(next, base, first, list) => pick(here, next, base, first, wanted, list),
        Reached::Element(next, _, of) => stmt_step(here, next, of, wanted),
        Reached::Part(next, _, of) => stmt_step(here, next, of, wanted),
        Reached::Ended => Ok(Reached::Ended),
    }
}

/// The element, if it is one, to which the last of so many steps has led; else the earlier one.
fn element_or(place: &Reached<'_>, step: u32, depth: u32, earlier: ElementPlace) -> ElementPlace
    ensures { (c : Context) → result ≡ pure.element_or (place_of c place.now) step depth earlier }
{
    match place {
        Reached::Element(next, base, _) => ElementPlace {
            next: *next,
            base: *base,
            step,
            depth,
        },
        Reached::List(_, _, _, _) => earlier,
        Reached::Part(_, _, _) => earlier,
        Reached::Ended => earlier,
    }
}

/// Moves a place from where a body begins to the nearest element of the expression to which the
/// path leads from the member: what is declared in front of that is in scope (JLS 6.3), and its own
/// local isn't. `next` is the number of the first local that is no parameter, and bytes are those
/// of the file. The only fault is want of memory.
pub fn go_to_element<'a>(
    here: &mut Here<'a>,
    body: &WalkedBody<'a>,
    path: &Path,
    next: u32,
) -> Result<ElementPlace, AllocError>
    requires { IsKnown here.old }
    ensures { IfOk result (IsElementPlace body.now path.now.steps.items next here.old here.new) }
{
    let code = body.code;
    let steps = path.steps.as_slice();
    let mut place = Reached::List(next, body.from, code.front, code.list);
    let mut at = ElementPlace {
        next,
        base: body.from,
        step: code.front,
        depth: 0,
    };
    let mut depth = 0;
    for wanted in steps {
        place = step(here, place, *wanted)?;
        depth = number_behind(depth)?;
        at = element_or(&place, *wanted, depth, at);
    }
    Ok(at)
}

// ---- parts of paths

/// So many steps of a path. The only fault is want of memory.
pub fn path_to(alloc: Global, path: &Path, count: u32) -> Result<Path, AllocError>
    requires { count ≤ length path.now.steps.items }
    ensures { IfOk result (λ p. p.steps.items ≡ take count path.now.steps.items) }
{
    let (front, _) = path.steps.as_slice().split_at(count as usize);
    let mut steps = Vec::new(alloc);
    steps.extend_from_slice(front)?;
    Ok(Path { steps })
}

/// The steps of a path behind so many. The only fault is want of memory.
pub fn path_behind(alloc: Global, path: &Path, count: u32) -> Result<Path, AllocError>
    requires { count ≤ length path.now.steps.items }
    ensures { IfOk result (λ p. p.steps.items ≡ drop count path.now.steps.items) }
{
    let (_, rest) = path.steps.as_slice().split_at(count as usize);
    let mut steps = Vec::new(alloc);
    steps.extend_from_slice(rest)?;
    Ok(Path { steps })
}
