//! The locals and parameters of a member with which one collides that gets a name.
ghost use Rattle.std.specs.Prelude.{◌≡◌, ◌+◌, ◌==◌, ◌++◌, ◌∷◌, [], Some, None, map, length};
ghost use Rattle.std.specs.Prelude.{IfOk, OnOk, if◌then◌else◌};
ghost use Rattle.std.specs.List.{list_any};
ghost use Rattle.jr_ast.specs.View.{param_of, stmt_of, stmts_of, else_of, member_of};
ghost use Rattle.jr_table.specs.HeadRules.{types_of};
ghost use Rattle.jr_table.specs.KeyView.{member_key_of};
ghost use Rattle.jr_rename.specs.Walks as pure;
ghost use Rattle.jr_rename.specs.Walks.{asked_of, held_of, walk_of};

use jr_ast::{Member, MemberKind, Name, Param, Stmt, StmtKind};
use jr_table::MemberKey;
use std::alloc::{AllocError, Global};

/// The local of the number is to get the name.
#[derive(Clone, Copy, Drop)]
pub(crate) struct Asked<'n> {
    pub number: u32,
    pub name: &'n Name,
}

/// A local or parameter in scope.
#[derive(Clone, Copy, Drop)]
pub(crate) struct Held<'a> {
    pub number: u32,
    pub name: &'a Name,
}

/// What a walk knows.
#[derive(Drop)]
pub(crate) struct Walk<'a> {
    /// Those in scope, the last declared at the end.
    pub scope: Vec<Held<'a>>,
    /// The number of the next one.
    pub next: u32,
    /// Whether the local has the name already.
    pub is_named: bool,
    /// The least number of one that it would meet.
    pub least: Option<u32>,
}

pub(crate) fn start<'a>(alloc: Global) -> Walk<'a>
    ensures { walk_of result ≡ pure.start }
{
    Walk {
        scope: Vec::new(alloc),
        next: 0,
        is_named: false,
        least: None,
    }
}

/// The number behind this one. More locals than numbers don't fit any memory.
fn next(number: u32) -> Result<u32, AllocError>
    ensures { IfOk result (λ n. n ≡ number + 1) }
{
    match number.checked_add(1) {
        None => Err(AllocError),
        Some(next) => Ok(next),
    }
}

fn lesser(first: u32, second: u32) -> Option<u32>
    ensures { result ≡ pure.least_of (Some first) (Some second) }
{
    if second < first {
        Some(second)
    } else {
        Some(first)
    }
}

fn least_of(first: Option<u32>, second: Option<u32>) -> Option<u32>
    ensures { result ≡ pure.least_of first second }
{
    match first {
        None => second,
        Some(first) => match second {
            None => Some(first),
            Some(second) => lesser(first, second),
        },
    }
}

fn if_so(is_so: bool, number: u32) -> Option<u32>
    ensures { result ≡ pure.if_so is_so number }
{
    if is_so { Some(number) } else { None }
}

/// Whether it has the name, and is another.
fn is_met(asked: &Asked<'_>, held: &Held<'_>) -> bool
    ensures { result ≡ pure.is_met (asked_of asked.now) (held_of held.now) }
{
    (held.name == asked.name) & !(held.number == asked.number)
}

fn named_in(asked: &Asked<'_>, scope: &[Held<'_>]) -> Option<u32>
    ensures { result ≡ pure.named_in (asked_of asked.now) None (map held_of scope.now) }
{
    let mut least = None;
    for held in scope {
        least = least_of(least, if_so(is_met(asked, held), held.number));
    }
    least
}

fn has_held(scope: &[Held<'_>], number: u32) -> bool
    ensures { result ≡ list_any (λ h. (held_of h).number == number) scope.now }
{
    scope.iter().any(|held| held.number == number)
}

fn has_number(scope: &[Held<'_>], number: u32) -> bool
    ensures { result ≡ pure.has_number number (map held_of scope.now) }
{
    has_held(scope, number)
}

/// One in scope where the local is declared, or one that is declared in the local's scope.
fn least_met(asked: &Asked<'_>, scope: &[Held<'_>], number: u32, name: &Name) -> Option<u32>
    ensures { result ≡ pure.met (asked_of asked.now) (map held_of scope.now) number name.now }
{
    if number == asked.number {
        named_in(asked, scope)
    } else {
        let is_met = (name == asked.name) & has_number(scope, asked.number);
        if_so(is_met, number)
    }
}

fn is_declared(asked: &Asked<'_>, number: u32, name: &Name) -> bool
    ensures { result ≡ pure.is_declared (asked_of asked.now) number name.now }
{
    (number == asked.number) & (name == asked.name)
}

/// Behind the declaration of a local (JLS 14.4).
fn declare<'a>(asked: &Asked<'_>, walk: &mut Walk<'a>, name: &'a Name) -> Result<(), AllocError>
    ensures { OnOk result (walk_of walk.new
        ≡ pure.declare (asked_of asked.now) (walk_of walk.old) name.now) }
{
    let number = walk.next;
    let next = next(number)?;
    let met = least_met(asked, walk.scope.as_slice(), number, name);
    walk.scope.push(Held { number, name })?;
    walk.next = next;
    walk.is_named = walk.is_named | is_declared(asked, number, name);
    walk.least = least_of(walk.least, met);
    Ok(())
}

/// What a parameter meets, where the local is a parameter.
fn met_param(asked: &Asked<'_>, is_param: bool, held: &Held<'_>) -> Option<u32>
    ensures { result ≡ pure.met_param (asked_of asked.now) is_param held.now.number
        held.now.name.now }
{
    if_so(is_param & is_met(asked, held), held.number)
}

/// Brings a parameter into scope, if it has a type.
fn push_typed<'a>(
    scope: &mut Vec<Held<'a>>,
    held: Held<'a>,
    is_typed: bool,
) -> Result<(), AllocError>
    ensures { OnOk result (scope.new.items
        ≡ (if is_typed then scope.old.items ++ held.entry ∷ [] else scope.old.items)) }
{
    if is_typed {
        scope.push(held)?;
    }
    Ok(())
}

/// Behind a parameter (JLS 8.4.1).
fn declare_param<'a>(
    asked: &Asked<'_>,
    is_param: bool,
    types: usize,
    walk: &mut Walk<'a>,
    name: &'a Name,
) -> Result<(), AllocError>
    ensures { OnOk result (walk_of walk.new ≡ pure.declare_param (asked_of asked.now) is_param
        types (walk_of walk.old) name.now) }
{
    let number = walk.next;
    let next = next(number)?;
    let held = Held { number, name };
    let met = met_param(asked, is_param, &held);
    push_typed(&mut walk.scope, held, (number as usize) < types)?;
    walk.next = next;
    walk.is_named = walk.is_named | is_declared(asked, number, name);
    walk.least = least_of(walk.least, met);
    Ok(())
}

/// Behind the parameters.
fn in_params<'a, A>(
    asked: &Asked<'_>,
    is_param: bool,
    types: usize,
    walk: &mut Walk<'a>,
    params: &'a [Param<A>],
) -> Result<(), AllocError>
    ensures { OnOk result (walk_of walk.new ≡ pure.in_params (asked_of asked.now) is_param types
        (walk_of walk.old) (map param_of params.now)) }
{
    for param in params {
        declare_param(asked, is_param, types, walk, &param.name.name)?;
    }
    Ok(())
}

/// Behind a statement; a local that it declares stays in scope.
#[cycle(clash_walk)]
#[tactic(auto, unfolding(jr_ast::specs::View::stmt_kind, crate::specs::Walks::in_stmt))]
fn in_stmt<'a, A>(asked: &Asked<'_>, walk: &mut Walk<'a>, of: &'a Stmt<A>) -> Result<(), AllocError>
    ensures { OnOk result (walk_of walk.new
        ≡ pure.in_stmt (asked_of asked.now) (walk_of walk.old) (stmt_of of.now)) }
{
    match &of.kind {
        StmtKind::Local { name, .. } => declare(asked, walk, &name.name),
        StmtKind::Eval(_) => Ok(()),
        StmtKind::If(_, yes, no) => {
            within(asked, walk, yes)?;
            in_else(asked, walk, no)
        }
        StmtKind::While(_, body) => within(asked, walk, body),
        StmtKind::Return(_) => Ok(()),
        StmtKind::Block(body) => in_block(asked, walk, body),
        StmtKind::Sync(_, body) => in_block(asked, walk, body),
        StmtKind::Empty => Ok(()),
    }
}

/// Behind a statement that is no element of a list: what it declares is gone.
#[cycle(clash_walk)]
fn within<'a, A>(asked: &Asked<'_>, walk: &mut Walk<'a>, of: &'a Stmt<A>) -> Result<(), AllocError>
    ensures { OnOk result (walk_of walk.new ≡ pure.restored (walk_of walk.old)
        (pure.in_stmt (asked_of asked.now) (walk_of walk.old) (stmt_of of.now))) }
{
    let depth = walk.scope.len();
    in_stmt(asked, walk, of)?;
    walk.scope.truncate(depth);
    Ok(())
}

/// Behind what stands behind `else`, if anything.
#[cycle(clash_walk)]
#[tactic(auto, unfolding(crate::specs::Walks::in_else))]
fn in_else<'a, A>(
    asked: &Asked<'_>,
    walk: &mut Walk<'a>,
    of: &'a Option<Box<Stmt<A>>>,
) -> Result<(), AllocError>
    ensures { OnOk result (walk_of walk.new
        ≡ pure.in_else (asked_of asked.now) (walk_of walk.old) (else_of of.now)) }
{
    match of {
        None => Ok(()),
        Some(of) => within(asked, walk, of),
    }
}

/// Behind a block: what its statements declare is gone.
#[cycle(clash_walk)]
fn in_block<'a, A>(
    asked: &Asked<'_>,
    walk: &mut Walk<'a>,
    body: &'a [Stmt<A>],
) -> Result<(), AllocError>
    ensures { OnOk result (walk_of walk.new ≡ pure.restored (walk_of walk.old)
        (pure.in_stmts (asked_of asked.now) (walk_of walk.old) (stmts_of body.now))) }
{
    let depth = walk.scope.len();
    in_stmts(asked, walk, body)?;
    walk.scope.truncate(depth);
    Ok(())
}

/// Behind a list of statements.
#[cycle(clash_walk)]
fn in_stmts<'a, A>(
    asked: &Asked<'_>,
    walk: &mut Walk<'a>,
    body: &'a [Stmt<A>],
) -> Result<(), AllocError>
    ensures { OnOk result (walk_of walk.new
        ≡ pure.in_stmts (asked_of asked.now) (walk_of walk.old) (stmts_of body.now)) }
{
    for of in body {
        in_stmt(asked, walk, of)?;
    }
    Ok(())
}

/// How many parameters of a member have types.
fn type_count(key: &MemberKey) -> usize
    ensures { result ≡ length (types_of (member_key_of key.now)) }
{
    match key {
        MemberKey::Method(key) => key.params.as_slice().len(),
        MemberKey::Ctor(key) => key.params.as_slice().len(),
        MemberKey::Head(_) => 0,
        MemberKey::Field(_) => 0,
    }
}

fn in_code<'a, A>(
    alloc: Global,
    asked: &Asked<'_>,
    types: usize,
    params: &'a [Param<A>],
    body: &'a [Stmt<A>],
) -> Result<Walk<'a>, AllocError>
    ensures { IfOk result (λ w. walk_of w ≡ pure.in_code (asked_of asked.now) types
        (map param_of params.now) (stmts_of body.now)) }
{
    let mut walk = start(alloc);
    let is_param = (asked.number as usize) < params.len();
    in_params(asked, is_param, types, &mut walk, params)?;
    in_stmts(asked, &mut walk, body)?;
    Ok(walk)
}

/// Behind a whole member.
#[tactic(auto, unfolding(jr_ast::specs::View::member_kind))]
pub(crate) fn in_member<'a, A>(
    alloc: Global,
    asked: &Asked<'_>,
    key: &MemberKey,
    member: &'a Member<A>,
) -> Result<Walk<'a>, AllocError>
    ensures { IfOk result (λ w. walk_of w
        ≡ pure.in_member (asked_of asked.now) (member_key_of key.now) (member_of member.now)) }
{
    let types = type_count(key);
    match &member.kind {
        MemberKind::Method { params, body, .. } => in_code(alloc, asked, types, params, body),
        MemberKind::Ctor { params, body, .. } => in_code(alloc, asked, types, params, body),
        MemberKind::Field { .. } => Ok(start(alloc)),
        MemberKind::Inner(_) => Ok(start(alloc)),
    }
}
