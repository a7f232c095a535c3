//! Declarations that the references of a member share, found by number.
ghost use Rattle.std.specs.Prelude.{◌≡◌, Some, List, option_map, Contains};
ghost use Rattle.std.specs.Prelude.{IfOk, IfSome, IsTrue};
ghost use Rattle.jr_table.specs.Decls.{MemberKey as KeyOfMember, local_decl};
ghost use Rattle.jr_table.specs.KeyView.{member_key_of, decl_of};
ghost use Rattle.jr_table.specs.Lookup.{decl_at};
ghost use Rattle.jr_table.specs.Rows.{Row};
ghost use Rattle.jr_scopes.specs.Helds.{key_of};
ghost use Rattle.jr_bind.specs.Targets.{target_decl, AreShared};

use jr_bind_expr::decl_at;
use jr_table::{Decl, LocalKey, MemberKey, Table};
use std::alloc::{AllocError, Global};
use std::rc::Rc;

/// Among so many a declaration is sought; where there are as many, they are let go.
const MOST_SHARED: usize = 64;

/// What a reference finds, by number.
#[derive(Clone, Copy, Drop)]
pub(crate) enum Target {
    /// A row of the table.
    Row(u32),
    /// A local of the member.
    Local(u32),
}

/// A declaration that references share, and what finds it.
#[derive(Drop)]
pub(crate) struct Shared {
    pub(crate) target: Target,
    pub(crate) decl: Rc<Decl>,
}

fn is_same(target: Target, other: Target) -> bool
    ensures { IsTrue result → target ≡ other }
{
    match (target, other) {
        (Target::Row(number), Target::Row(second)) => number == second,
        (Target::Local(number), Target::Local(second)) => number == second,
        (Target::Row(_), Target::Local(_)) => false,
        (Target::Local(_), Target::Row(_)) => false,
    }
}

/// The one of a target, if it is among these.
fn find(shared: &[Shared], target: Target) -> Option<&Shared>
    ensures { IfSome result (λ s. Contains shared.now s.now × (s.now.target ≡ target)) }
{
    for one in shared {
        if is_same(one.target, target) {
            return Some(one);
        }
    }
    None
}

/// A declaration in a place of its own.
fn placed(alloc: Global, decl: Decl) -> Result<Rc<Decl>, AllocError>
    ensures { IfOk result (λ d. d.value ≡ decl) }
{
    Ok(Rc::new(alloc, decl)?)
}

/// The same declaration in a place of its own.
fn placed_copy(alloc: Global, decl: &Decl) -> Result<Rc<Decl>, AllocError>
    ensures { IfOk result (λ d. decl_of d.value ≡ decl_of decl.now) }
{
    let decl = decl.copy()?;
    placed(alloc, decl)
}

/// What a row declares.
fn declared_row(alloc: Global, table: &Table, number: u32) -> Result<Option<Rc<Decl>>, AllocError>
    ensures { IfOk result (λ o. option_map (λ d. decl_of d.value) o ≡ decl_at table.now number) }
{
    match decl_at(table, number) {
        None => Ok(None),
        Some(decl) => {
            let decl = placed_copy(alloc, decl)?;
            Ok(Some(decl))
        }
    }
}

/// A local of the member.
fn declared_local(
    alloc: Global,
    member: &MemberKey,
    number: u32,
) -> Result<Option<Rc<Decl>>, AllocError>
    ensures { IfOk result (λ o. option_map (λ d. decl_of d.value) o
        ≡ Some (local_decl (key_of (member_key_of member.now) number))) }
{
    let member = member.copy()?;
    let decl = placed(alloc, Decl::Local(LocalKey { member, number }))?;
    Ok(Some(decl))
}

/// What a target declares.
fn declared(
    alloc: Global,
    table: &Table,
    member: &MemberKey,
    target: Target,
) -> Result<Option<Rc<Decl>>, AllocError>
    ensures { IfOk result (λ o. option_map (λ d. decl_of d.value) o
        ≡ target_decl table.now (member_key_of member.now) target) }
{
    match target {
        Target::Row(number) => declared_row(alloc, table, number),
        Target::Local(number) => declared_local(alloc, member, number),
    }
}

/// Lets all go, where they are many.
fn make_room(shared: &mut Vec<Shared>)
    ensures { (rows : List Row) (k : KeyOfMember) → AreShared rows k shared.old.items
        → AreShared rows k shared.new.items }
{
    if shared.len() >= MOST_SHARED {
        shared.clear();
    }
}

/// Keeps a declaration for later references.
fn keep(target: Target, decl: Rc<Decl>, shared: &mut Vec<Shared>) -> Result<(), AllocError>
    ensures { (rows : List Row) (k : KeyOfMember) → AreShared rows k shared.old.items
        → target_decl rows k target ≡ Some (decl_of decl.value)
        → IfOk result (λ _. AreShared rows k shared.new.items) }
{
    make_room(shared);
    shared.push(Shared { target, decl })?;
    Ok(())
}

/// What a target declares, if it is among these.
fn found(shared: &[Shared], target: Target) -> Result<Option<Rc<Decl>>, AllocError>
    ensures { (rows : List Row) (k : KeyOfMember) → AreShared rows k shared.now
        → IfOk result (λ o. IfSome o (λ d. Some (decl_of d.value) ≡ target_decl rows k target)) }
{
    match find(shared, target) {
        None => Ok(None),
        Some(one) => {
            let decl = one.decl.clone()?;
            Ok(Some(decl))
        }
    }
}

/// What a target declares, which is kept.
fn declared_and_kept(
    alloc: Global,
    table: &Table,
    member: &MemberKey,
    target: Target,
    shared: &mut Vec<Shared>,
) -> Result<Option<Rc<Decl>>, AllocError>
    requires { AreShared table.now (member_key_of member.now) shared.old.items }
    ensures shared { IfOk result (λ _. AreShared table.now (member_key_of member.now)
        shared.new.items) }
    ensures declared { IfOk result (λ o. option_map (λ d. decl_of d.value) o
        ≡ target_decl table.now (member_key_of member.now) target) }
{
    match declared(alloc, table, member, target)? {
        None => Ok(None),
        Some(decl) => {
            let other = decl.clone()?;
            keep(target, other, shared)?;
            Ok(Some(decl))
        }
    }
}

/// What a target declares, once for references that stand near each other.
pub(crate) fn shared_decl(
    alloc: Global,
    table: &Table,
    member: &MemberKey,
    target: Target,
    shared: &mut Vec<Shared>,
) -> Result<Option<Rc<Decl>>, AllocError>
    requires { AreShared table.now (member_key_of member.now) shared.old.items }
    ensures shared { IfOk result (λ _. AreShared table.now (member_key_of member.now)
        shared.new.items) }
    ensures declared { IfOk result (λ o. option_map (λ d. decl_of d.value) o
        ≡ target_decl table.now (member_key_of member.now) target) }
{
    match found(shared.as_slice(), target)? {
        Some(decl) => Ok(Some(decl)),
        None => declared_and_kept(alloc, table, member, target, shared),
    }
}
