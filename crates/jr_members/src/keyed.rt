//! Written members by their keys and rows.
ghost use Rattle.std.specs.Prelude.{◌≡◌, ◌+◌, ◌<◌, ◌^◌, ◌++◌, ◌∷◌, [], length, map, slice_get};
ghost use Rattle.std.specs.Prelude.{option_map, IfOk, OnOk};
ghost use Rattle.jr_ast.specs.View.{class_of, member_of, members_of, unit_of};
ghost use Rattle.jr_table.specs.Errors.{class_part};
ghost use Rattle.jr_table.specs.KeyView.{decl_of, member_key_of};
ghost use Rattle.jr_table.specs.RowView.{row_of};
ghost use Rattle.jr_table.specs.DeclaredItems.{writes_ctor};
ghost use Rattle.jr_members.specs.Fitting.{begins_by, UnitsFit};
ghost use Rattle.jr_members.specs.PartView.{part_of, placed_of, written_of};
ghost use Rattle.jr_members.specs.WrittenMembers as members;

use crate::gathering::program_parts;
use crate::parts::{PartRef, Placed};
use jr_ast::{Class, Member, MemberKind, Unit};
use jr_table::{Decl, MemberKey, Row, Table};
use jr_text::Mark;
use std::alloc::{AllocError, Global};

/// A member that is written: the number of its file, its key, the number of its row, the byte of
/// the file at which its parent begins, and its tree.
#[derive(Drop)]
pub struct WrittenMember<'a, A> {
    pub file: u32,
    pub key: MemberKey,
    pub row: u32,
    pub base: u32,
    pub part: PartRef<'a, A>,
}

/// The member that a row declares.
fn member_key(decl: &Decl) -> Result<MemberKey, AllocError>
    ensures { IfOk result (λ k. member_key_of k ≡ members.member_of_decl (decl_of decl.now)) }
{
    match decl {
        Decl::Class(key) => Ok(MemberKey::Head(key.copy()?)),
        Decl::Field(key) => Ok(MemberKey::Field(key.copy()?)),
        Decl::Method(key) => Ok(MemberKey::Method(key.copy()?)),
        Decl::Ctor(key) => Ok(MemberKey::Ctor(key.copy()?)),
        Decl::Local(key) => key.member.copy(),
    }
}

/// The row of a number.
fn row_at(table: &Table, number: usize) -> Option<&Row>
    ensures { option_map (λ r. row_of r.now) result ≡ slice_get table.now number }
{
    table.rows().get(number)
}

/// Whether a member is a constructor.
#[tactic(auto, unfolding(jr_ast::specs::View::member_kind))]
fn is_ctor<A: Mark>(member: &Member<A>) -> bool
    ensures { result ≡ members.is_ctor (member_of member.now) }
{
    match &member.kind {
        MemberKind::Field { .. } => false,
        MemberKind::Method { .. } => false,
        MemberKind::Ctor { .. } => true,
        MemberKind::Inner(_) => false,
    }
}

/// Whether one of the members is a constructor.
fn writes_ctor<A: Mark>(members: &[Member<A>]) -> bool
    ensures { result ≡ writes_ctor (begins_by A.span_from) (members_of members.now) }
{
    for member in members {
        if is_ctor(member) {
            return true;
        }
    }
    false
}

/// How many rows the head of a class has: with that of the constructor that isn't written.
fn class_row_count<A: Mark>(class: &Class<A>) -> usize
    ensures { result
        ≡ members.row_count (begins_by A.span_from) (class_part (class_of class.now)) }
{
    if writes_ctor(&class.members) { 1 } else { 2 }
}

/// How many rows a part has.
fn row_count<A: Mark>(part: &PartRef<'_, A>) -> usize
    ensures { result ≡ members.row_count (begins_by A.span_from) (part_of part.now) }
{
    match part {
        PartRef::Head(class) => class_row_count(class),
        PartRef::Member(_) => 1,
    }
}

/// Drops a key that was not stored.
fn forget(key: MemberKey) {
    drop(key)
}

/// Puts a part behind the members, as the member that its row declares.
fn push_keyed<'a, A>(
    list: &mut Vec<WrittenMember<'a, A>>,
    decl: &Decl,
    row: u32,
    placed: Placed<'a, A>,
) -> Result<(), AllocError>
    ensures { OnOk result (map written_of list.new.items
        ≡ map written_of list.old.items ++ record {
          file = placed.entry.file;
          key = members.member_of_decl (decl_of decl.now);
          row = row;
          base = placed.entry.base;
          part = part_of placed.entry.part;
        } ∷ []) }
{
    let key = member_key(decl)?;
    let member = WrittenMember {
        file: placed.file,
        key,
        row,
        base: placed.base,
        part: placed.part,
    };
    match list.push(member) {
        Ok(()) => Ok(()),
        Err(failed) => {
            forget(failed.value.key);
            Err(AllocError)
        }
    }
}

/// The parts as members, of the rows from this one on.
fn with_keys<'a, A: Mark>(
    alloc: Global,
    table: &Table,
    first: usize,
    parts: Vec<Placed<'a, A>>,
) -> Result<Vec<WrittenMember<'a, A>>, AllocError>
    requires { first < 2 ^ 32 }
    ensures { IfOk result (λ v. map written_of v.items ≡ members.members_at
        (begins_by A.span_from) table.now first (map placed_of parts.entry.items)) }
{
    table.keeps_rows();
    let mut members = Vec::with_capacity(alloc, parts.len())?;
    let mut row = first;
    for placed in parts {
        let Some(declared) = row_at(table, row) else {
            return Ok(members);
        };
        let number = row as u32;
        row += row_count(&placed.part);
        push_keyed(&mut members, &declared.decl, number, placed)?;
    }
    Ok(members)
}

/// How many rows the prelude has.
const PRELUDE: usize = 8;

/// The members that the files write, in file and text order. The table's rows are those of the
/// files; they stand in the same order.
pub fn written_members<'a, A: Mark>(
    alloc: Global,
    table: &Table,
    units: &'a [Unit<A>],
) -> Result<Vec<WrittenMember<'a, A>>, AllocError>
    requires few { length units.now < 2 ^ 32 }
    requires fits { UnitsFit (begins_by A.span_from) A.fits_at (map unit_of units.now) }
    ensures { IfOk result (λ v. map written_of v.items ≡ members.written_members
        (begins_by A.span_from) table.now (map unit_of units.now)) }
{
    let parts = program_parts(alloc, units)?;
    with_keys(alloc, table, PRELUDE, parts)
}
