//! Members are bound: one walk, its errors in order, its references by their places, and a second
//! walk for the types of its expressions.
ghost use Rattle.std.specs.Prelude.{◌≡◌, ◌+◌, ◌<◌, ◌^◌, Some, length, map, slice_get, Contains};
ghost use Rattle.std.specs.Prelude.{IfOk, MatchOption};
ghost use Rattle.std.specs.List.Sorted.{IsPermutation};
ghost use Rattle.jr_ast.specs.Marks.{class_mark, member_mark};
ghost use Rattle.jr_ast.specs.View.{class_of, member_of, unit_of};
ghost use Rattle.jr_table.specs.Entries.{number_of};
ghost use Rattle.jr_table.specs.Errors.{part_mark, InUnits};
ghost use Rattle.jr_table.specs.ErrorLists.{errors_of_log};
ghost use Rattle.jr_table.specs.KeyView.{member_key_of};
ghost use Rattle.jr_table.specs.ProgramRows.{AreProgramRows};
ghost use Rattle.jr_table.specs.DeclaredItems.{declarations_of};
ghost use Rattle.jr_table.specs.Walks.{part_notes};
ghost use Rattle.jr_members.specs.Fitting.{begins_by, UnitsFit};
ghost use Rattle.jr_members.specs.PartView.{part_of};
ghost use Rattle.jr_members.specs.WrittenMembers.{decl_of_member};
ghost use Rattle.jr_bind.specs.BoundLogs.{IsBoundOfLog};
ghost use Rattle.jr_bind.specs.Bounds.{BindsOnce, IsBound, FitsWhole};
ghost use Rattle.jr_bind_expr.specs.Logs.{notes_of};

use crate::bounds::Bound;
use crate::errors::errors_of_log;
use crate::references::references_of_log;
use jr_ast::{Class, Member, Unit};
use jr_bind_expr::Note;
use jr_bind_parts::part_notes::note_part;
use jr_expr_types::{Types, paths_lead_to_types, types_are_at};
use jr_members::{PartRef, WrittenMember, members_are_written, written_members};
use jr_steps::Steps;
use jr_table::{MemberKey, Table, errors_are_told, lookups_are_exact, parts_are_noted};
use jr_text::Mark;
use std::alloc::{AllocError, Global};
use std::sync::ledger::Ledger;

/// The first byte of a class whose parent begins at the base.
fn class_byte<A: Mark>(class: &Class<A>, base: u32) -> u32
    requires { A.fits_at (class_mark (class_of class.now)) base }
    ensures { result ≡ begins_by A.span_from (class_mark (class_of class.now)) base }
{
    class.mark.span(base).from
}

/// The first byte of a member whose parent begins at the base.
fn member_byte<A: Mark>(member: &Member<A>, base: u32) -> u32
    requires { A.fits_at (member_mark (member_of member.now)) base }
    ensures { result ≡ begins_by A.span_from (member_mark (member_of member.now)) base }
{
    member.mark.span(base).from
}

/// The first byte of a part whose parent begins at the base.
fn first_byte<A: Mark>(part: &PartRef<'_, A>, base: u32) -> u32
    requires { A.fits_at (part_mark (part_of part.now)) base }
    ensures { result ≡ begins_by A.span_from (part_mark (part_of part.now)) base }
{
    match part {
        PartRef::Head(class) => class_byte(class, base),
        PartRef::Member(member) => member_byte(member, base),
    }
}

/// What a log tells of a member that begins at `start`, with the types of its expressions.
fn bound_of_log(
    alloc: Global,
    table: &Table,
    member: &MemberKey,
    start: u32,
    log: &[Note],
    types: Types,
) -> Result<Bound, AllocError>
    ensures { IfOk result (IsBoundOfLog (member_key_of member.now) start
        (notes_of table.now (member_key_of member.now) log.now) types) }
{
    let references = references_of_log(alloc, table, member, start, log)?;
    let errors = errors_of_log(alloc, table, start, log)?;
    let member = member.copy()?;
    Ok(Bound {
        member,
        references,
        errors,
        types,
    })
}

/// Binds a member, with no step counted.
fn bind_uncounted<A: Mark>(
    alloc: Global,
    table: &Table,
    written: &WrittenMember<'_, A>,
    super_at: u32,
) -> Result<Bound, AllocError>
    requires row { number_of table.now (decl_of_member (member_key_of written.now.key))
        ≡ Some written.now.row }
    requires fits { FitsWhole (begins_by A.span_from) A.fits_at written.now.base
        (part_of written.now.part) }
    requires once { BindsOnce (begins_by A.span_from) table.now super_at
        (member_key_of written.now.key) written.now.base (part_of written.now.part) }
    ensures { IfOk result (IsBound (begins_by A.span_from) table.now super_at
        (member_key_of written.now.key) written.now.base (part_of written.now.part)) }
{
    table.keeps_rows();
    lookups_are_exact();
    parts_are_noted::<A>();
    errors_are_told();
    paths_lead_to_types();
    types_are_at::<A>();
    let start = first_byte(&written.part, written.base);
    let mut log = Vec::new(alloc);
    let mut types = Types::new(alloc);
    note_part(
        alloc,
        table,
        &written.key,
        written.row,
        super_at,
        written.base,
        &written.part,
        &mut log,
        &mut types,
    )?;
    bound_of_log(alloc, table, &written.key, start, log.as_slice(), types)
}

/// What a written member's references mean, which types its expressions have, and which rules it
/// breaks (JLS 6, 8, 14, 15).
///
/// A written `super(..)` of a constructor stands at `super_at`, a byte of the file, since trees
/// keep no place of the word. Each call counts one step.
pub fn bind<A: Mark, L: Ledger>(
    alloc: Global,
    table: &Table,
    written: &WrittenMember<'_, A>,
    super_at: u32,
    steps: &mut Steps<L>,
) -> Result<Bound, AllocError>
    requires row { number_of table.now (decl_of_member (member_key_of written.now.key))
        ≡ Some written.now.row }
    requires fits { FitsWhole (begins_by A.span_from) A.fits_at written.now.base
        (part_of written.now.part) }
    requires once { BindsOnce (begins_by A.span_from) table.now super_at
        (member_key_of written.now.key) written.now.base (part_of written.now.part) }
    ensures bound { IfOk result (IsBound (begins_by A.span_from) table.now super_at
        (member_key_of written.now.key) written.now.base (part_of written.now.part)) }
    ensures step { steps.new ≡ steps.old + 1 }
{
    steps.tick();
    bind_uncounted(alloc, table, written, super_at)
}

/// The member of a key, if it is among these.
pub fn member_of_key<'m, 'a, A>(
    members: &'m [WrittenMember<'a, A>],
    key: &MemberKey,
) -> Option<&'m WrittenMember<'a, A>>
    ensures { MatchOption result
        ((w : _) → Contains members.now w → member_key_of w.key ≡ member_key_of key.now → ⊥)
        (λ w. Contains members.now w.now × (member_key_of w.now.key ≡ member_key_of key.now)) }
{
    for member in members {
        if member.key == *key {
            return Some(member);
        }
    }
    None
}

/// The same of the member of a key, where the table's rows are those of the units, which write it.
pub fn bind_member<A: Mark, L: Ledger>(
    alloc: Global,
    table: &Table,
    units: &[Unit<A>],
    member: &MemberKey,
    super_at: u32,
    steps: &mut Steps<L>,
) -> Result<Bound, AllocError>
    requires few { length units.now < 2 ^ 32 }
    requires fits { UnitsFit (begins_by A.span_from) A.fits_at (map unit_of units.now) }
    requires rows { AreProgramRows (declarations_of (begins_by A.span_from) (map unit_of units.now))
        table.now }
    requires written { InUnits (begins_by A.span_from)
        (declarations_of (begins_by A.span_from) (map unit_of units.now))
        (λ k base part. FitsWhole (begins_by A.span_from) A.fits_at base part
        × BindsOnce (begins_by A.span_from) table.now super_at k base part)
        (map unit_of units.now) (member_key_of member.now) }
    ensures bound { IfOk result (λ b. InUnits (begins_by A.span_from)
        (declarations_of (begins_by A.span_from) (map unit_of units.now))
        (λ k base part. IsBound (begins_by A.span_from) table.now super_at k base part b)
        (map unit_of units.now) (member_key_of member.now)) }
    ensures step { steps.new ≡ steps.old + 1 }
{
    table.keeps_rows();
    members_are_written::<A>();
    steps.tick();
    let members = written_members(alloc, table, units)?;
    let written = member_of_key(members.as_slice(), member).unwrap();
    bind_uncounted(alloc, table, written, super_at)
}
