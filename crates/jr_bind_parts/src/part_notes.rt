//! The walk over a part of a program.
ghost use Rattle.std.specs.Prelude.{◌≡◌, ◌++◌, Some, IfOk};
ghost use Rattle.jr_ast.specs.View.{class_of};
ghost use Rattle.jr_table.specs.KeyView.{member_key_of};
ghost use Rattle.jr_table.specs.Entries.{number_of};
ghost use Rattle.jr_table.specs.Errors.{class_part};
ghost use Rattle.jr_table.specs.Walks as walks;
ghost use Rattle.jr_expr_types.specs.Trees.{flat};
ghost use Rattle.jr_expr_types.specs.TypedTrees.{part_tree};
ghost use Rattle.jr_members.specs.PartView.{part_of};
ghost use Rattle.jr_bind_expr.specs.Places.{decl_of};
ghost use Rattle.jr_bind_parts.specs.Heads.{FitsHead};
ghost use Rattle.jr_bind_expr.specs.Logs.{notes_of, Adds};
ghost use Rattle.jr_bind_parts.specs.PartFits.{FitsPart};

use crate::heads::put_head;
use crate::member_notes::note_member;
use jr_ast::Class;
use jr_bind_expr::{Note, put_leaf};
use jr_expr_types::Types;
use jr_members::PartRef;
use jr_table::{MemberKey, Table};
use jr_text::Mark;
use std::alloc::{AllocError, Global};

/// The head of a class, where the key is that of a class.
fn note_head<A: Mark>(
    alloc: Global,
    table: &Table,
    key: &MemberKey,
    row: u32,
    super_at: u32,
    base: u32,
    of: &Class<A>,
    log: &mut Vec<Note>,
) -> Result<(), AllocError>
    requires row { number_of table.now (decl_of (member_key_of key.now)) ≡ Some row }
    requires fits { FitsHead (λ m b. (A.span_from m b).from) A.fits_at base (class_of of.now) }
    ensures { IfOk result (λ _. Adds (notes_of table.now (member_key_of key.now) log.old.items)
        (walks.part_notes (λ m b. (A.span_from m b).from) table.now super_at
        (member_key_of key.now) base (class_part (class_of of.now)))
        (notes_of table.now (member_key_of key.now) log.new.items)) }
{
    match key {
        MemberKey::Head(_) => put_head(alloc, table, row, base, of, log),
        MemberKey::Field(_) => Ok(()),
        MemberKey::Method(_) => Ok(()),
        MemberKey::Ctor(_) => Ok(()),
    }
}

/// Notes what a part of a program finds and breaks: its head or declaration, and all that stands in
/// it; and makes its tree of types. `row` is the row of its key. A written `super(..)` stands at
/// `super_at`.
pub fn note_part<'a, A: Mark>(
    alloc: Global,
    table: &Table,
    key: &'a MemberKey,
    row: u32,
    super_at: u32,
    base: u32,
    of: &PartRef<'a, A>,
    log: &mut Vec<Note>,
    types: &mut Types,
) -> Result<(), AllocError>
    requires row { number_of table.now (decl_of (member_key_of key.now)) ≡ Some row }
    requires fits { FitsPart (λ m b. (A.span_from m b).from) A.fits_at base (part_of of.now) }
    ensures notes { IfOk result (λ _. Adds
        (notes_of table.now (member_key_of key.now) log.old.items)
        (walks.part_notes (λ m b. (A.span_from m b).from) table.now super_at
        (member_key_of key.now) base (part_of of.now))
        (notes_of table.now (member_key_of key.now) log.new.items)) }
    ensures slots { IfOk result (λ _. types.new ≡ types.old ++ flat (part_tree
        (λ m b. (A.span_from m b).from) table.now (member_key_of key.now) (part_of of.now))) }
{
    match *of {
        PartRef::Head(class) => {
            put_leaf(types)?;
            note_head(alloc, table, key, row, super_at, base, class, log)
        }
        PartRef::Member(member) => {
            note_member(alloc, table, key, row, super_at, base, member, log, types)
        }
    }
}
