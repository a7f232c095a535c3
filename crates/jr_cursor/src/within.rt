//! What a written member has at a byte of its file.
ghost use Rattle.std.specs.Prelude.{◌≡◌, Some, IfOk, option_map};
ghost use Rattle.jr_bind.specs.Bounds.{decl_in};
ghost use Rattle.jr_members.specs.PartView.{written_of};
ghost use Rattle.jr_table.specs.KeyView.{decl_of};
ghost use Rattle.jr_cursor.specs.Names as pure;
ghost use Rattle.jr_cursor.specs.Names.{Finds, HasWithin, HasThere};

use crate::names::{local_there, own_name};
use crate::preludes::foreign_found;
use jr_bind::Bound;
use jr_members::WrittenMember;
use jr_program::first_byte;
use jr_table::{Decl, Facts, Table};
use jr_text::Span;
use std::alloc::AllocError;

/// What the reference at a place of a member is bound to.
fn bound_at(bound: &Bound, at: u32) -> Result<Option<Decl>, AllocError>
    ensures { IfOk result (λ o. option_map decl_of o ≡ decl_in bound.now.references at) }
{
    match bound.decl(at) {
        None => Ok(None),
        Some(decl) => Ok(Some(decl.copy()?)),
    }
}

/// The same of a byte of the file, where the member begins at `from`.
fn bound_there(bound: &Bound, at: u32, from: u32) -> Result<Option<Decl>, AllocError>
    ensures { IfOk result (λ o. option_map decl_of o
        ≡ pure.bound_there at from bound.now.references) }
{
    if at < from {
        Ok(None)
    } else {
        bound_at(bound, at - from)
    }
}

/// The parameter or local whose name begins there, or what a reference there is bound to.
fn has_within(
    table: &Table,
    bound: &Bound,
    written: &WrittenMember<'_, Span>,
    at: u32,
) -> Result<Option<Decl>, AllocError>
    ensures { IfOk result (λ o. Finds table.now (HasWithin at (written_of written.now) bound.now)
        (option_map decl_of o)) }
{
    table.keeps_rows();
    match local_there(at, &written.key, &written.part)? {
        Some(decl) => Ok(Some(decl)),
        None => {
            let found = bound_there(bound, at, first_byte(&written.part))?;
            Ok(foreign_found(table, found))
        }
    }
}

/// What a written member declares there, or what a reference there is bound to.
pub(crate) fn has_there(
    table: &Table,
    bound: &Bound,
    written: &WrittenMember<'_, Span>,
    at: u32,
) -> Result<Option<Decl>, AllocError>
    ensures { IfOk result (λ o. Finds table.now (HasThere at (written_of written.now) bound.now)
        (option_map decl_of o)) }
{
    let own = own_name(at, &written.key, &written.part)?;
    match foreign_found(table, own) {
        Some(decl) => Ok(Some(decl)),
        None => has_within(table, bound, written, at),
    }
}
