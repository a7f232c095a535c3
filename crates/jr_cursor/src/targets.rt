//! The declaration that the identifier at a byte of a program names.
ghost use Rattle.std.specs.Prelude.{◌≡◌, ◌<◌, Some, length, map, IfOk, MatchOption, option_map};
ghost use Rattle.std.specs.Prelude.{slice_get};
ghost use Rattle.jr_members.specs.PartView.{written_of};
ghost use Rattle.jr_program_laws.specs.FileParts.{begins};
ghost use Rattle.jr_table.specs.KeyView.{decl_of};
ghost use Rattle.jr_bind.specs.Programs.{units_of};
ghost use Rattle.jr_images.specs.Targets.{Names};
ghost use Rattle.jr_cursor.specs.Listed.{members_of, HasNumbered, HasListed};
ghost use Rattle.jr_cursor.specs.Names.{Finds, HasInFile};
ghost use Rattle.jr_cursor.specs.ProgramTargets.{HasTargetAt, LacksTargetAt};

use crate::within::has_there;
use crate::words::identifier_at;
use jr_bind::View;
use jr_lex::{items_are_placed, one_answer};
use jr_members::{WrittenMember, members_are_written};
use jr_program_laws::parts_are_placed;
use jr_table::Decl;
use jr_text::Span;
use std::alloc::AllocError;

/// What the written member of a number has there, if it is one of the file.
fn has_in_file<V: View<Span>>(
    view: &V,
    file: u32,
    at: u32,
    number: u32,
    written: &WrittenMember<'_, Span>,
) -> Result<Option<Decl>, AllocError>
    requires { number < length (V.program view.now).bounds }
    ensures { IfOk result (λ o. Finds (V.program view.now).rows
        (HasInFile (V.program view.now) file at number (written_of written.now))
        (option_map decl_of o)) }
{
    if written.file == file {
        has_there(view.table(), view.bound(number), written, at)
    } else {
        Ok(None)
    }
}

fn member_at<'m, 'a>(
    members: &'m [WrittenMember<'a, Span>],
    number: u32,
) -> Option<&'m WrittenMember<'a, Span>>
    ensures { option_map (λ w. w.now) result ≡ slice_get members.now number }
{
    members.get(number as usize)
}

/// The same by the number alone.
fn has_numbered<V: View<Span>>(
    view: &V,
    file: u32,
    at: u32,
    number: u32,
    members: &[WrittenMember<'_, Span>],
) -> Result<Option<Decl>, AllocError>
    requires { number < length (V.program view.now).bounds }
    ensures { IfOk result (λ o. Finds (V.program view.now).rows
        (HasNumbered (V.program view.now) members.now file at number) (option_map decl_of o)) }
{
    match member_at(members, number) {
        None => Ok(None),
        Some(written) => has_in_file(view, file, at, number, written),
    }
}

/// What one of the written members has there.
fn has_listed<V: View<Span>>(
    view: &V,
    file: u32,
    at: u32,
    members: &[WrittenMember<'_, Span>],
) -> Result<Option<Decl>, AllocError>
    ensures { IfOk result (λ o. Finds (V.program view.now).rows
        (HasListed (V.program view.now) members.now file at) (option_map decl_of o)) }
{
    for number in 0..view.bound_count() {
        let found = has_numbered(view, file, at, number, members)?;
        if found.is_some() {
            return Ok(found);
        }
        drop(found);
    }
    Ok(None)
}

/// What the word that begins at a byte of a file declares or is bound to.
fn decl_named<V: View<Span>>(
    view: &V,
    members: &[WrittenMember<'_, Span>],
    file: u32,
    at: u32,
) -> Result<Option<Decl>, AllocError>
    requires file { file < length (V.program view.now).files }
    requires members { map written_of members.now ≡ members_of (V.program view.now) }
    ensures { IfOk result (λ o. Finds (V.program view.now).rows
        (Names begins (V.program view.now).rows (V.program view.now).super_at
        (units_of (V.program view.now)) file at) (option_map decl_of o)) }
{
    view.keeps_program();
    members_are_written::<Span>();
    parts_are_placed();
    has_listed(view, file, at, members)
}

/// The declaration that the identifier at a byte of a file declares or is bound to. A constructor's
/// name stands for its class; what is of the prelude or of the package is none. `members` are the
/// written members of the program.
pub fn target<V: View<Span>>(
    view: &V,
    members: &[WrittenMember<'_, Span>],
    file: u32,
    at: u32,
) -> Result<Option<Decl>, AllocError>
    requires file { file < length (V.program view.now).files }
    requires members { map written_of members.now ≡ members_of (V.program view.now) }
    ensures { IfOk result (λ found. MatchOption found (LacksTargetAt (V.program view.now) file at)
        (λ d. HasTargetAt (V.program view.now) file at (decl_of d))) }
{
    items_are_placed();
    one_answer();
    match identifier_at(view.items(file), at) {
        None => Ok(None),
        Some(from) => decl_named(view, members, file, from),
    }
}
