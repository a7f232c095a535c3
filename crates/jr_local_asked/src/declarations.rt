//! Where a body of a file declares a local.
ghost use Rattle.std.specs.Prelude.{◌≡◌, ◌<◌, IfOk, MatchOption, length, map, option_map, slice_get, ⊤};
ghost use Rattle.jr_table.specs.KeyView.{local_key_of};
ghost use Rattle.jr_members.specs.PartView.{part_of, written_of};
ghost use Rattle.jr_bodies.specs.CodeView.{code_of as seen};
ghost use Rattle.jr_local_search.specs.Walking.{declaration_of as declaration};
ghost use Rattle.jr_local_asked.specs.Declaring as pure;
ghost use Rattle.jr_local_asked.specs.Declaring.{members_of};
ghost use Rattle.jr_local_asked.specs.DeclaredView.{declared_of};

use jr_ast::{Param, Stmt};
use jr_bind::View;
use jr_bodies::{Code, code_of};
use jr_local_search::{Declaration, declaration_of, declarations_have_ways, ways_are_declared};
use jr_members::{PartRef, WrittenMember};
use jr_table::LocalKey;
use jr_text::Span;
use std::alloc::AllocError;

/// A declared local: the number of its written member, the member's code, and the list from the
/// declaration on.
pub struct DeclaredLocal<'a> {
    pub member: u32,
    pub code: Code<'a>,
    pub list: &'a [Stmt<Span>],
}

impl Copy for DeclaredLocal<'_> {}

impl Clone for DeclaredLocal<'_> {
    ghost is_clone = { λ x y. y ≡ x };

    ghost is_infallible = { λ _. ⊤ };

    fn clone(&self) -> Result<Self, AllocError> {
        Ok(*self)
    }
}

fn count_params(params: &[Param<Span>]) -> Result<u32, AllocError>
    ensures { IfOk result (λ n. n ≡ length params.now) }
{
    match u32::try_from(params.len()) {
        Err(_) => Err(AllocError),
        Ok(count) => Ok(count),
    }
}

/// The declaration, where it is an element of a list.
fn listed<'a>(
    member: u32,
    code: Code<'a>,
    found: Option<Declaration<'a>>,
) -> Option<DeclaredLocal<'a>>
    ensures { option_map declared_of result
        ≡ pure.listed member (seen code.entry) (option_map declaration found.entry) }
{
    match found {
        None => None,
        Some(found) => match found.list {
            None => None,
            Some(list) => Some(DeclaredLocal { member, code, list }),
        },
    }
}

fn in_code<'a>(
    member: u32,
    code: Code<'a>,
    local: u32,
) -> Result<Option<DeclaredLocal<'a>>, AllocError>
    ensures { IfOk result (λ o. pure.IsOfCode member local (seen code.entry) (option_map declared_of o)) }
{
    declarations_have_ways();
    ways_are_declared();
    let first = count_params(code.params)?;
    let found = declaration_of(local, first, code.list)?;
    Ok(listed(member, code, found))
}

fn in_part<'a>(
    member: u32,
    part: &PartRef<'a, Span>,
    local: u32,
) -> Result<Option<DeclaredLocal<'a>>, AllocError>
    ensures { IfOk result (λ o. pure.IsOfPart member local (part_of part.now)
        (option_map declared_of o)) }
{
    let code = code_of(part)?;
    match code {
        None => Ok(None),
        Some(code) => in_code(member, code, local),
    }
}

/// In a written member of the file, if it is that of the local.
fn in_file<'a>(
    file: u32,
    key: &LocalKey,
    number: u32,
    written: &WrittenMember<'a, Span>,
) -> Result<Option<DeclaredLocal<'a>>, AllocError>
    requires { written.now.file ≡ file }
    ensures { IfOk result (λ o. pure.IsOfWritten file number (local_key_of key.now)
        (written_of written.now) (option_map declared_of o)) }
{
    if written.key == key.member {
        in_part(number, &written.part, key.number)
    } else {
        Ok(None)
    }
}

/// In the written member of a number, if it is one of the file.
fn in_written<'a>(
    file: u32,
    key: &LocalKey,
    number: u32,
    written: &WrittenMember<'a, Span>,
) -> Result<Option<DeclaredLocal<'a>>, AllocError>
    ensures { IfOk result (λ o. pure.IsOfWritten file number (local_key_of key.now)
        (written_of written.now) (option_map declared_of o)) }
{
    if written.file == file {
        in_file(file, key, number, written)
    } else {
        Ok(None)
    }
}

fn member_at<'m, 'a>(
    members: &'m [WrittenMember<'a, Span>],
    number: u32,
) -> Option<&'m WrittenMember<'a, Span>>
    ensures { option_map (λ w. w.now) result ≡ slice_get members.now number }
{
    members.get(number as usize)
}

/// The same by the number alone.
fn in_member<'a, V: View<Span>>(
    view: &V,
    members: &[WrittenMember<'a, Span>],
    file: u32,
    key: &LocalKey,
    number: u32,
) -> Result<Option<DeclaredLocal<'a>>, AllocError>
    requires number { number < length (V.program view.now).bounds }
    requires members { map written_of members.now ≡ members_of (V.program view.now) }
    ensures { IfOk result (λ o. pure.IsInMember (V.program view.now) file (local_key_of key.now)
        number (option_map declared_of o)) }
{
    view.keeps_program();
    match member_at(members, number) {
        None => Ok(None),
        Some(written) => in_written(file, key, number, written),
    }
}

/// Where a body of the file declares the local (JLS 14.4), if one does. `members` are the written
/// members of the program. The only fault is want of memory.
pub fn declared_local<'a, V: View<Span>>(
    view: &V,
    members: &[WrittenMember<'a, Span>],
    file: u32,
    key: &LocalKey,
) -> Result<Option<DeclaredLocal<'a>>, AllocError>
    requires { map written_of members.now ≡ members_of (V.program view.now) }
    ensures { IfOk result (λ o. MatchOption o
        (pure.IsNowhere (V.program view.now) file (local_key_of key.now))
        (λ x. pure.IsThere (V.program view.now) file (local_key_of key.now) (declared_of x))) }
{
    for number in 0..view.bound_count() {
        let found = in_member(view, members, file, key, number)?;
        if found.is_some() {
            return Ok(found);
        }
    }
    Ok(None)
}
