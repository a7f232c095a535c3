//! The expression that a span selects in a file.
ghost use Rattle.std.specs.Prelude.{◌≡◌, ◌<◌, IfOk, MatchOption, length, map, option_map, slice_get};
ghost use Rattle.jr_members.specs.PartView.{part_of, written_of};
ghost use Rattle.jr_bodies.specs.CodeView.{code_of as seen};
ghost use Rattle.jr_local_finds.specs.Chosen as pure;
ghost use Rattle.jr_local_finds.specs.Chosen.{HasValue, LacksValues, members_of};
ghost use Rattle.jr_local_finds.specs.ValueView.{chosen_of};

use crate::values::{Value, value_in};
use jr_bind::{Bound, View};
use jr_bodies::{Code, bodies_are_nested, code_of};
use jr_members::{PartRef, WrittenMember};
use jr_text::Span;
use std::alloc::{AllocError, Global};

/// An expression of a body: the number of its written member, the member's code, and where the
/// expression stands in that.
#[derive(Drop)]
pub struct SelectedValue<'a> {
    pub member: u32,
    pub code: Code<'a>,
    pub value: Value<'a>,
}

fn in_code<'a>(
    alloc: Global,
    bound: &'a Bound,
    code: Code<'a>,
    span: &Span,
    number: u32,
) -> Result<Option<SelectedValue<'a>>, AllocError>
    ensures { IfOk result (λ o. pure.IsOfCode span.now number bound.now (seen code.entry)
        (option_map chosen_of o)) }
{
    let value = value_in(alloc, bound, &code, span)?;
    match value {
        None => Ok(None),
        Some(value) => Ok(Some(SelectedValue {
            member: number,
            code,
            value,
        })),
    }
}

fn in_part<'a>(
    alloc: Global,
    bound: &'a Bound,
    part: &PartRef<'a, Span>,
    span: &Span,
    number: u32,
) -> Result<Option<SelectedValue<'a>>, AllocError>
    ensures { IfOk result (λ o. pure.IsOfPart span.now number bound.now (part_of part.now)
        (option_map chosen_of o)) }
{
    let code = code_of(part)?;
    match code {
        None => Ok(None),
        Some(code) => in_code(alloc, bound, code, span, number),
    }
}

/// What the written member of a number has, if it is one of the file.
fn in_written<'a, V: View<Span>>(
    alloc: Global,
    view: &'a V,
    file: u32,
    span: &Span,
    number: u32,
    written: &WrittenMember<'a, Span>,
) -> Result<Option<SelectedValue<'a>>, AllocError>
    requires { number < length (V.program view.now).bounds }
    ensures { IfOk result (λ o. pure.IsOfWritten (V.program view.now) file span.now number
        (written_of written.now) (option_map chosen_of o)) }
{
    if written.file == file {
        in_part(alloc, view.bound(number), &written.part, span, number)
    } else {
        Ok(None)
    }
}

fn member_at<'m, 'a>(
    members: &'m [WrittenMember<'a, Span>],
    number: u32,
) -> Option<&'m WrittenMember<'a, Span>>
    ensures { option_map (λ w. w.now) result ≡ slice_get members.now number }
{
    members.get(number as usize)
}

/// The same by the number alone.
fn in_member<'a, V: View<Span>>(
    alloc: Global,
    view: &'a V,
    members: &[WrittenMember<'a, Span>],
    file: u32,
    span: &Span,
    number: u32,
) -> Result<Option<SelectedValue<'a>>, AllocError>
    requires number { number < length (V.program view.now).bounds }
    requires members { map written_of members.now ≡ members_of (V.program view.now) }
    ensures { IfOk result (λ o. pure.IsInMember (V.program view.now) file span.now number
        (option_map chosen_of o)) }
{
    bodies_are_nested();
    view.keeps_program();
    match member_at(members, number) {
        None => Ok(None),
        Some(written) => in_written(alloc, view, file, span, number, written),
    }
}

/// The expression of exactly this span in a body of the file, where a local can take its value: it
/// is used for its value, and has a type that is neither `void` nor that of null; what has a type is
/// no class's name. `members` are the written members of the program. The only fault is want of
/// memory.
pub fn selected_value<'a, V: View<Span>>(
    alloc: Global,
    view: &'a V,
    members: &[WrittenMember<'a, Span>],
    file: u32,
    span: &Span,
) -> Result<Option<SelectedValue<'a>>, AllocError>
    requires { map written_of members.now ≡ members_of (V.program view.now) }
    ensures { IfOk result (λ o. MatchOption o (LacksValues (V.program view.now) file span.now)
        (λ x. HasValue (V.program view.now) file span.now (chosen_of x))) }
{
    for number in 0..view.bound_count() {
        let found = in_member(alloc, view, members, file, span, number)?;
        if found.is_some() {
            return Ok(found);
        }
        drop(found);
    }
    Ok(None)
}
