//! The parts of a program that are members of their own, from its trees.
ghost use Rattle.std.specs.Prelude.{◌≡◌, ◌<◌, ◌^◌, ◌∷◌, [], length, map, IfOk};
ghost use Rattle.jr_ast.specs.View.{class_of, member_of, members_of, unit_of};
ghost use Rattle.jr_table.specs.Errors.{class_part, member_part};
ghost use Rattle.jr_members.specs.Fitting.{begins_by, MemberFits, ClassFits, MembersFit};
ghost use Rattle.jr_members.specs.Fitting.{ClassesFit, UnitsFit};
ghost use Rattle.jr_members.specs.Parts.{placed, member_parts, class_parts, members_parts};
ghost use Rattle.jr_members.specs.Parts.{classes_parts, units_parts};
ghost use Rattle.jr_members.specs.PartView.{placed_of, Gathers};

use crate::parts::{PartRef, Placed};
use jr_ast::{Class, Member, MemberKind, Unit};
use jr_text::Mark;
use std::alloc::{AllocError, Global};

/// Where what is gathered stands: its file, and where its parent begins.
#[derive(Clone, Copy, Drop)]
struct Within {
    file: u32,
    base: u32,
}

/// Where a node begins, if its parent begins at the base.
fn begin<A: Mark>(mark: &A, base: u32) -> u32
    requires { A.fits_at mark.now base }
    ensures { result ≡ begins_by A.span_from mark.now base }
{
    mark.span(base).from
}

/// Puts the head of a class behind the parts.
fn push_head<'a, A: Mark>(
    parts: &mut Vec<Placed<'a, A>>,
    at: Within,
    class: &'a Class<A>,
) -> Result<(), AllocError>
    ensures { Gathers result parts.old.items parts.new.items
        (placed at.file at.base (class_part (class_of class.now)) ∷ []) }
{
    parts.push(Placed {
        file: at.file,
        base: at.base,
        part: PartRef::Head(class),
    })?;
    Ok(())
}

/// Puts a field, method or constructor behind the parts.
fn push_member<'a, A: Mark>(
    parts: &mut Vec<Placed<'a, A>>,
    at: Within,
    member: &'a Member<A>,
) -> Result<(), AllocError>
    ensures { Gathers result parts.old.items parts.new.items
        (placed at.file at.base (member_part (member_of member.now)) ∷ []) }
{
    parts.push(Placed {
        file: at.file,
        base: at.base,
        part: PartRef::Member(member),
    })?;
    Ok(())
}

/// Puts the parts that a member is behind the others.
#[cycle(gathering)]
#[tactic(auto, unfolding(jr_ast::specs::View::member_kind, crate::specs::Parts::member_parts))]
fn member<'a, A: Mark>(
    parts: &mut Vec<Placed<'a, A>>,
    at: Within,
    member: &'a Member<A>,
) -> Result<(), AllocError>
    requires { MemberFits (begins_by A.span_from) A.fits_at at.base (member_of member.now) }
    ensures { Gathers result parts.old.items parts.new.items
        (member_parts (begins_by A.span_from) at.file at.base (member_of member.now)) }
{
    match &member.kind {
        MemberKind::Field { .. } => push_member(parts, at, member),
        MemberKind::Method { .. } => push_member(parts, at, member),
        MemberKind::Ctor { .. } => push_member(parts, at, member),
        MemberKind::Inner(inner) => {
            let here = Within {
                file: at.file,
                base: begin(&member.mark, at.base),
            };
            class(parts, here, inner)
        }
    }
}

/// Puts a class's head and what its members are behind the others.
#[cycle(gathering)]
#[tactic(auto, unfolding(crate::specs::Fitting::ClassFits, crate::specs::Parts::class_parts))]
fn class<'a, A: Mark>(
    parts: &mut Vec<Placed<'a, A>>,
    at: Within,
    class: &'a Class<A>,
) -> Result<(), AllocError>
    requires { ClassFits (begins_by A.span_from) A.fits_at at.base (class_of class.now) }
    ensures { Gathers result parts.old.items parts.new.items
        (class_parts (begins_by A.span_from) at.file at.base (class_of class.now)) }
{
    push_head(parts, at, class)?;
    let here = Within {
        file: at.file,
        base: begin(&class.mark, at.base),
    };
    members(parts, here, &class.members)
}

/// Puts what members are behind the others.
#[cycle(gathering)]
fn members<'a, A: Mark>(
    parts: &mut Vec<Placed<'a, A>>,
    at: Within,
    members: &'a [Member<A>],
) -> Result<(), AllocError>
    requires { MembersFit (begins_by A.span_from) A.fits_at at.base (members_of members.now) }
    ensures { Gathers result parts.old.items parts.new.items
        (members_parts (begins_by A.span_from) at.file at.base (members_of members.now)) }
{
    for part in members {
        member(parts, at, part)?;
    }
    Ok(())
}

/// Puts what a file's classes are behind the others.
fn classes<'a, A: Mark>(
    parts: &mut Vec<Placed<'a, A>>,
    at: Within,
    classes: &'a [Class<A>],
) -> Result<(), AllocError>
    requires { ClassesFit (begins_by A.span_from) A.fits_at at.base (map class_of classes.now) }
    ensures { Gathers result parts.old.items parts.new.items
        (classes_parts (begins_by A.span_from) at.file at.base (map class_of classes.now)) }
{
    for part in classes {
        class(parts, at, part)?;
    }
    Ok(())
}

/// The parts of a program that are members of their own.
pub(crate) fn program_parts<'a, A: Mark>(
    alloc: Global,
    units: &'a [Unit<A>],
) -> Result<Vec<Placed<'a, A>>, AllocError>
    requires fits { UnitsFit (begins_by A.span_from) A.fits_at (map unit_of units.now) }
    requires few { length units.now < 2 ^ 32 }
    ensures { IfOk result (λ parts. map placed_of parts.items
        ≡ units_parts (begins_by A.span_from) (map unit_of units.now)) }
{
    let mut parts = Vec::new(alloc);
    for (file, unit) in units.iter().enumerate() {
        let at = Within {
            file: file as u32,
            base: begin(&unit.mark, 0),
        };
        classes(&mut parts, at, &unit.classes)?;
    }
    Ok(parts)
}
