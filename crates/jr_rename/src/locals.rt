//! The local or parameter with which one collides that gets a name.
ghost use Rattle.std.specs.Prelude.{◌≡◌, map, IfOk};
ghost use Rattle.std.specs.Prelude.{option_map};
ghost use Rattle.jr_members.specs.PartView.{part_of, written_of};
ghost use Rattle.jr_table.specs.Decls as decls;
ghost use Rattle.jr_table.specs.KeyView.{decl_of, member_key_of, local_key_of};
ghost use Rattle.jr_bind.specs.Programs.{units_of};
ghost use Rattle.jr_program_laws.specs.FileParts.{begins};
ghost use Rattle.jr_new_files.specs.FileEffects.{members_of};
ghost use Rattle.jr_rename.specs.Answered.{Tells};
ghost use Rattle.jr_rename.specs.LocalAnswers as pure;
ghost use Rattle.jr_rename.specs.Walks.{asked_of, walk_of};

use crate::walks::{Asked, Walk, in_member, start};
use jr_ast::Name;
use jr_bind::{View, member_of_key};
use jr_members::{PartRef, WrittenMember, members_are_written};
use jr_table::{Decl, LocalKey, MemberKey};
use jr_text::Span;
use std::alloc::{AllocError, Global};

/// Behind the whole part.
fn part_walk<'a, A>(
    alloc: Global,
    asked: &Asked<'_>,
    key: &MemberKey,
    part: &PartRef<'a, A>,
) -> Result<Walk<'a>, AllocError>
    ensures { IfOk result (λ w. walk_of w
        ≡ pure.part_walk (asked_of asked.now) (member_key_of key.now) (part_of part.now)) }
{
    match part {
        PartRef::Head(_) => Ok(start(alloc)),
        PartRef::Member(member) => in_member(alloc, asked, key, member),
    }
}

/// The local of a number.
fn local(member: &MemberKey, number: u32) -> Result<Decl, AllocError>
    ensures { IfOk result (λ d. decl_of d
        ≡ decls.local_decl (record { member = member_key_of member.now; number = number })) }
{
    Ok(Decl::Local(LocalKey {
        member: member.copy()?,
        number,
    }))
}

/// What a walk tells.
fn answer(target: &LocalKey, walk: &Walk<'_>) -> Result<Option<Decl>, AllocError>
    ensures { IfOk result (λ o. option_map decl_of o
        ≡ pure.told (local_key_of target.now) (walk_of walk.now)) }
{
    if walk.is_named {
        return Ok(Some(local(&target.member, target.number)?));
    }
    match walk.least {
        None => Ok(None),
        Some(number) => Ok(Some(local(&target.member, number)?)),
    }
}

/// What a member tells of its local.
fn answer_in<A>(
    alloc: Global,
    written: &WrittenMember<'_, A>,
    target: &LocalKey,
    new: &Name,
) -> Result<Option<Decl>, AllocError>
    ensures { IfOk result (λ o. option_map decl_of o ≡ pure.told (local_key_of target.now)
        (pure.part_walk (pure.asked_local (local_key_of target.now) new.now)
        (member_key_of written.now.key) (part_of written.now.part))) }
{
    let asked = Asked {
        number: target.number,
        name: new,
    };
    let walk = part_walk(alloc, &asked, &written.key, &written.part)?;
    answer(target, &walk)
}

/// With what a local or parameter collides that gets the name.
pub(crate) fn local_clash<V: View<Span>>(
    alloc: Global,
    view: &V,
    members: &[WrittenMember<'_, Span>],
    target: &LocalKey,
    new: &Name,
) -> Result<Option<Decl>, AllocError>
    requires members { map written_of members.now ≡ members_of (V.program view.now) }
    ensures { IfOk result (λ o. Tells begins (V.program view.now).rows
        (units_of (V.program view.now)) (decls.local_decl (local_key_of target.now)) new.now
        (option_map decl_of o)) }
{
    view.keeps_program();
    members_are_written::<Span>();
    let found = member_of_key(members, &target.member);
    match found {
        None => Ok(None),
        Some(written) => answer_in(alloc, written, target, new),
    }
}
