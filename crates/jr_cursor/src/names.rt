//! What a part of a program declares by its own name, by a parameter's or by a local's.
ghost use Rattle.std.specs.Prelude.{◌≡◌, ◌==◌, Some, None, IfOk, option_map, if◌then◌else◌};
ghost use Rattle.jr_ast.specs.View.{class_of, member_of};
ghost use Rattle.jr_members.specs.PartView.{part_of};
ghost use Rattle.jr_rewrite.specs.Rewrites.{declared_by};
ghost use Rattle.jr_table.specs.Decls as decls;
ghost use Rattle.jr_table.specs.KeyView.{decl_of, member_key_of};
ghost use Rattle.jr_table.specs.TypeView.{class_key_of};
ghost use Rattle.jr_cursor.specs.Names as pure;

use crate::searches::{begins_at, in_member};
use jr_ast::{Class, Member, MemberKind};
use jr_members::PartRef;
use jr_table::{ClassKey, Decl, LocalKey, MemberKey};
use jr_text::Span;
use std::alloc::AllocError;

// ---- its own name

fn class_begins(at: u32, class: &Class<Span>) -> bool
    ensures { result ≡ ((pure.class_word (class_of class.now)).mark.from == at) }
{
    begins_at(&class.name, at)
}

#[tactic(auto, unfolding(jr_ast::specs::View::member_kind))]
fn member_begins(at: u32, member: &Member<Span>) -> bool
    ensures { result ≡ pure.member_begins at (member_of member.now) }
{
    match &member.kind {
        MemberKind::Field { name, .. } => begins_at(name, at),
        MemberKind::Method { name, .. } => begins_at(name, at),
        MemberKind::Ctor { name, .. } => begins_at(name, at),
        MemberKind::Inner(_) => false,
    }
}

/// What a member's own name declares: that of a constructor stands for its class.
fn decl_of_member(key: &MemberKey) -> Result<Decl, AllocError>
    ensures { IfOk result (λ d. decl_of d ≡ declared_by (member_key_of key.now)) }
{
    match key {
        MemberKey::Head(key) => Ok(Decl::Class(key.copy()?)),
        MemberKey::Field(key) => Ok(Decl::Field(key.copy()?)),
        MemberKey::Method(key) => Ok(Decl::Method(key.copy()?)),
        MemberKey::Ctor(key) => Ok(Decl::Class(key.class.copy()?)),
    }
}

fn class_there(is_there: bool, key: &ClassKey) -> Result<Option<Decl>, AllocError>
    ensures { IfOk result (λ o. option_map decl_of o
        ≡ (if is_there then Some (decls.class_decl (class_key_of key.now)) else None)) }
{
    if is_there {
        Ok(Some(Decl::Class(key.copy()?)))
    } else {
        Ok(None)
    }
}

fn member_there(is_there: bool, key: &MemberKey) -> Result<Option<Decl>, AllocError>
    ensures { IfOk result (λ o. option_map decl_of o
        ≡ (if is_there then Some (declared_by (member_key_of key.now)) else None)) }
{
    if is_there {
        Ok(Some(decl_of_member(key)?))
    } else {
        Ok(None)
    }
}

fn own_of_class(at: u32, key: &MemberKey, class: &Class<Span>) -> Result<Option<Decl>, AllocError>
    ensures { IfOk result (λ o. option_map decl_of o
        ≡ pure.own_of_class at (member_key_of key.now) (class_of class.now)) }
{
    let is_there = class_begins(at, class);
    match key {
        MemberKey::Head(key) => class_there(is_there, key),
        MemberKey::Field(_) => Ok(None),
        MemberKey::Method(_) => Ok(None),
        MemberKey::Ctor(_) => Ok(None),
    }
}

/// What a part's own name declares, if it begins there.
pub(crate) fn own_name(
    at: u32,
    key: &MemberKey,
    part: &PartRef<'_, Span>,
) -> Result<Option<Decl>, AllocError>
    ensures { IfOk result (λ o. option_map decl_of o
        ≡ pure.own_name at (member_key_of key.now) (part_of part.now)) }
{
    match part {
        PartRef::Head(class) => own_of_class(at, key, class),
        PartRef::Member(member) => member_there(member_begins(at, member), key),
    }
}

// ---- the name of a parameter or local

fn local_of(key: &MemberKey, number: Option<u32>) -> Result<Option<Decl>, AllocError>
    ensures { IfOk result (λ o. option_map decl_of o ≡ option_map
        (λ n. decls.local_decl (record { member = member_key_of key.now; number = n })) number) }
{
    match number {
        None => Ok(None),
        Some(number) => Ok(Some(Decl::Local(LocalKey {
            member: key.copy()?,
            number,
        }))),
    }
}

/// The parameter or local of a part whose name begins there.
pub(crate) fn local_there(
    at: u32,
    key: &MemberKey,
    part: &PartRef<'_, Span>,
) -> Result<Option<Decl>, AllocError>
    ensures { IfOk result (λ o. option_map decl_of o
        ≡ pure.local_there at (member_key_of key.now) (part_of part.now)) }
{
    match part {
        PartRef::Head(_) => Ok(None),
        PartRef::Member(member) => local_of(key, in_member(at, member)?),
    }
}
