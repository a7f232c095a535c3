//! The walk over the head of a class (JLS 8.1).
ghost use Rattle.std.specs.Prelude.{◌≡◌, ℕ, Some, IfOk, option_map};
ghost use Rattle.jr_ast.specs.View.{class_of, type_of};
ghost use Rattle.jr_table.specs.TypeView.{class_key_of};
ghost use Rattle.jr_table.specs.KeyView.{member_key_of};
ghost use Rattle.jr_table.specs.Entries as entries;
ghost use Rattle.jr_new_bodies.specs.OutputView.{gathered};
ghost use Rattle.jr_new_files.specs.Walking.{key_of, rows_of, mapping_of, CanWalk};
ghost use Rattle.jr_new_files.specs.Ready as ready;
ghost use Rattle.jr_new_files.specs.PartEffects as gives;

use crate::beginnings::Walked;
use crate::fields::declared_type;
use crate::words::member_word;
use jr_ast::{Class, Ident, Name, TypeKind, TypeRef};
use jr_new_bodies::{Output, put_alone};
use jr_new_words::{Tables, top_parent};
use jr_table::{ClassKey, MemberKey};
use jr_text::Span;
use std::alloc::{AllocError, Global};

/// The class of a member.
fn class_of_member(key: &MemberKey) -> &ClassKey
    ensures { class_key_of result.now ≡ entries.class_of_member (member_key_of key.now) }
{
    match key {
        MemberKey::Head(key) => key,
        MemberKey::Field(key) => &key.class,
        MemberKey::Method(key) => &key.class,
        MemberKey::Ctor(key) => &key.class,
    }
}

/// The name of a top-level class as a superclass.
fn top_name(
    alloc: Global,
    of: &Walked<'_>,
    name: &Ident<Span>,
    out: &mut Output,
) -> Result<(), AllocError>
    requires walked { CanWalk of.now }
    requires ready { ready.TopNameReady (rows_of of.now) name.now.name }
    ensures { IfOk result (λ _. gives.TopNameGathers (rows_of of.now) (mapping_of of.now)
        name.now.mark name.now.name (gathered out.old) (gathered out.new)) }
{
    let choice = top_parent(alloc, &of.programs, name.mark.from, &name.name)?;
    put_alone(alloc, name.mark, choice.unwrap(), out)
}

/// The superclass of a top-level class, which is one too (JLS 8.1.4).
fn parent_of_top(
    alloc: Global,
    of: &Walked<'_>,
    at: u32,
    ty: &TypeRef<Span>,
    out: &mut Output,
) -> Result<(), AllocError>
    requires walked { CanWalk of.now }
    requires ready { ready.TopReady (rows_of of.now) (type_of ty.now) }
    ensures { IfOk result (λ _. gives.TopParentGathers (rows_of of.now) (mapping_of of.now) at
        (type_of ty.now) (gathered out.old) (gathered out.new)) }
{
    match &ty.kind {
        TypeKind::Named(_outer, name) => top_name(alloc, of, name, out),
        TypeKind::Int => Ok(()),
        TypeKind::Boolean => Ok(()),
    }
}

/// So that no path drops it in pieces.
fn forget(key: MemberKey) {
    drop(key)
}

/// The superclass of a member class, which is seen from the body of the class around it (JLS 6.3,
/// 8.1.4).
fn parent_of_inner(
    alloc: Global,
    of: &Walked<'_>,
    outer: &Name,
    at: u32,
    ty: &TypeRef<Span>,
    out: &mut Output,
) -> Result<(), AllocError>
    requires walked { CanWalk of.now }
    requires ready { ready.ParentReady (rows_of of.now) (Some outer.now) at (type_of ty.now) }
    ensures { IfOk result (λ _. gives.ParentGathers (rows_of of.now) (mapping_of of.now)
        (Some outer.now) at (type_of ty.now) (gathered out.old) (gathered out.new)) }
{
    let name = Name::new(alloc, outer.as_str())?;
    let key = MemberKey::Head(ClassKey { outer: None, name });
    let around = Walked {
        programs: Tables {
            before: of.programs.before,
            after: of.programs.after,
            keys: of.programs.keys,
        },
        key: &key,
        bound: of.bound,
        from: of.from,
    };
    let done = declared_type(alloc, &around, at, ty, out);
    drop(around);
    forget(key);
    done
}

/// The superclass of a class, by the class around it.
fn parent(
    alloc: Global,
    of: &Walked<'_>,
    outer: &Option<Name>,
    at: u32,
    ty: &TypeRef<Span>,
    out: &mut Output,
) -> Result<(), AllocError>
    requires walked { CanWalk of.now }
    requires ready { ready.ParentReady (rows_of of.now) outer.now at
        (type_of ty.now) }
    ensures { IfOk result (λ _. gives.ParentGathers (rows_of of.now) (mapping_of of.now)
        outer.now at (type_of ty.now) (gathered out.old)
        (gathered out.new)) }
{
    match outer {
        None => parent_of_top(alloc, of, at, ty, out),
        Some(outer) => parent_of_inner(alloc, of, outer, at, ty, out),
    }
}

/// The superclass of a class, if one is written.
fn maybe_parent(
    alloc: Global,
    of: &Walked<'_>,
    outer: &Option<Name>,
    at: u32,
    ty: &Option<TypeRef<Span>>,
    out: &mut Output,
) -> Result<(), AllocError>
    requires walked { CanWalk of.now }
    requires ready { ready.MaybeParentReady (rows_of of.now) outer.now at
        (option_map type_of ty.now) }
    ensures { IfOk result (λ _. gives.MaybeParentGathers (rows_of of.now) (mapping_of of.now)
        outer.now at (option_map type_of ty.now) (gathered out.old)
        (gathered out.new)) }
{
    match ty {
        None => Ok(()),
        Some(ty) => parent(alloc, of, outer, at, ty, out),
    }
}

/// The head of a class: the name that it declares, and its superclass.
#[tactic(auto, unfolding(jr_ast::specs::View::member_kind))]
pub(crate) fn head(
    alloc: Global,
    of: &Walked<'_>,
    class: &Class<Span>,
    out: &mut Output,
) -> Result<(), AllocError>
    requires walked { CanWalk of.now }
    requires ready { ready.HeadReady (rows_of of.now) (key_of of.now) (class_of class.now) }
    ensures { IfOk result (λ _. (base : ℕ) → gives.HeadGathers (rows_of of.now) (mapping_of of.now)
        (entries.class_of_member (key_of of.now)) base (class_of class.now) (gathered out.old)
        (gathered out.new)) }
{
    let key = class_of_member(of.key);
    member_word(alloc, of, &class.name, out)?;
    maybe_parent(alloc, of, &key.outer, class.mark.from, &class.parent, out)
}
