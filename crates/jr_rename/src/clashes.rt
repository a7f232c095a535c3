//! The declaration with which a new name collides.
ghost use Rattle.std.specs.Prelude.{◌≡◌, Some, map, option_map, IfOk, MatchOption};
ghost use Rattle.jr_members.specs.PartView.{written_of};
ghost use Rattle.jr_table.specs.Decls as decls;
ghost use Rattle.jr_table.specs.KeyView.{decl_of};
ghost use Rattle.jr_table.specs.TypeView.{class_key_of};
ghost use Rattle.jr_bind.specs.Programs.{units_of};
ghost use Rattle.jr_program_laws.specs.FileParts.{begins};
ghost use Rattle.jr_images.specs.Families.{AreRenamed};
ghost use Rattle.jr_new_files.specs.FileEffects.{members_of};
ghost use Rattle.jr_rename.specs.Answered.{Tells};
ghost use Rattle.jr_rename.specs.ProgramClashes.{ClashesIn, IsClearIn};
ghost use Rattle.jr_rename.specs.RowAnswers.{IsOfMember};

use crate::locals::local_clash;
use crate::rows::{class_told, has_name, member_told};
use jr_ast::Name;
use jr_bind::View;
use jr_members::WrittenMember;
use jr_table::{ClassKey, Decl};
use jr_text::Span;
use std::alloc::{AllocError, Global};

/// The declaration itself.
fn itself(decl: &Decl) -> Result<Option<Decl>, AllocError>
    ensures { IfOk result (λ o. option_map decl_of o ≡ Some (decl_of decl.now)) }
{
    Ok(Some(decl.copy()?))
}

/// What is told of a class.
fn of_class<V: View<Span>>(
    alloc: Global,
    view: &V,
    target: &Decl,
    class: &ClassKey,
    new: &Name,
) -> Result<Option<Decl>, AllocError>
    requires { decl_of target.now ≡ decls.class_decl (class_key_of class.now) }
    ensures { IfOk result (λ o. Tells begins (V.program view.now).rows
        (units_of (V.program view.now)) (decl_of target.now) new.now (option_map decl_of o)) }
{
    if has_name(target, new) {
        return itself(target);
    }
    class_told(alloc, view.table(), class, new)
}

/// What is told of a field or method.
fn of_member<V: View<Span>>(
    view: &V,
    target: &Decl,
    renamed: &[Decl],
    new: &Name,
) -> Result<Option<Decl>, AllocError>
    requires renamed { AreRenamed (V.program view.now).rows (decl_of target.now)
        (map decl_of renamed.now) }
    requires member { IsOfMember (decl_of target.now) }
    ensures { IfOk result (λ o. Tells begins (V.program view.now).rows
        (units_of (V.program view.now)) (decl_of target.now) new.now (option_map decl_of o)) }
{
    if has_name(target, new) {
        return itself(target);
    }
    member_told(view.table(), renamed, new)
}

/// What is told, by the kind of the target.
fn of_target<V: View<Span>>(
    alloc: Global,
    view: &V,
    members: &[WrittenMember<'_, Span>],
    target: &Decl,
    renamed: &[Decl],
    new: &Name,
) -> Result<Option<Decl>, AllocError>
    requires members { map written_of members.now ≡ members_of (V.program view.now) }
    requires renamed { AreRenamed (V.program view.now).rows (decl_of target.now)
        (map decl_of renamed.now) }
    ensures { IfOk result (λ o. Tells begins (V.program view.now).rows
        (units_of (V.program view.now)) (decl_of target.now) new.now (option_map decl_of o)) }
{
    match target {
        Decl::Local(key) => local_clash(alloc, view, members, key, new),
        Decl::Class(key) => of_class(alloc, view, target, key, new),
        Decl::Field(_) => of_member(view, target, renamed, new),
        Decl::Method(_) => of_member(view, target, renamed, new),
        Decl::Ctor(_) => of_member(view, target, renamed, new),
    }
}

/// What a declaration collides with that gets the name together with what is renamed with it: the
/// declaration itself where it has the name already, or else the first that collides, in file and
/// text order. `members` are the written members of the program.
pub(crate) fn clash<V: View<Span>>(
    alloc: Global,
    view: &V,
    members: &[WrittenMember<'_, Span>],
    target: &Decl,
    renamed: &[Decl],
    new: &Name,
) -> Result<Option<Decl>, AllocError>
    requires members { map written_of members.now ≡ members_of (V.program view.now) }
    requires renamed { AreRenamed (V.program view.now).rows (decl_of target.now)
        (map decl_of renamed.now) }
    ensures { IfOk result (λ found. MatchOption found
        (IsClearIn (V.program view.now) (decl_of target.now) new.now)
        (λ d. ClashesIn (V.program view.now) (decl_of target.now) new.now (decl_of d))) }
{
    of_target(alloc, view, members, target, renamed, new)
}
