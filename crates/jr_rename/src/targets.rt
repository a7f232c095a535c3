//! What comes of a target.
ghost use Rattle.std.specs.Prelude.{◌≡◌, IfOk, map};
ghost use Rattle.jr_lex.specs.Replacing.{IsName};
ghost use Rattle.jr_members.specs.PartView.{written_of};
ghost use Rattle.jr_table.specs.KeyView.{decl_of};
ghost use Rattle.jr_names.specs.ReplyView.{outcome_of};
ghost use Rattle.jr_images.specs.Families.{AreRenamed};
ghost use Rattle.jr_images.specs.Targets.{IsOfPrelude};
ghost use Rattle.jr_images.specs.Images.{rows_to};
ghost use Rattle.jr_images.specs.ImageView.{renaming_of};
ghost use Rattle.jr_bind.specs.Programs.{units_of};
ghost use Rattle.jr_program_laws.specs.FileParts.{begins};
ghost use Rattle.jr_images.specs.Clashes.{IsClear};
ghost use Rattle.jr_new_files.specs.FileEffects.{members_of};
ghost use Rattle.jr_rename.specs.declared.afters.After.TheVariants.{Unknown};
ghost use Rattle.jr_rename.specs.Afters.{TellsRowsOf, AnswersAfter};
ghost use Rattle.jr_rename.specs.Answers.{Answers, SparesPrelude, AnswersSparing, AnswersOf};

use crate::afters::{After, doubt, is_no_class};
use crate::answers::of_renaming;
use crate::clashes::clash;
use jr_ast::Name;
use jr_bind::View;
use jr_dispatch::{family, prelude_method};
use jr_images::{DeclSet, NewName, rows_are_named};
use jr_members::WrittenMember;
use jr_names::{Outcome, Refusal};
use jr_rename_laws::renamings_stay_fair;
use jr_table::Decl;
use jr_text::Span;
use std::alloc::{AllocError, Global};

/// What comes of a target that collides with nothing.
fn freely<V: View<Span>>(
    alloc: Global,
    view: &V,
    members: &[WrittenMember<'_, Span>],
    target: &Decl,
    g: &NewName,
    after: &mut After,
) -> Result<Outcome, AllocError>
    requires members { map written_of members.now ≡ members_of (V.program view.now) }
    requires renamed { AreRenamed (V.program view.now).rows (decl_of target.now)
        (renaming_of g.now).decls }
    requires own { IsOfPrelude (V.program view.now).rows (decl_of target.now) → ⊥ }
    requires spares { SparesPrelude (V.program view.now) (decl_of target.now) g.now.name }
    requires clear { IsClear begins (V.program view.now).rows (units_of (V.program view.now))
        (decl_of target.now) g.now.name }
    requires name { IsName g.now.name }
    requires blank { after.old ≡ Unknown }
    ensures outcome { IfOk result (λ o. AnswersOf (V.program view.now) (renaming_of g.now)
        (outcome_of o)) }
    ensures after { TellsRowsOf (decl_of target.now) (V.program view.now).rows
        (rows_to (renaming_of g.now) (V.program view.now).rows) after.new }
{
    view.keeps_program();
    renamings_stay_fair::<Span>();
    rows_are_named::<Span>();
    let outcome = of_renaming(alloc, view, members, g, after);
    if is_no_class(target) {
        outcome
    } else {
        doubt(after);
        outcome
    }
}

/// What comes of a target whose new name changes no method of the prelude.
fn sparing<V: View<Span>>(
    alloc: Global,
    view: &V,
    members: &[WrittenMember<'_, Span>],
    target: &Decl,
    g: &NewName,
    after: &mut After,
) -> Result<Outcome, AllocError>
    requires members { map written_of members.now ≡ members_of (V.program view.now) }
    requires renamed { AreRenamed (V.program view.now).rows (decl_of target.now)
        (renaming_of g.now).decls }
    requires own { IsOfPrelude (V.program view.now).rows (decl_of target.now) → ⊥ }
    requires spares { SparesPrelude (V.program view.now) (decl_of target.now) g.now.name }
    requires name { IsName g.now.name }
    requires blank { after.old ≡ Unknown }
    ensures outcome { IfOk result (λ o. AnswersSparing (V.program view.now) (decl_of target.now)
        g.now.name (renaming_of g.now) (outcome_of o)) }
    ensures after { TellsRowsOf (decl_of target.now) (V.program view.now).rows
        (rows_to (renaming_of g.now) (V.program view.now).rows) after.new }
{
    match clash(alloc, view, members, target, g.decls.as_slice(), &g.name)? {
        Some(with) => Ok(Outcome::Refused(Refusal::Clash { with })),
        None => freely(alloc, view, members, target, g, after),
    }
}

/// What comes of a rename of a declaration that isn't the prelude's.
pub(crate) fn of_target<V: View<Span>>(
    alloc: Global,
    view: &V,
    members: &[WrittenMember<'_, Span>],
    target: &Decl,
    new: &Name,
    after: &mut After,
) -> Result<Outcome, AllocError>
    requires members { map written_of members.now ≡ members_of (V.program view.now) }
    requires own { IsOfPrelude (V.program view.now).rows (decl_of target.now) → ⊥ }
    requires name { IsName new.now }
    requires blank { after.old ≡ Unknown }
    ensures outcome { IfOk result (λ o. Answers (V.program view.now) (decl_of target.now) new.now
        (outcome_of o)) }
    ensures after { IfOk result (λ o. AnswersAfter (V.program view.now) (decl_of target.now) new.now
        (outcome_of o) after.new) }
{
    let decls = family(alloc, view.table(), target)?;
    let told = prelude_method(alloc, view.table(), target, decls.as_slice(), new)?;
    let name = Name::new(alloc, new.as_str())?;
    let all = DeclSet::from_vec(alloc, decls)?;
    let g = NewName { decls: all, name };
    match told {
        Some(method) => Ok(Outcome::Refused(Refusal::PreludeMethod { method })),
        None => sparing(alloc, view, members, target, &g, after),
    }
}
