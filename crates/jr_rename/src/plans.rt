//! The plan of a rename.
ghost use Rattle.std.specs.Prelude.{◌≡◌, ◌<◌, IfOk, codes, length, map};
ghost use Rattle.jr_lex.specs.Replacing.{IsName};
ghost use Rattle.jr_members.specs.PartView.{written_of};
ghost use Rattle.jr_names.specs.Refusals.{bad_target};
ghost use Rattle.jr_names.specs.Replies.{not_planned};
ghost use Rattle.jr_names.specs.ReplyView.{outcome_of};
ghost use Rattle.jr_new_files.specs.FileEffects.{members_of};
ghost use Rattle.jr_rename.specs.declared.afters.After.TheVariants.{Unknown};
ghost use Rattle.jr_rename.specs.Plans.{Plans};
ghost use Rattle.jr_rename.specs.Afters.{IsAfter};

use crate::afters::After;
use crate::targets::of_target;
use jr_ast::Name;
use jr_bind::View;
use jr_cursor::target;
use jr_members::{WrittenMember, written_members};
use jr_names::{Need, Outcome, Refusal};
use jr_text::{Place, Span};
use std::alloc::{AllocError, Global};

/// Nothing is named there that can be renamed.
fn no_target(alloc: Global, file: u32, at: u32) -> Result<Outcome, AllocError>
    ensures { IfOk result (λ o. outcome_of o
        ≡ not_planned (bad_target (record { file = file; at = at }) (codes "Declaration"))) }
{
    let need = Name::new(alloc, Need::Declaration.name())?;
    Ok(Outcome::Refused(Refusal::BadTarget {
        at: Place { file, at },
        need,
    }))
}

/// The written members of the program.
fn all_members<'a, V: View<Span>>(
    alloc: Global,
    view: &'a V,
) -> Result<Vec<WrittenMember<'a, Span>>, AllocError>
    ensures { IfOk result (λ v. map written_of v.items ≡ members_of (V.program view.now)) }
{
    view.keeps_program();
    written_members(alloc, view.table(), view.units())
}

/// What a rename at a byte of a file does, by the written members of the program.
fn plan_among<V: View<Span>>(
    alloc: Global,
    view: &V,
    members: &[WrittenMember<'_, Span>],
    file: u32,
    at: u32,
    new: &Name,
    after: &mut After,
) -> Result<Outcome, AllocError>
    requires members { map written_of members.now ≡ members_of (V.program view.now) }
    requires file { file < length (V.program view.now).files }
    requires name { IsName new.now }
    requires blank { after.old ≡ Unknown }
    ensures plan { IfOk result (λ o. Plans (V.program view.now) file at new.now (outcome_of o)) }
    ensures after { IfOk result (λ o. IsAfter (V.program view.now) file at new.now (outcome_of o)
        after.new) }
{
    view.keeps_program();
    match target(view, members, file, at)? {
        None => no_target(alloc, file, at),
        Some(target) => {
            let outcome = of_target(alloc, view, members, &target, new, after);
            drop(target);
            outcome
        }
    }
}

/// The value, behind which the other is let go. A function that lets it go itself, and knows both
/// types, is proved by their variants.
fn kept<T, G: Drop>(value: T, gone: G) -> T
    ensures { result ≡ value }
{
    drop(gone);
    value
}

/// What a rename of the declaration that the identifier at the byte of a file names does: the edits
/// of each file, what declarations become, and how many references are spelled otherwise than with
/// another name alone. Or why it is refused, by the first that applies: there is no declaration
/// that can be renamed (`BadTarget`), a method of the prelude would change (`PreludeMethod`), the
/// name collides (`Clash`), dispatch would change (`OverrideChanged`), a reference has no spelling
/// (`LostBinding`) (JLS 6).
///
/// What is then known of the table of the new program is told in `after`, so that who needs that
/// table need not make it again.
pub fn plan_at<V: View<Span>>(
    alloc: Global,
    view: &V,
    file: u32,
    at: u32,
    new: &Name,
    after: &mut After,
) -> Result<Outcome, AllocError>
    requires file { file < length (V.program view.now).files }
    requires name { IsName new.now }
    requires blank { after.old ≡ Unknown }
    ensures plan { IfOk result (λ o. Plans (V.program view.now) file at new.now (outcome_of o)) }
    ensures after { IfOk result (λ o. IsAfter (V.program view.now) file at new.now (outcome_of o)
        after.new) }
{
    let members = all_members(alloc, view)?;
    let outcome = plan_among(alloc, view, members.as_slice(), file, at, new, after);
    kept(outcome, members)
}
