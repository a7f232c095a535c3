//! What comes of a renaming that collides with nothing.
ghost use Rattle.std.specs.Prelude.{◌≡◌, IfOk, IsTrue, None, map};
ghost use Rattle.jr_lex.specs.Replacing.{IsName};
ghost use Rattle.jr_members.specs.PartView.{written_of};
ghost use Rattle.jr_table.specs.KeyView.{decl_of};
ghost use Rattle.jr_table.specs.FoundView.{found_of};
ghost use Rattle.jr_names.specs.Refusals as refusals;
ghost use Rattle.jr_names.specs.Replies as outcomes;
ghost use Rattle.jr_names.specs.Replies.{not_planned};
ghost use Rattle.jr_names.specs.ReplyView.{outcome_of};
ghost use Rattle.jr_images.specs.Images as pure;
ghost use Rattle.jr_images.specs.ImageView.{renaming_of};
ghost use Rattle.jr_images.specs.RenameLaws.{IsFair};
ghost use Rattle.jr_images.specs.Renames.{pairs_of};
ghost use Rattle.jr_new_words.specs.Scopes.{rows_in, renaming_in, AreImages};
ghost use Rattle.jr_new_files.specs.FileEffects.{members_of};
ghost use Rattle.jr_rename.specs.declared.afters.After.TheVariants.{Unknown};
ghost use Rattle.jr_rename.specs.Afters.{TellsRows};
ghost use Rattle.jr_rename.specs.Answers.{AnswersOf, AnswersKeeping};
ghost use Rattle.jr_rename.specs.OneLocal.{IsLocal, IsOfOneLocal};

use crate::afters::{After, put};
use crate::pairs::changed_pairs;
use jr_bind::View;
use jr_dispatch::dispatch_change;
use jr_images::{NewName, rows_to};
use jr_members::WrittenMember;
use jr_names::{EditLists, Outcome, Refusal};
use jr_new_files::{Rewriting, rewrite};
use jr_new_words::{Lost, Programs, tables_of};
use jr_rename_laws::locals_keep_keys;
use jr_table::{Decl, Table};
use jr_text::{EditList, Place, Span};
use std::alloc::{AllocError, Global};

/// A reference that has no spelling.
fn lost_binding(file: u32, lost: Lost) -> Outcome
    ensures { outcome_of result ≡ not_planned (refusals.lost_binding
        (record { file = file; at = lost.at }) (decl_of lost.declaration)
        (found_of lost.found)) }
{
    Outcome::Refused(Refusal::LostBinding {
        reference: Place { file, at: lost.at },
        declaration: lost.declaration,
        found: lost.found,
    })
}

/// The rewritten program as what is planned.
fn plan_of(
    alloc: Global,
    programs: &Programs<'_>,
    edits: Vec<EditList>,
    respelled: u32,
) -> Result<Outcome, AllocError>
    requires { AreImages programs.now }
    ensures { IfOk result (λ o. outcome_of o ≡ outcomes.planned edits.items
        (pairs_of (rows_in programs.now) (renaming_in programs.now)) respelled None) }
{
    let renaming = changed_pairs(alloc, programs)?;
    Ok(Outcome::Planned {
        edits: EditLists::from_vec(edits),
        renaming,
        respelled,
        lost: None,
    })
}

/// What comes of a renaming that keeps dispatch.
fn of_programs<V: View<Span>>(
    alloc: Global,
    view: &V,
    members: &[WrittenMember<'_, Span>],
    programs: &Programs<'_>,
) -> Result<Outcome, AllocError>
    requires members { map written_of members.now ≡ members_of (V.program view.now) }
    requires rows { rows_in programs.now ≡ (V.program view.now).rows }
    requires images { AreImages programs.now }
    requires name { IsName (renaming_in programs.now).name }
    ensures { IfOk result (λ o. AnswersKeeping (V.program view.now) (renaming_in programs.now)
        (outcome_of o)) }
{
    let tables = tables_of(programs);
    let Rewriting {
        edits,
        respelled,
        lost,
    } = rewrite(alloc, view, members, &tables)?;
    match lost {
        Some((file, lost)) => Ok(lost_binding(file, lost)),
        None => plan_of(alloc, programs, edits, respelled),
    }
}

/// The table of the new program.
fn table_after(alloc: Global, table: &Table, g: &NewName) -> Result<Table, AllocError>
    requires { IsFair table.now (renaming_of g.now) }
    ensures { IfOk result (λ t. t ≡ pure.rows_to (renaming_of g.now) table.now) }
{
    let rows = rows_to(alloc, g, table.rows())?;
    Table::of_rows(alloc, rows)
}

/// What comes of a renaming, over the tables of the program and of the new one.
fn of_tables<V: View<Span>>(
    alloc: Global,
    view: &V,
    members: &[WrittenMember<'_, Span>],
    g: &NewName,
    before: &Table,
    after: &Table,
) -> Result<Outcome, AllocError>
    requires members { map written_of members.now ≡ members_of (V.program view.now) }
    requires before { before.now ≡ (V.program view.now).rows }
    requires after { after.now ≡ pure.rows_to (renaming_of g.now) before.now }
    requires fair { IsFair before.now (renaming_of g.now) }
    requires name { IsName (renaming_of g.now).name }
    ensures { IfOk result (λ o. AnswersOf (V.program view.now) (renaming_of g.now)
        (outcome_of o)) }
{
    match dispatch_change(alloc, before, after, g)? {
        Some((class, method)) => {
            Ok(Outcome::Refused(Refusal::OverrideChanged { class, method }))
        }
        None => of_programs(
            alloc,
            view,
            members,
            &Programs {
                before,
                after,
                name: g,
            },
        ),
    }
}

fn is_local(decl: &Decl) -> bool
    ensures { IsTrue result → IsLocal (decl_of decl.now) }
{
    match decl {
        Decl::Local(_) => true,
        Decl::Class(_) => false,
        Decl::Field(_) => false,
        Decl::Method(_) => false,
        Decl::Ctor(_) => false,
    }
}

/// Whether nothing but one local or parameter gets the name.
fn is_of_one_local(g: &NewName) -> bool
    ensures { IsTrue result → IsOfOneLocal (renaming_of g.now) }
{
    let decls = g.decls.as_slice();
    if decls.len() == 1 {
        is_local(&decls[0])
    } else {
        false
    }
}

/// What comes of a renaming that collides with nothing. Where a local is renamed, the new program
/// has the same table. Else that table is made, and told in `after`.
pub(crate) fn of_renaming<V: View<Span>>(
    alloc: Global,
    view: &V,
    members: &[WrittenMember<'_, Span>],
    g: &NewName,
    after: &mut After,
) -> Result<Outcome, AllocError>
    requires members { map written_of members.now ≡ members_of (V.program view.now) }
    requires fair { IsFair (V.program view.now).rows (renaming_of g.now) }
    requires name { IsName (renaming_of g.now).name }
    requires blank { after.old ≡ Unknown }
    ensures outcome { IfOk result (λ o. AnswersOf (V.program view.now) (renaming_of g.now)
        (outcome_of o)) }
    ensures after { TellsRows (V.program view.now).rows
        (pure.rows_to (renaming_of g.now) (V.program view.now).rows) after.new }
{
    locals_keep_keys();
    let before = view.table();
    if is_of_one_local(g) {
        put(after, After::Same);
        of_tables(alloc, view, members, g, before, before)
    } else {
        let table = table_after(alloc, before, g)?;
        let outcome = of_tables(alloc, view, members, g, before, &table);
        put(after, After::Images(table));
        outcome
    }
}
