//! A whole program, rewritten.
ghost use Rattle.std.specs.Prelude.{◌≡◌, ◌+◌, IfOk, map, sum_by, option_map};
ghost use Rattle.jr_members.specs.PartView.{written_of};
ghost use Rattle.jr_rewrite.specs.Edited.{entries_of};
ghost use Rattle.jr_new_words.specs.ChoiceView.{lost_of};
ghost use Rattle.jr_new_words.specs.MappingView.{keys_of, mapping_in};
ghost use Rattle.jr_new_words.specs.Scopes.{AreTables};
ghost use Rattle.jr_new_bodies.specs.Effects.{Effect};
ghost use Rattle.jr_new_files.specs.FileEffects.{effects_of, members_of, AllInOrder};
ghost use Rattle.jr_new_files.specs.Rewritings.{GivesName, IsRewriting};

use crate::file_laws::files_are_rewritten;
use crate::files::all_outputs;
use crate::losses::first_lost;
use jr_bind::View;
use jr_images::rows_are_named;
use jr_members::WrittenMember;
use jr_new_bodies::Output;
use jr_new_words::{Lost, Tables};
use jr_rewrite::edits;
use jr_text::{EditList, Span};
use std::alloc::{AllocError, Global};

/// What becomes of a program: what changes in the text of each file, how many references are
/// respelled, and the first that is lost, with its file.
#[derive(Drop)]
pub struct Rewriting {
    pub edits: Vec<EditList>,
    pub respelled: u32,
    pub lost: Option<(u32, Lost)>,
}

/// The edits of each file.
fn all_edits(alloc: Global, outputs: &[Output]) -> Result<Vec<EditList>, AllocError>
    requires { AllInOrder (effects_of outputs.now) }
    ensures { IfOk result (λ v. v.items
        ≡ map (λ (e : Effect). entries_of e.changes) (effects_of outputs.now)) }
{
    let mut lists = Vec::new(alloc);
    for output in outputs {
        let list = edits(alloc, output.changes.as_slice())?;
        lists.push(list)?;
    }
    Ok(lists)
}

/// Two numbers together. There are never more references than a number counts.
fn sum(some: u32, more: u64) -> Result<u32, AllocError>
    ensures { IfOk result (λ n. n ≡ some + more) }
{
    let Ok(more) = u32::try_from(more) else {
        return Err(AllocError);
    };
    match some.checked_add(more) {
        Some(all) => Ok(all),
        None => Err(AllocError),
    }
}

/// How many references are respelled in all.
fn all_respelled(outputs: &[Output]) -> Result<u32, AllocError>
    ensures { IfOk result (λ n. n
        ≡ sum_by (λ (e : Effect). e.respelled) (effects_of outputs.now)) }
{
    let mut all = 0;
    for output in outputs {
        all = sum(all, output.respelled)?;
    }
    Ok(all)
}

/// The program as these tables say: the files are rewritten by their written members, each walked
/// once. These are given.
pub fn rewrite<V: View<Span>>(
    alloc: Global,
    view: &V,
    members: &[WrittenMember<'_, Span>],
    tables: &Tables<'_>,
) -> Result<Rewriting, AllocError>
    requires members { map written_of members.now ≡ members_of (V.program view.now) }
    requires rows { tables.now.before.now ≡ (V.program view.now).rows }
    requires images { AreTables tables.now }
    requires name { GivesName (keys_of tables.now.keys) }
    ensures { IfOk result (λ r. IsRewriting (V.program view.now) (mapping_in tables.now)
        r.edits.items r.respelled (option_map (λ l. (l.0, lost_of l.1)) r.lost)) }
{
    view.keeps_program();
    files_are_rewritten::<Span>();
    rows_are_named::<Span>();
    let outputs = all_outputs(alloc, view, tables, members)?;
    let lists = all_edits(alloc, outputs.as_slice())?;
    let respelled = all_respelled(outputs.as_slice())?;
    Ok(Rewriting {
        edits: lists,
        respelled,
        lost: first_lost(outputs, view.file_count()),
    })
}
