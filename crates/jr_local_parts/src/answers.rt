//! What a plan answers that changes one file.
ghost use Rattle.std.specs.Prelude.{◌≡◌, ◌<◌, IfOk, length, option_map};
ghost use Rattle.jr_table.specs.KeyView.{decl_of};
ghost use Rattle.jr_table.specs.FoundView.{found_of};
ghost use Rattle.jr_names.specs.Refusals as refusals;
ghost use Rattle.jr_names.specs.Replies.{not_planned};
ghost use Rattle.jr_names.specs.ReplyView.{outcome_of};
ghost use Rattle.jr_rewrite.specs.ChangeView.{changes_of};
ghost use Rattle.jr_rewrite.specs.Edited.{AreInOrder, entries_of};
ghost use Rattle.jr_new_words.specs.ChoiceView.{lost_of};
ghost use Rattle.jr_new_bodies.specs.OutputView.{losses_in};
ghost use Rattle.jr_local_parts.specs.Answers as pure;
ghost use Rattle.jr_local_parts.specs.Answers.{AreFileEdits, IsFirst, IsWithOther};

use jr_names::{Outcome, Refusal};
use jr_new_files::least_loss;
use jr_new_words::Lost;
use jr_rewrite::{Change, edits};
use jr_text::{EditList, Place};
use std::alloc::{AllocError, Global};

/// The changes of a file as edits, if it is the one that changes.
fn edits_if(alloc: Global, is_changed: bool, changes: &[Change]) -> Result<EditList, AllocError>
    requires { AreInOrder 0 (changes_of changes.now) }
    ensures { IfOk result (λ list. list ≡ pure.edits_if is_changed
        (entries_of (changes_of changes.now))) }
{
    if is_changed {
        edits(alloc, changes)
    } else {
        Ok(EditList::new(alloc))
    }
}

/// The edits of each of so many files, of which one changes. The only fault is want of memory.
pub fn edits_in(
    alloc: Global,
    count: u32,
    file: u32,
    changes: &[Change],
) -> Result<Vec<EditList>, AllocError>
    requires file { file < count }
    requires order { AreInOrder 0 (changes_of changes.now) }
    ensures { IfOk result
        (λ v. AreFileEdits count file (entries_of (changes_of changes.now)) v.items) }
{
    let mut lists = Vec::new(alloc);
    for number in 0..count {
        let list = edits_if(alloc, number == file, changes)?;
        lists.push(list)?;
    }
    Ok(lists)
}

/// The kept reference, unless the other one begins before it.
fn earlier_of(kept: Lost, other: Lost) -> Lost
    ensures { lost_of result ≡ pure.earlier_of (lost_of kept) (lost_of other) }
{
    if other.at < kept.at {
        drop(kept);
        other
    } else {
        drop(other);
        kept
    }
}

/// The one of the number, or the other one, if there is one.
fn with_other(kept: Vec<Lost>, number: usize, other: Option<Lost>) -> Lost
    requires { number < length kept.items }
    ensures { IsWithOther (losses_in kept.items) number (option_map lost_of other)
        (lost_of result) }
{
    let mut kept = kept;
    let first = kept.swap_remove(number);
    match other {
        None => first,
        Some(other) => earlier_of(first, other),
    }
}

/// The first reference of a file that is lost (refusal 16): the one of the least place, and there
/// one that is kept before the other, which is copied or made. `kept` are those that are kept, in
/// the text order of the new tree.
pub fn first_lost(kept: Vec<Lost>, other: Option<Lost>) -> Option<Lost>
    ensures { IsFirst (losses_in kept.items) (option_map lost_of other)
        (option_map lost_of result) }
{
    match least_loss(kept.as_slice()) {
        None => other,
        Some(number) => Some(with_other(kept, number, other)),
    }
}

/// A reference of a file that has no spelling.
pub fn lost_binding(file: u32, lost: Lost) -> Outcome
    ensures { outcome_of result ≡ not_planned (refusals.lost_binding
        (record { file = file; at = lost.at }) (decl_of lost.declaration)
        (found_of lost.found)) }
{
    Outcome::Refused(Refusal::LostBinding {
        reference: Place { file, at: lost.at },
        declaration: lost.declaration,
        found: lost.found,
    })
}
