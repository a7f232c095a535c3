//! Which declarations of a program become others.
ghost use Rattle.std.specs.Prelude.{◌≡◌, ◌++◌, ◌∷◌, [], IfOk, OnOk};
ghost use Rattle.jr_table.specs.KeyView.{decl_of};
ghost use Rattle.jr_images.specs.Renames.{pairs_of};
ghost use Rattle.jr_new_words.specs.Scopes.{rows_in, renaming_in, AreImages};
ghost use Rattle.jr_rename.specs.Pairs.{pairs_view, changed};

use jr_names::Renaming;
use jr_new_words::Programs;
use jr_table::Decl;
use std::alloc::{AllocError, Global};

/// Lets a declaration go. Where it is dropped in the middle of another function, that function's
/// proof goes through its variants.
fn forget(decl: Decl) {
    drop(decl)
}

/// Puts a declaration with what it becomes behind the others.
fn push_pair(old: Decl, new: Decl, pairs: &mut Vec<(Decl, Decl)>) -> Result<(), AllocError>
    ensures { OnOk result (pairs_view pairs.new.items
        ≡ pairs_view pairs.old.items ++ (decl_of old, decl_of new) ∷ []) }
{
    pairs.push((old, new))?;
    Ok(())
}

/// The same of copies of them.
fn push_both(old: &Decl, new: &Decl, pairs: &mut Vec<(Decl, Decl)>) -> Result<(), AllocError>
    ensures { OnOk result (pairs_view pairs.new.items
        ≡ pairs_view pairs.old.items ++ (decl_of old.now, decl_of new.now) ∷ []) }
{
    let first = old.copy()?;
    match new.copy() {
        Ok(second) => push_pair(first, second, pairs),
        Err(error) => {
            forget(first);
            Err(error)
        }
    }
}

/// The same, if it becomes another.
fn push_changed(old: &Decl, new: &Decl, pairs: &mut Vec<(Decl, Decl)>) -> Result<(), AllocError>
    ensures { OnOk result (pairs_view pairs.new.items
        ≡ pairs_view pairs.old.items ++ changed (decl_of old.now) (decl_of new.now)) }
{
    if old == new {
        Ok(())
    } else {
        push_both(old, new, pairs)
    }
}

/// Each declaration that becomes another, with that one, in the order of the rows.
pub(crate) fn changed_pairs(alloc: Global, programs: &Programs<'_>) -> Result<Renaming, AllocError>
    requires { AreImages programs.now }
    ensures { IfOk result (λ r. r ≡ pairs_of (rows_in programs.now) (renaming_in programs.now)) }
{
    let before = programs.before.rows();
    let after = programs.after.rows();
    let mut pairs = Vec::new(alloc);
    for number in 0..before.len() {
        push_changed(&before[number].decl, &after[number].decl, &mut pairs)?;
    }
    Ok(Renaming::from_vec(pairs))
}
