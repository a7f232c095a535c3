//! Rows that are marked: methods that are parted from none.
ghost use Rattle.std.specs.Prelude.{◌≡◌, ℕ, Some, true, IfOk, slice_get};
ghost use Rattle.jr_dispatch.specs.Changes as pure;
ghost use Rattle.jr_dispatch.specs.Changes.{MarksOne};

use std::alloc::{AllocError, Global};

/// So many rows, none of which is marked.
pub(crate) fn no_marks(alloc: Global, count: usize) -> Result<Vec<bool>, AllocError>
    ensures { IfOk result (λ v. (j : ℕ) → slice_get v.items j ≡ Some true → ⊥) }
{
    let marks = vec![in alloc; false; count]?;
    Ok(marks)
}

/// Whether the row of the number is marked.
pub(crate) fn is_marked(marks: &[bool], row: Option<u32>) -> bool
    ensures { result ≡ pure.is_marked marks.now row }
{
    match row {
        None => false,
        Some(number) => match marks.get(number as usize) {
            None => false,
            Some(marked) => *marked,
        },
    }
}

/// Marks the row of the number, if there is one.
pub(crate) fn mark(marks: &mut Vec<bool>, row: Option<u32>)
    ensures { MarksOne marks.old.items row marks.new.items }
{
    let Some(number) = row else {
        return;
    };
    if (number as usize) < marks.len() {
        marks[number as usize] = true;
    }
}
