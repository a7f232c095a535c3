//! Changes of a text.

ghost use Rattle.std.specs.Prelude.{◌≡◌, ◌≤◌, ◌∷◌, [], OnOk, IfOk};
ghost use Rattle.jr_text.specs.Edits.{EndBy, next_entry, with_last};
ghost use Rattle.jr_rewrite.specs.Edited.{entries_of, AreInOrder};
ghost use Rattle.jr_rewrite.specs.ChangeView.{changes_of};

use jr_text::{EditFault, EditList, Span};
use std::alloc::{AllocError, Global};

/// A span is to be replaced by a text.
#[derive(Debug, Drop)]
pub struct Change {
    pub span: Span,
    pub text: String,
}

/// Puts an edit behind all others.
fn put_last(edits: &mut EditList, span: Span, text: &str) -> Result<(), AllocError>
    requires ordered { span.from ≤ span.to }
    requires behind { EndBy edits.old span.from }
    ensures { OnOk result (edits.new ≡ with_last edits.old (next_entry edits.old span text.now)) }
{
    match edits.push(span, text) {
        Ok(()) => Ok(()),
        Err(EditFault::Memory) => Err(AllocError),
        Err(EditFault::Overlaps { .. }) => unreachable!(),
    }
}

/// The changes as edits, one after the other.
pub fn edits(alloc: Global, changes: &[Change]) -> Result<EditList, AllocError>
    requires { AreInOrder 0 (changes_of changes.now) }
    ensures { IfOk result (λ edits. edits ≡ entries_of (changes_of changes.now)) }
{
    let mut edits = EditList::new(alloc);
    for change in changes {
        put_last(&mut edits, change.span, change.text.as_str())?;
    }
    Ok(edits)
}
