//! The form of the spelling that is taken.
ghost use Rattle.std.specs.Prelude.{◌≡◌, None, IfOk, IfSome};
ghost use Rattle.jr_table.specs.KeyView.{decl_of};
ghost use Rattle.jr_lookup.specs.ScopeView.{scope_of};
ghost use Rattle.jr_spell.specs.ReferenceView.{reference_of};
ghost use Rattle.jr_spell.specs.Taken.{IsTaken, NoneBinds};

use crate::binding::binds;
use crate::references::Reference;
use crate::respelling::forms;
use crate::spellings::Form;
use jr_lookup::Scope;
use jr_table::{Decl, Table};
use std::alloc::{AllocError, Global};

/// The form of the first spelling of a kept reference that binds to its declaration at a place of
/// the scope, in the program of the table; `None` exactly where none binds. `respell` has its text.
pub fn take_form(
    alloc: Global,
    table: &Table,
    scope: &Scope,
    reference: &Reference,
    target: &Decl,
) -> Result<Option<Form>, AllocError>
    ensures some { IfOk result (λ o. IfSome o (IsTaken table.now (scope_of scope.now)
        (reference_of reference.now) (decl_of target.now))) }
    ensures none { IfOk result (λ o. o ≡ None → NoneBinds table.now (scope_of scope.now)
        (reference_of reference.now) (decl_of target.now)) }
{
    for form in forms(reference.form, target) {
        if binds(alloc, table, scope, reference, target, *form)? {
            return Ok(Some(*form));
        }
    }
    Ok(None)
}
