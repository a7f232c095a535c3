//! Variables by their simple names (JLS 6.5.6.1).
ghost use Rattle.std.specs.Prelude.{◌≡◌, IfOk, option_map};
ghost use Rattle.jr_table.specs.Found.{one};
ghost use Rattle.jr_table.specs.KeyView.{decl_of};
ghost use Rattle.jr_table.specs.Lookup.{FindsVariable};
ghost use Rattle.jr_table.specs.Context.{scope_of};
ghost use Rattle.jr_new_words.specs.Scopes.{IsKept, rows_of, mapping_of, context_of};
ghost use Rattle.jr_new_words.specs.ChoiceView.{choice_of};
ghost use Rattle.jr_new_words.specs.Chosen as chosen;

use crate::asking::no_types;
use crate::choices::Choice;
use crate::finding::decl_found;
use crate::looking::variable_of;
use crate::scopes::Scopes;
use crate::staying::stays;
use crate::taking::chosen_for;
use crate::ways::{Way, is_local};
use jr_ast::Name;
use jr_table::{Decl, lookups_are_exact};
use std::alloc::{AllocError, Global};

/// The choice for what is found by a simple name.
fn by_decl(
    alloc: Global,
    scopes: &Scopes<'_>,
    at: u32,
    name: &Name,
    decl: &Decl,
) -> Result<Option<Choice>, AllocError>
    requires kept { IsKept scopes.now }
    requires finds { FindsVariable (rows_of scopes.now) (scope_of (context_of scopes.now)) name.now
        (one (decl_of decl.now)) }
    ensures { IfOk result (λ o. chosen.VariableIsChosen (rows_of scopes.now)
        (mapping_of scopes.now) (context_of scopes.now) at name.now (option_map choice_of o)) }
{
    scopes.programs.before.keeps_rows();
    lookups_are_exact();
    let none = no_types(alloc)?;
    if is_local(decl) {
        chosen_for(alloc, scopes, at, name, &Way::Local, &none, decl)
    } else {
        chosen_for(alloc, scopes, at, name, &Way::OwnField, &none, decl)
    }
}

/// The choice for what is found by a simple name as a variable.
fn by_lookup(
    alloc: Global,
    scopes: &Scopes<'_>,
    at: u32,
    name: &Name,
) -> Result<Option<Choice>, AllocError>
    requires { IsKept scopes.now }
    ensures { IfOk result (λ o. chosen.VariableIsChosen (rows_of scopes.now)
        (mapping_of scopes.now) (context_of scopes.now) at name.now (option_map choice_of o)) }
{
    scopes.programs.before.keeps_rows();
    lookups_are_exact();
    let found = variable_of(scopes, name)?;
    match decl_found(&found) {
        None => Ok(None),
        Some(decl) => by_decl(alloc, scopes, at, name, decl),
    }
}

/// The choice for a variable by its simple name, which stands at `at`.
pub fn variable(
    alloc: Global,
    scopes: &Scopes<'_>,
    at: u32,
    name: &Name,
) -> Result<Option<Choice>, AllocError>
    requires { IsKept scopes.now }
    ensures { IfOk result (λ o. chosen.VariableIsChosen (rows_of scopes.now)
        (mapping_of scopes.now) (context_of scopes.now) at name.now (option_map choice_of o)) }
{
    if stays(scopes, name) {
        Ok(Some(Choice::Stays))
    } else {
        by_lookup(alloc, scopes, at, name)
    }
}
