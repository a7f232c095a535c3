//! What the superclass is, and what stands behind `super` (JLS 8.1.4, 15.11.2).
ghost use Rattle.std.specs.Prelude.{◌≡◌, IfOk, map, option_map, option_and_then, slice_get};
ghost use Rattle.jr_table.specs.TypeView.{class_key_of, ty_of};
ghost use Rattle.jr_table.specs.Rows.{Row};
ghost use Rattle.jr_table.specs.Meanings.{superclass_of};
ghost use Rattle.jr_table.specs.FoundView.{found_of};
ghost use Rattle.jr_table.specs.Lookup.{FindsFieldIn, FindsMethodOf, FindsCtorOf};
ghost use Rattle.jr_table.specs.Context.{IsSuperclass};
ghost use Rattle.jr_table.specs.Binding.{FindsIn};
ghost use Rattle.jr_lookup.specs.ScopeView.{scope_of};

use jr_ast::Name;
use jr_lookup::{Scope, ctor_of, field_of, method_of};
use jr_table::{ClassKey, Found, Table, Tys};
use std::alloc::{AllocError, Global};

/// The superclass in a row.
fn parent_in(table: &Table, number: u32) -> Option<&ClassKey>
    ensures { option_map (λ k. class_key_of k.now) result
        ≡ option_and_then (λ (r : Row). r.parent) (slice_get table.now number) }
{
    match table.rows().get(number as usize) {
        None => None,
        Some(row) => match &row.parent {
            None => None,
            Some(key) => Some(key),
        },
    }
}

/// The direct superclass of a class.
#[tactic(auto, unfolding(jr_table::specs::Meanings::row_of))]
fn superclass<'a>(table: &'a Table, class: &ClassKey) -> Option<&'a ClassKey>
    ensures { option_map (λ k. class_key_of k.now) result
        ≡ superclass_of table.now (class_key_of class.now) }
{
    match table.class_number(class) {
        None => None,
        Some(number) => parent_in(table, number),
    }
}

/// What `super.x` finds.
pub(crate) fn super_field_found(
    table: &Table,
    scope: &Scope,
    name: &Name,
) -> Result<Found, AllocError>
    ensures { IfOk result (λ f. FindsIn (IsSuperclass table.now (scope_of scope.now).class)
        (λ k x. FindsFieldIn table.now (scope_of scope.now) k name.now x) (found_of f)) }
{
    table.keeps_rows();
    match superclass(table, &scope.class) {
        None => Ok(Found::Nothing),
        Some(parent) => field_of(table, scope, parent, name),
    }
}

/// What `super.m(..)` finds.
pub(crate) fn super_method_found(
    alloc: Global,
    table: &Table,
    scope: &Scope,
    name: &Name,
    args: &Tys,
) -> Result<Found, AllocError>
    ensures { IfOk result (λ f. FindsIn (IsSuperclass table.now (scope_of scope.now).class)
        (λ k x. FindsMethodOf table.now (scope_of scope.now) k name.now args.now x)
        (found_of f)) }
{
    table.keeps_rows();
    match superclass(table, &scope.class) {
        None => Ok(Found::Nothing),
        Some(parent) => method_of(alloc, table, scope, parent, name, args.as_slice()),
    }
}

/// What `super(..)` finds.
pub(crate) fn super_ctor_found(
    alloc: Global,
    table: &Table,
    scope: &Scope,
    args: &Tys,
) -> Result<Found, AllocError>
    ensures { IfOk result (λ f. FindsIn (IsSuperclass table.now (scope_of scope.now).class)
        (λ k x. FindsCtorOf table.now (scope_of scope.now) k args.now x) (found_of f)) }
{
    table.keeps_rows();
    match superclass(table, &scope.class) {
        None => Ok(Found::Nothing),
        Some(parent) => ctor_of(alloc, table, scope, parent, args.as_slice()),
    }
}
