//! What a name finds, in the one program and in the other.
ghost use Rattle.std.specs.Prelude.{◌≡◌, IfOk};
ghost use Rattle.jr_table.specs.Decls.{class_decl, local_decl};
ghost use Rattle.jr_table.specs.TypeView.{class_key_of};
ghost use Rattle.jr_table.specs.Found.{one};
ghost use Rattle.jr_table.specs.KeyView.{member_key_of};
ghost use Rattle.jr_table.specs.FoundView.{found_of};
ghost use Rattle.jr_table.specs.Lookup.{FindsVariable, FindsTypeNamed, FindsTypeOf};
ghost use Rattle.jr_table.specs.Lookup.{FindsFieldIn, FindsMethodOf};
ghost use Rattle.jr_table.specs.Binding.{FindsIn};
ghost use Rattle.jr_table.specs.Context as context;
ghost use Rattle.jr_lookup.specs.ScopeView.{scope_of};
ghost use Rattle.jr_scopes.specs.Helds.{key_of};
ghost use Rattle.jr_images.specs.Words.{FindsBehind};
ghost use Rattle.jr_new_words.specs.FrontView.{in_front_of};
ghost use Rattle.jr_new_words.specs.Scopes.{
  IsKept,
  rows_of,
  context_of,
  rows_to,
  place_to,
};
ghost use Rattle.jr_new_words.specs.Ways as pure;

use crate::finding::class_found;
use crate::fronts::InFront;
use crate::scopes::Scopes;
use crate::superclasses::{super_ctor_found, super_field_found, super_method_found};
use crate::ways::{Way, is_simple};
use jr_ast::Name;
use jr_lookup::{
    Scope, ctor_of, field_of, member_type, method_named, method_of, type_named, variable,
};
use jr_table::{Decl, Found, LocalKey, MemberKey, Table, Tys, lookups_are_exact};
use std::alloc::{AllocError, Global};

/// A local is found.
fn local_found(member: &MemberKey, number: u32) -> Result<Found, AllocError>
    ensures { IfOk result (λ f. found_of f ≡ one (local_decl (key_of (member_key_of member.now)
        number))) }
{
    let member = member.copy()?;
    Ok(Found::One(Decl::Local(LocalKey { member, number })))
}

/// What a simple name finds in the old program.
pub(crate) fn variable_of(scopes: &Scopes<'_>, name: &Name) -> Result<Found, AllocError>
    requires { IsKept scopes.now }
    ensures { IfOk result (λ f. FindsVariable (rows_of scopes.now)
        (context.scope_of (context_of scopes.now)) name.now (found_of f)) }
{
    let table = scopes.programs.before;
    table.keeps_rows();
    lookups_are_exact();
    match scopes.locals.number_named(name) {
        Some(number) => local_found(scopes.member, number),
        None => variable(table, &scopes.before, name),
    }
}

/// What a simple name finds in the new program.
pub(crate) fn variable_to(scopes: &Scopes<'_>, name: &Name) -> Result<Found, AllocError>
    requires { IsKept scopes.now }
    ensures { IfOk result (λ f.
        FindsVariable (rows_to scopes.now) (place_to scopes.now) name.now (found_of f)) }
{
    let table = scopes.programs.after;
    table.keeps_rows();
    lookups_are_exact();
    match scopes.renamed.number_named(name) {
        Some(number) => local_found(&scopes.image, number),
        None => variable(table, &scopes.after, name),
    }
}

/// What a name behind another finds as a type.
pub(crate) fn type_behind(
    table: &Table,
    scope: &Scope,
    outer: &Name,
    name: &Name,
) -> Result<Found, AllocError>
    ensures { IfOk result (λ f. FindsIn
        (λ k. FindsTypeNamed table.now (scope_of scope.now) outer.now (one (class_decl k)))
        (λ k x. FindsTypeOf table.now (scope_of scope.now) k name.now x) (found_of f)) }
{
    table.keeps_rows();
    lookups_are_exact();
    let found = type_named(table, scope, outer)?;
    match class_found(&found) {
        None => Ok(Found::Nothing),
        Some(key) => member_type(table, scope, key, name),
    }
}

/// What the field behind words that stand so finds.
fn field_behind(
    table: &Table,
    scope: &Scope,
    front: &InFront<'_>,
    name: &Name,
) -> Result<Found, AllocError>
    ensures { IfOk result (λ f. FindsBehind (in_front_of front.now)
        (λ k. FindsFieldIn table.now (scope_of scope.now) k name.now) (found_of f)) }
{
    match *front {
        InFront::Class(class) => field_of(table, scope, class, name),
        InFront::Value(class) => field_of(table, scope, class, name),
        InFront::Neither => Ok(Found::Nothing),
    }
}

/// What the method behind words that stand so finds.
fn method_behind(
    alloc: Global,
    table: &Table,
    scope: &Scope,
    front: &InFront<'_>,
    name: &Name,
    args: &Tys,
) -> Result<Found, AllocError>
    ensures { IfOk result (λ f. FindsBehind (in_front_of front.now)
        (λ k. FindsMethodOf table.now (scope_of scope.now) k name.now args.now) (found_of f)) }
{
    match *front {
        InFront::Class(class) => method_of(alloc, table, scope, class, name, args.as_slice()),
        InFront::Value(class) => method_of(alloc, table, scope, class, name, args.as_slice()),
        InFront::Neither => Ok(Found::Nothing),
    }
}

/// What a name finds this way.
fn look_up(
    alloc: Global,
    table: &Table,
    scope: &Scope,
    way: &Way<'_>,
    name: &Name,
    args: &Tys,
) -> Result<Found, AllocError>
    ensures { IfOk result (λ f. pure.Finds table.now (scope_of scope.now) (pure.way_of way.now)
        name.now args.now (found_of f)) }
{
    match *way {
        Way::Local => variable(table, scope, name),
        Way::OwnField => variable(table, scope, name),
        Way::FieldOn(class) => field_of(table, scope, class, name),
        Way::FieldOnNone(_) => Ok(Found::Nothing),
        Way::FieldThrough(front, _) => field_behind(table, scope, &front, name),
        Way::FieldAbove => super_field_found(table, scope, name),
        Way::MethodNamed => method_named(alloc, table, scope, name, args.as_slice()),
        Way::MethodOn(class) => method_of(alloc, table, scope, class, name, args.as_slice()),
        Way::MethodOnNone(_) => Ok(Found::Nothing),
        Way::MethodThrough(front, _) => method_behind(alloc, table, scope, &front, name, args),
        Way::MethodAbove => super_method_found(alloc, table, scope, name, args),
        Way::CtorOf(class) => ctor_of(alloc, table, scope, class, args.as_slice()),
        Way::CtorAbove => super_ctor_found(alloc, table, scope, args),
        Way::TypeNamed => type_named(table, scope, name),
        Way::TypeBehind(outer) => type_behind(table, scope, outer, name),
    }
}

/// What a name finds this way, in the old program.
pub(crate) fn look_up_before(
    alloc: Global,
    scopes: &Scopes<'_>,
    way: &Way<'_>,
    name: &Name,
    args: &Tys,
) -> Result<Found, AllocError>
    requires { IsKept scopes.now }
    ensures { IfOk result (λ f. pure.Finds (rows_of scopes.now)
        (context.scope_of (context_of scopes.now)) (pure.way_of way.now) name.now args.now
        (found_of f)) }
{
    if is_simple(way) {
        variable_of(scopes, name)
    } else {
        look_up(
            alloc,
            scopes.programs.before,
            &scopes.before,
            way,
            name,
            args,
        )
    }
}

/// What a name finds this way, in the new program.
pub(crate) fn look_up_after(
    alloc: Global,
    scopes: &Scopes<'_>,
    way: &Way<'_>,
    name: &Name,
    args: &Tys,
) -> Result<Found, AllocError>
    requires { IsKept scopes.now }
    ensures { IfOk result (λ f. pure.Finds (rows_to scopes.now) (place_to scopes.now)
        (pure.way_of way.now) name.now args.now (found_of f)) }
{
    if is_simple(way) {
        variable_to(scopes, name)
    } else {
        look_up(alloc, scopes.programs.after, &scopes.after, way, name, args)
    }
}
