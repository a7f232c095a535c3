//! Lookup by keys (JLS 6.4, 6.5, 6.6, 15.9.3, 15.11, 15.12).
ghost use Rattle.std.specs.Prelude.{◌≡◌, IfOk, map};
ghost use Rattle.jr_table.specs.TypeView.{class_key_of, ty_of};
ghost use Rattle.jr_table.specs.KeyView.{local_key_of};
ghost use Rattle.jr_table.specs.Decls.{local_decl};
ghost use Rattle.jr_table.specs.Found.{one};
ghost use Rattle.jr_table.specs.FoundView.{found_of};
ghost use Rattle.jr_table.specs.Lookup as lookup;
ghost use Rattle.jr_lookup.specs.ScopeView.{scope_of};

use crate::calls::{call_at, ctor_at, method_at};
use crate::fields::{field_at, field_in_at, member_type_at};
use crate::locals::last_local;
use crate::scopes::Scope;
use crate::shown::found_by;
use crate::type_names::type_at;
use jr_ast::Name;
use jr_table::{ClassKey, Decl, Found, LocalKey, Table, Ty, lookups_are_exact};
use std::alloc::{AllocError, Global};

/// A local is found.
fn local_found(key: &LocalKey) -> Result<Found, AllocError>
    ensures { IfOk result (λ f. found_of f ≡ one (local_decl (local_key_of key.now))) }
{
    let key = key.copy()?;
    Ok(Found::One(Decl::Local(key)))
}

/// What a simple name finds as a variable (JLS 6.4.1, 6.5.6.1): the local or parameter in scope; or
/// else the member field of the innermost enclosing class that has one.
///
/// `FromStatic` where that is an instance field, and the place is in a static context or the class
/// isn't the place's own. `Nothing` where there is none.
#[tactic(auto, unfolding(jr_table::specs::Lookup::find_variable))]
pub fn variable(table: &Table, scope: &Scope, name: &Name) -> Result<Found, AllocError>
    ensures { IfOk result (λ f.
        lookup.FindsVariable table.now (scope_of scope.now) name.now (found_of f)) }
{
    table.keeps_rows();
    lookups_are_exact();
    let place = table.number_or_none(&scope.class);
    let field = field_at(table, place, scope.is_static, name.as_str());
    match last_local(scope.locals.as_slice(), name) {
        Some(key) => local_found(key),
        None => found_by(table, field),
    }
}

/// The type that a simple name finds (JLS 6.4.1, 6.5.5.1): the member type of the innermost
/// enclosing class that has one; or else the top-level class; or else the prelude's. `Nothing`
/// where there is none.
#[tactic(auto, unfolding(jr_table::specs::Lookup::find_type_named))]
pub fn type_named(table: &Table, scope: &Scope, name: &Name) -> Result<Found, AllocError>
    ensures { IfOk result (λ f.
        lookup.FindsTypeNamed table.now (scope_of scope.now) name.now (found_of f)) }
{
    table.keeps_rows();
    lookups_are_exact();
    let place = table.number_or_none(&scope.class);
    let answer = type_at(table, place, name);
    found_by(table, answer)
}

/// The member type of a class, declared or inherited (JLS 6.5.5.2). `NotAccessible` where it is
/// private and the place is outside its top-level class (JLS 6.6.1), `Nothing` where there is none.
#[tactic(auto, unfolding(jr_table::specs::Lookup::find_type_of))]
pub fn member_type(
    table: &Table,
    scope: &Scope,
    class: &ClassKey,
    name: &Name,
) -> Result<Found, AllocError>
    ensures { IfOk result (λ f. lookup.FindsTypeOf table.now (scope_of scope.now)
        (class_key_of class.now) name.now (found_of f)) }
{
    table.keeps_rows();
    lookups_are_exact();
    let place = table.number_or_none(&scope.class);
    let class = table.number_or_none(class);
    let answer = member_type_at(table, place, class, name.as_str());
    found_by(table, answer)
}

/// The member field of a class, declared or inherited (JLS 15.11.1). `NotAccessible` where it is
/// private and the place is outside its top-level class (JLS 6.6.1), `Nothing` where there is none.
/// `super.x` asks the superclass.
#[tactic(auto, unfolding(jr_table::specs::Lookup::find_field_in))]
pub fn field_of(
    table: &Table,
    scope: &Scope,
    class: &ClassKey,
    name: &Name,
) -> Result<Found, AllocError>
    ensures { IfOk result (λ f. lookup.FindsFieldIn table.now (scope_of scope.now)
        (class_key_of class.now) name.now (found_of f)) }
{
    table.keeps_rows();
    lookups_are_exact();
    let place = table.number_or_none(&scope.class);
    let class = table.number_or_none(class);
    let answer = field_in_at(table, place, class, name.as_str());
    found_by(table, answer)
}

/// What a call without a target finds, for arguments of these types (JLS 15.12.1, 15.12.2).
///
/// The innermost enclosing class that has a member method of the name is searched. Candidates are
/// its member methods of the name with as many parameters as arguments, each argument's type
/// assignable to the parameter's. Of those that are accessible the one is found whose parameter
/// types are assignable to those of every other. `NotAccessible` where there are candidates and
/// none is accessible: the first. `Many` where none is most specific: the first two that are
/// accessible, in text order. `FromStatic` where an instance method is found, and the place is in a
/// static context or the class isn't the place's own. `Nothing` where there is no candidate.
#[tactic(auto, unfolding(jr_table::specs::Lookup::find_method_named))]
pub fn method_named(
    alloc: Global,
    table: &Table,
    scope: &Scope,
    name: &Name,
    args: &[Ty],
) -> Result<Found, AllocError>
    ensures { IfOk result (λ f. lookup.FindsMethodNamed table.now (scope_of scope.now)
        name.now (map ty_of args.now) (found_of f)) }
{
    table.keeps_rows();
    lookups_are_exact();
    let place = table.number_or_none(&scope.class);
    let kinds = table.kinds(alloc, args)?;
    let answer = call_at(
        alloc,
        table,
        place,
        scope.is_static,
        name.as_str(),
        kinds.as_slice(),
    )?;
    found_by(table, answer)
}

/// What a call on a class, or on an expression of its type, finds, for arguments of these types
/// (JLS 15.12.1, 15.12.2): as `method_named`, in this class and without `FromStatic`. `super.m(..)`
/// asks the superclass.
#[tactic(auto, unfolding(jr_table::specs::Lookup::find_method_of))]
pub fn method_of(
    alloc: Global,
    table: &Table,
    scope: &Scope,
    class: &ClassKey,
    name: &Name,
    args: &[Ty],
) -> Result<Found, AllocError>
    ensures { IfOk result (λ f. lookup.FindsMethodOf table.now (scope_of scope.now)
        (class_key_of class.now) name.now (map ty_of args.now) (found_of f)) }
{
    table.keeps_rows();
    lookups_are_exact();
    let place = table.number_or_none(&scope.class);
    let class = table.number_or_none(class);
    let kinds = table.kinds(alloc, args)?;
    let answer = method_at(alloc, table, place, class, name.as_str(), kinds.as_slice())?;
    found_by(table, answer)
}

/// The constructor that a creation of the class, or a `super(..)` call on it, finds, for arguments
/// of these types (JLS 15.9.3, 8.8.7.1): as `method_of`, among the class's own constructors.
#[tactic(auto, unfolding(jr_table::specs::Lookup::find_ctor_of))]
pub fn ctor_of(
    alloc: Global,
    table: &Table,
    scope: &Scope,
    class: &ClassKey,
    args: &[Ty],
) -> Result<Found, AllocError>
    ensures { IfOk result (λ f. lookup.FindsCtorOf table.now (scope_of scope.now)
        (class_key_of class.now) (map ty_of args.now) (found_of f)) }
{
    table.keeps_rows();
    lookups_are_exact();
    let place = table.number_or_none(&scope.class);
    let class = table.number_or_none(class);
    let kinds = table.kinds(alloc, args)?;
    let answer = ctor_at(alloc, table, place, class, kinds.as_slice())?;
    found_by(table, answer)
}
