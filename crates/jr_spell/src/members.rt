//! What members of a class, and simple names of methods, find (JLS 15.11.1, 15.12).
ghost use Rattle.std.specs.Prelude.{◌≡◌, ◌↔◌, IsTrue, IfOk};
ghost use Rattle.jr_table.specs.TypeView.{class_key_of};
ghost use Rattle.jr_table.specs.KeyView.{decl_of};
ghost use Rattle.jr_table.specs.Found.{one};
ghost use Rattle.jr_table.specs.Lookup.{find_field_in, find_method_of, FindsMethodNamed};
ghost use Rattle.jr_table.specs.Lookup.{FindsCtorOf};
ghost use Rattle.jr_table.specs.Lookup as lookup;
ghost use Rattle.jr_lookup.specs.ScopeView.{scope_of};
ghost use Rattle.jr_spell.specs.Binds.{FindsMember, ThroughValue, ThroughClass};

use crate::shown::{is_one, is_one_on_class, is_one_on_value};
use jr_ast::Name;
use jr_lookup::{Scope, call_at, ctor_at, field_in_at, method_at};
use jr_table::{Answer, ClassKey, Decl, Table, Tys, lookups_are_exact};
use std::alloc::{AllocError, Global};

/// What the field of a class finds.
#[tactic(auto, unfolding(jr_table::specs::Lookup::find_field_in))]
fn field_answer(table: &Table, scope: &Scope, class: &ClassKey, name: &Name) -> Answer
    ensures { lookup.shown table.now result ≡ find_field_in table.now (scope_of scope.now)
        (class_key_of class.now) name.now }
{
    let place = table.number_or_none(&scope.class);
    let class = table.number_or_none(class);
    field_in_at(table, place, class, name.as_str())
}

/// What the method of a class finds, for arguments of these types.
#[tactic(auto, unfolding(jr_table::specs::Lookup::find_method_of))]
fn method_answer(
    alloc: Global,
    table: &Table,
    scope: &Scope,
    class: &ClassKey,
    name: &Name,
    args: &Tys,
) -> Result<Answer, AllocError>
    ensures { IfOk result (λ a. lookup.shown table.now a ≡ find_method_of table.now
        (scope_of scope.now) (class_key_of class.now) name.now args.now) }
{
    let place = table.number_or_none(&scope.class);
    let class = table.number_or_none(class);
    let kinds = table.kinds(alloc, args.as_slice())?;
    method_at(alloc, table, place, class, name.as_str(), kinds.as_slice())
}

/// What the class's member of the declaration's name finds.
fn member_answer(
    alloc: Global,
    table: &Table,
    scope: &Scope,
    args: &Tys,
    class: &ClassKey,
    target: &Decl,
) -> Result<Answer, AllocError>
    ensures { IfOk result (λ a. (lookup.shown table.now a ≡ one (decl_of target.now))
        ↔ FindsMember table.now (scope_of scope.now) args.now (class_key_of class.now)
        (decl_of target.now)) }
{
    table.keeps_rows();
    lookups_are_exact();
    match target {
        Decl::Field(key) => Ok(field_answer(table, scope, class, &key.name)),
        Decl::Method(key) => method_answer(alloc, table, scope, class, &key.name, args),
        Decl::Class(_) => Ok(Answer::Nothing),
        Decl::Ctor(_) => Ok(Answer::Nothing),
        Decl::Local(_) => Ok(Answer::Nothing),
    }
}

/// Whether the class's member is the declaration, and no static one.
pub(crate) fn is_on_value(
    alloc: Global,
    table: &Table,
    scope: &Scope,
    args: &Tys,
    class: &ClassKey,
    target: &Decl,
) -> Result<bool, AllocError>
    ensures { IfOk result (λ b. IsTrue b ↔ ThroughValue table.now (scope_of scope.now) args.now
        (class_key_of class.now) (decl_of target.now)) }
{
    let answer = member_answer(alloc, table, scope, args, class, target)?;
    Ok(is_one_on_value(table, answer, target))
}

/// Whether the class's member is the declaration, and no instance one.
pub(crate) fn is_on_class(
    alloc: Global,
    table: &Table,
    scope: &Scope,
    args: &Tys,
    class: &ClassKey,
    target: &Decl,
) -> Result<bool, AllocError>
    ensures { IfOk result (λ b. IsTrue b ↔ ThroughClass table.now (scope_of scope.now) args.now
        (class_key_of class.now) (decl_of target.now)) }
{
    let answer = member_answer(alloc, table, scope, args, class, target)?;
    Ok(is_one_on_class(table, answer, target))
}

/// Whether a call without a target finds the declaration.
pub(crate) fn is_method_named(
    alloc: Global,
    table: &Table,
    scope: &Scope,
    args: &Tys,
    name: &Name,
    target: &Decl,
) -> Result<bool, AllocError>
    ensures { IfOk result (λ b. IsTrue b ↔ FindsMethodNamed table.now (scope_of scope.now) name.now
        args.now (one (decl_of target.now))) }
{
    table.keeps_rows();
    lookups_are_exact();
    let place = table.number_or_none(&scope.class);
    let kinds = table.kinds(alloc, args.as_slice())?;
    let answer = call_at(
        alloc,
        table,
        place,
        scope.is_static,
        name.as_str(),
        kinds.as_slice(),
    )?;
    Ok(is_one(table, answer, target))
}

/// Whether a creation of the class, or its `super(..)` call, finds the declaration.
pub(crate) fn is_ctor(
    alloc: Global,
    table: &Table,
    scope: &Scope,
    args: &Tys,
    class: &ClassKey,
    target: &Decl,
) -> Result<bool, AllocError>
    ensures { IfOk result (λ b. IsTrue b ↔ FindsCtorOf table.now (scope_of scope.now)
        (class_key_of class.now) args.now (one (decl_of target.now))) }
{
    table.keeps_rows();
    lookups_are_exact();
    let place = table.number_or_none(&scope.class);
    let class = table.number_or_none(class);
    let kinds = table.kinds(alloc, args.as_slice())?;
    let answer = ctor_at(alloc, table, place, class, kinds.as_slice())?;
    Ok(is_one(table, answer, target))
}
