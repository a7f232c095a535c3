//! What simple names find as variables (JLS 6.4.1, 6.5.6.1).
ghost use Rattle.std.specs.Prelude.{◌≡◌, ◌↔◌, IsTrue};
ghost use Rattle.jr_table.specs.KeyView.{decl_of, local_key_of};
ghost use Rattle.jr_table.specs.TypeView.{class_key_of};
ghost use Rattle.jr_table.specs.Decls.{local_decl};
ghost use Rattle.jr_table.specs.Found.{one, nothing};
ghost use Rattle.jr_table.specs.Lookup.{FindsVariable, FindsFieldIn};
ghost use Rattle.jr_lookup.specs.ScopeView.{scope_of};

use crate::shown::{is_nothing, is_one};
use jr_ast::Name;
use jr_lookup::{Scope, field_at, field_in_at, last_local};
use jr_table::{ClassKey, Decl, LocalKey, Table, lookups_are_exact};

/// Whether it is the declaration of this local.
fn is_local(target: &Decl, key: &LocalKey) -> bool
    ensures { IsTrue result ↔ (one (local_decl (local_key_of key.now)) ≡ one (decl_of target.now)) }
{
    match target {
        Decl::Local(own) => own == key,
        Decl::Class(_) => false,
        Decl::Field(_) => false,
        Decl::Method(_) => false,
        Decl::Ctor(_) => false,
    }
}

/// Whether a simple name finds the declaration as a variable.
pub(crate) fn is_variable(table: &Table, scope: &Scope, name: &Name, target: &Decl) -> bool
    ensures { IsTrue result ↔ FindsVariable table.now (scope_of scope.now) name.now
        (one (decl_of target.now)) }
{
    table.keeps_rows();
    lookups_are_exact();
    let place = table.number_or_none(&scope.class);
    let field = field_at(table, place, scope.is_static, name.as_str());
    match last_local(scope.locals.as_slice(), name) {
        Some(key) => is_local(target, key),
        None => is_one(table, field, target),
    }
}

/// Whether a simple name finds no variable.
pub(crate) fn is_no_variable(table: &Table, scope: &Scope, name: &Name) -> bool
    ensures { IsTrue result ↔ FindsVariable table.now (scope_of scope.now) name.now nothing }
{
    table.keeps_rows();
    lookups_are_exact();
    let place = table.number_or_none(&scope.class);
    let field = field_at(table, place, scope.is_static, name.as_str());
    match last_local(scope.locals.as_slice(), name) {
        Some(_) => false,
        None => is_nothing(field),
    }
}

/// Whether a class has no field of the name.
pub(crate) fn is_no_field(table: &Table, scope: &Scope, class: &ClassKey, name: &Name) -> bool
    ensures { IsTrue result ↔ FindsFieldIn table.now (scope_of scope.now) (class_key_of class.now)
        name.now nothing }
{
    table.keeps_rows();
    lookups_are_exact();
    let place = table.number_or_none(&scope.class);
    let class = table.number_or_none(class);
    is_nothing(field_in_at(table, place, class, name.as_str()))
}
