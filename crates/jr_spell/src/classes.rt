//! What words find as the names of classes (JLS 6.4.2, 6.5.2, 6.5.5).
ghost use Rattle.std.specs.Prelude.{◌≡◌, ◌↔◌, IsTrue, IfOk, Some, None, option_map};
ghost use Rattle.jr_table.specs.TypeView.{class_key_of};
ghost use Rattle.jr_table.specs.Lookup.{find_type_named, find_type_of};
ghost use Rattle.jr_table.specs.Meanings.{class_found};
ghost use Rattle.jr_table.specs.Context.{NamesClass};
ghost use Rattle.jr_lookup.specs.ScopeView.{scope_of};
ghost use Rattle.jr_spell.specs.Binds.{LeadsTo, LeadsIn, front_word, last_word};

use crate::shown::class_at;
use crate::variables::{is_no_field, is_no_variable};
use jr_ast::Name;
use jr_lookup::{Scope, member_type_at, type_at};
use jr_table::{ClassKey, Table, lookups_are_exact};
use std::alloc::{AllocError, Global};

/// The class that a simple name finds as a type.
#[tactic(auto, unfolding(jr_table::specs::Lookup::find_type_named))]
fn type_named<'a>(table: &'a Table, scope: &Scope, name: &Name) -> Option<&'a ClassKey>
    ensures { option_map (λ k. class_key_of k.now) result
        ≡ class_found (find_type_named table.now (scope_of scope.now) name.now) }
{
    let place = table.number_or_none(&scope.class);
    class_at(table, type_at(table, place, name))
}

/// The class that is a class's member type of the name.
#[tactic(auto, unfolding(jr_table::specs::Lookup::find_type_of))]
fn member_type<'a>(
    table: &'a Table,
    scope: &Scope,
    class: &ClassKey,
    name: &Name,
) -> Option<&'a ClassKey>
    ensures { option_map (λ k. class_key_of k.now) result ≡ class_found (find_type_of table.now
        (scope_of scope.now) (class_key_of class.now) name.now) }
{
    let place = table.number_or_none(&scope.class);
    let class = table.number_or_none(class);
    class_at(table, member_type_at(table, place, class, name.as_str()))
}

/// Whether this class is found.
fn is_class(found: Option<&ClassKey>, class: &ClassKey) -> bool
    ensures { IsTrue result ↔ (option_map (λ k. class_key_of k.now) found.entry
        ≡ Some (class_key_of class.now)) }
{
    match found {
        None => false,
        Some(key) => *key == *class,
    }
}

/// Whether a simple name finds the class as a type.
pub(crate) fn is_type(table: &Table, scope: &Scope, name: &Name, class: &ClassKey) -> bool
    ensures { IsTrue result ↔ NamesClass table.now (scope_of scope.now) None name.now
        (class_key_of class.now) }
{
    table.keeps_rows();
    lookups_are_exact();
    is_class(type_named(table, scope, name), class)
}

/// Whether the class is the member type of the name of the type that another name finds.
pub(crate) fn is_type_in(
    table: &Table,
    scope: &Scope,
    outer: &Name,
    name: &Name,
    class: &ClassKey,
) -> bool
    ensures { IsTrue result ↔ NamesClass table.now (scope_of scope.now) (Some outer.now) name.now
        (class_key_of class.now) }
{
    table.keeps_rows();
    lookups_are_exact();
    match type_named(table, scope, outer) {
        None => false,
        Some(around) => is_class(member_type(table, scope, around, name), class),
    }
}

/// Whether a simple name in front of a dot is the class's.
pub(crate) fn leads_simply(table: &Table, scope: &Scope, name: &Name, class: &ClassKey) -> bool
    ensures { IsTrue result ↔ LeadsTo table.now (scope_of scope.now) None name.now
        (class_key_of class.now) }
{
    is_no_variable(table, scope, name) & is_type(table, scope, name, class)
}

/// Whether the class is the member type of the name of a class, which has no field of the name.
pub(crate) fn leads_in(
    table: &Table,
    scope: &Scope,
    around: &ClassKey,
    name: &Name,
    class: &ClassKey,
) -> bool
    ensures { IsTrue result ↔ LeadsIn table.now (scope_of scope.now) (class_key_of around.now)
        name.now (class_key_of class.now) }
{
    table.keeps_rows();
    lookups_are_exact();
    is_no_field(table, scope, around, name)
        & is_class(member_type(table, scope, around, name), class)
}

/// Whether two words with a dot between them, in front of a dot, are the class's.
pub(crate) fn leads_dotted(
    table: &Table,
    scope: &Scope,
    outer: &Name,
    name: &Name,
    class: &ClassKey,
) -> bool
    ensures { IsTrue result ↔ LeadsTo table.now (scope_of scope.now) (Some outer.now) name.now
        (class_key_of class.now) }
{
    table.keeps_rows();
    lookups_are_exact();
    match type_named(table, scope, outer) {
        None => false,
        Some(around) => {
            is_no_variable(table, scope, outer) & leads_in(table, scope, around, name, class)
        }
    }
}

/// Whether the text is the name of the class as a type.
pub(crate) fn is_type_text(
    alloc: Global,
    table: &Table,
    scope: &Scope,
    text: &Name,
    class: &ClassKey,
) -> Result<bool, AllocError>
    ensures { IfOk result (λ b. IsTrue b ↔ NamesClass table.now (scope_of scope.now)
        (front_word text.now) (last_word text.now) (class_key_of class.now)) }
{
    match text.as_str().split_once('.') {
        None => Ok(is_type(table, scope, text, class)),
        Some((front, last)) => {
            let front = Name::new(alloc, front)?;
            let last = Name::new(alloc, last)?;
            Ok(is_type_in(table, scope, &front, &last, class))
        }
    }
}
