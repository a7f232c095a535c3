//! Classes as types (JLS 6.5.5).
ghost use Rattle.std.specs.Prelude.{◌≡◌, IfOk, option_map};
ghost use Rattle.jr_table.specs.TypeView.{class_key_of};
ghost use Rattle.jr_table.specs.Decls.{class_decl};
ghost use Rattle.jr_table.specs.Found.{one};
ghost use Rattle.jr_table.specs.Lookup.{FindsTypeNamed};
ghost use Rattle.jr_table.specs.Context.{scope_of};
ghost use Rattle.jr_new_words.specs.Scopes.{IsKept, rows_of, mapping_of, context_of};
ghost use Rattle.jr_new_words.specs.ChoiceView.{choice_of};
ghost use Rattle.jr_new_words.specs.Chosen as chosen;
ghost use Rattle.jr_new_words.specs.Ways.{MakesType};

use crate::asking::no_types;
use crate::choices::Choice;
use crate::finding::class_found;
use crate::mappings::class_to;
use crate::scopes::Scopes;
use crate::taking::{chosen, forget_decl, taken_to};
use crate::ways::Way;
use jr_ast::Name;
use jr_lookup::type_named;
use jr_table::{ClassKey, Decl, lookups_are_exact};
use std::alloc::{AllocError, Global};

/// The choice for a class as a type, by its name alone.
pub fn simple_type(
    alloc: Global,
    scopes: &Scopes<'_>,
    at: u32,
    name: &Name,
) -> Result<Option<Choice>, AllocError>
    requires { IsKept scopes.now }
    ensures { IfOk result (λ o. chosen.TypeIsChosen (rows_of scopes.now) (mapping_of scopes.now)
        (context_of scopes.now) at name.now (option_map choice_of o)) }
{
    let none = no_types(alloc)?;
    chosen(
        alloc,
        scopes,
        at,
        name,
        &Way::TypeNamed,
        &none,
        &Way::TypeNamed,
        &none,
    )
}

/// The choice for a class as a type that comes with a refactoring, asked by its name alone. `at` is
/// the place that is told where it is lost. The only fault is want of memory.
pub fn made_type(
    alloc: Global,
    scopes: &Scopes<'_>,
    at: u32,
    class: &ClassKey,
) -> Result<Choice, AllocError>
    requires { IsKept scopes.now }
    ensures { IfOk result (λ h. MakesType (rows_of scopes.now) (mapping_of scopes.now)
        (context_of scopes.now) at (class_key_of class.now) (choice_of h)) }
{
    let none = no_types(alloc)?;
    let key = class.copy()?;
    let to = class_to(&scopes.programs.keys, class)?;
    let declaration = Decl::Class(key);
    let image = Decl::Class(to);
    let choice = taken_to(
        alloc,
        scopes,
        at,
        &class.name,
        &Way::TypeNamed,
        &none,
        &declaration,
        &image,
    );
    forget_decl(declaration);
    forget_decl(image);
    choice
}

/// The choice for a member class of a class that is found by its name.
fn member_by_name(
    alloc: Global,
    scopes: &Scopes<'_>,
    at: u32,
    outer: &Name,
    class: &ClassKey,
    name: &Name,
) -> Result<Option<Choice>, AllocError>
    requires kept { IsKept scopes.now }
    requires finds { FindsTypeNamed (rows_of scopes.now) (scope_of (context_of scopes.now))
        outer.now (one (class_decl (class_key_of class.now))) }
    ensures { IfOk result (λ o. chosen.QualifiedTypeIsChosen (rows_of scopes.now)
        (mapping_of scopes.now) (context_of scopes.now) at outer.now name.now
        (option_map choice_of o)) }
{
    scopes.programs.before.keeps_rows();
    lookups_are_exact();
    let none = no_types(alloc)?;
    let image = class_to(&scopes.programs.keys, class)?;
    let to = Way::TypeBehind(&image.name);
    chosen(
        alloc,
        scopes,
        at,
        name,
        &Way::TypeBehind(outer),
        &none,
        &to,
        &none,
    )
}

/// The choice for a class as a type, behind the name of the class that it is a member of.
pub fn qualified_type(
    alloc: Global,
    scopes: &Scopes<'_>,
    at: u32,
    outer: &Name,
    name: &Name,
) -> Result<Option<Choice>, AllocError>
    requires { IsKept scopes.now }
    ensures { IfOk result (λ o. chosen.QualifiedTypeIsChosen (rows_of scopes.now)
        (mapping_of scopes.now) (context_of scopes.now) at outer.now name.now
        (option_map choice_of o)) }
{
    let table = scopes.programs.before;
    table.keeps_rows();
    lookups_are_exact();
    let found = type_named(table, &scopes.before, outer)?;
    match class_found(&found) {
        None => Ok(None),
        Some(class) => member_by_name(alloc, scopes, at, outer, class, name),
    }
}
