//! Fields behind a dot and behind `super` (JLS 15.11).
ghost use Rattle.std.specs.Prelude.{IfOk, option_map};
ghost use Rattle.jr_table.specs.TypeView.{class_key_of, ty_of};
ghost use Rattle.jr_new_words.specs.Scopes.{IsKept, rows_of, mapping_of, context_of};
ghost use Rattle.jr_new_words.specs.ChoiceView.{choice_of};
ghost use Rattle.jr_new_words.specs.FrontView.{in_front_of};
ghost use Rattle.jr_new_words.specs.Chosen as chosen;

use crate::asking::no_types;
use crate::choices::Choice;
use crate::fronts::InFront;
use crate::mappings::class_to;
use crate::scopes::Scopes;
use crate::taking::chosen;
use crate::ways::{Way, field_on_type};
use jr_ast::Name;
use jr_table::{ClassKey, Ty};
use std::alloc::{AllocError, Global};

/// The choice for a field on a value of the class, which now is of the type.
pub fn field(
    alloc: Global,
    scopes: &Scopes<'_>,
    at: u32,
    class: &ClassKey,
    now: &Ty,
    name: &Name,
) -> Result<Option<Choice>, AllocError>
    requires { IsKept scopes.now }
    ensures { IfOk result (λ o. chosen.FieldIsChosen (rows_of scopes.now) (mapping_of scopes.now)
        (context_of scopes.now) at (class_key_of class.now) (ty_of now.now) name.now
        (option_map choice_of o)) }
{
    let none = no_types(alloc)?;
    let to = field_on_type(now);
    chosen(
        alloc,
        scopes,
        at,
        name,
        &Way::FieldOn(class),
        &none,
        &to,
        &none,
    )
}

/// The choice for a field through the class, whose words stand so in the new program.
pub fn static_field(
    alloc: Global,
    scopes: &Scopes<'_>,
    at: u32,
    words: InFront<'_>,
    class: &ClassKey,
    name: &Name,
) -> Result<Option<Choice>, AllocError>
    requires { IsKept scopes.now }
    ensures { IfOk result (λ o. chosen.StaticFieldIsChosen (rows_of scopes.now)
        (mapping_of scopes.now) (context_of scopes.now) at
        (in_front_of words.entry) (class_key_of class.now) name.now (option_map choice_of o)) }
{
    let none = no_types(alloc)?;
    let on = class_to(&scopes.programs.keys, class)?;
    chosen(
        alloc,
        scopes,
        at,
        name,
        &Way::FieldOn(class),
        &none,
        &Way::FieldThrough(words, &on),
        &none,
    )
}

/// The choice for a field behind `super`.
pub fn super_field(
    alloc: Global,
    scopes: &Scopes<'_>,
    at: u32,
    name: &Name,
) -> Result<Option<Choice>, AllocError>
    requires { IsKept scopes.now }
    ensures { IfOk result (λ o. chosen.SuperFieldIsChosen (rows_of scopes.now)
        (mapping_of scopes.now) (context_of scopes.now) at name.now (option_map choice_of o)) }
{
    let none = no_types(alloc)?;
    chosen(
        alloc,
        scopes,
        at,
        name,
        &Way::FieldAbove,
        &none,
        &Way::FieldAbove,
        &none,
    )
}
