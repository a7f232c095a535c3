//! Calls (JLS 15.12).
ghost use Rattle.std.specs.Prelude.{IfOk, option_map};
ghost use Rattle.jr_table.specs.TypeView.{class_key_of, ty_of};
ghost use Rattle.jr_new_words.specs.Scopes.{IsKept, rows_of, mapping_of, context_of};
ghost use Rattle.jr_new_words.specs.ChoiceView.{choice_of};
ghost use Rattle.jr_new_words.specs.FrontView.{in_front_of};
ghost use Rattle.jr_new_words.specs.Chosen as chosen;

use crate::choices::Choice;
use crate::fronts::InFront;
use crate::mappings::class_to;
use crate::scopes::Scopes;
use crate::taking::chosen;
use crate::ways::{Way, method_on_type};
use jr_ast::Name;
use jr_table::{ClassKey, Ty, Tys};
use std::alloc::{AllocError, Global};

/// The choice for a call without a target, whose arguments had these types, and now have the others.
pub fn simple_call(
    alloc: Global,
    scopes: &Scopes<'_>,
    at: u32,
    name: &Name,
    args: &Tys,
    images: &Tys,
) -> Result<Option<Choice>, AllocError>
    requires { IsKept scopes.now }
    ensures { IfOk result (λ o. chosen.SimpleCallIsChosen (rows_of scopes.now)
        (mapping_of scopes.now) (context_of scopes.now) at name.now args.now
        images.now (option_map choice_of o)) }
{
    chosen(
        alloc,
        scopes,
        at,
        name,
        &Way::MethodNamed,
        args,
        &Way::MethodNamed,
        images,
    )
}

/// The choice for a call on a value of the class, which now is of the type.
pub fn call(
    alloc: Global,
    scopes: &Scopes<'_>,
    at: u32,
    class: &ClassKey,
    now: &Ty,
    name: &Name,
    args: &Tys,
    images: &Tys,
) -> Result<Option<Choice>, AllocError>
    requires { IsKept scopes.now }
    ensures { IfOk result (λ o. chosen.CallIsChosen (rows_of scopes.now) (mapping_of scopes.now)
        (context_of scopes.now) at (class_key_of class.now) (ty_of now.now) name.now args.now
        images.now (option_map choice_of o)) }
{
    let to = method_on_type(now);
    chosen(
        alloc,
        scopes,
        at,
        name,
        &Way::MethodOn(class),
        args,
        &to,
        images,
    )
}

/// The choice for a call through the class, whose words stand so in the new program.
pub fn static_call(
    alloc: Global,
    scopes: &Scopes<'_>,
    at: u32,
    words: InFront<'_>,
    class: &ClassKey,
    name: &Name,
    args: &Tys,
    images: &Tys,
) -> Result<Option<Choice>, AllocError>
    requires { IsKept scopes.now }
    ensures { IfOk result (λ o. chosen.StaticCallIsChosen (rows_of scopes.now)
        (mapping_of scopes.now) (context_of scopes.now) at
        (in_front_of words.entry) (class_key_of class.now) name.now args.now
        images.now (option_map choice_of o)) }
{
    let on = class_to(&scopes.programs.keys, class)?;
    chosen(
        alloc,
        scopes,
        at,
        name,
        &Way::MethodOn(class),
        args,
        &Way::MethodThrough(words, &on),
        images,
    )
}

/// The choice for a call behind `super`.
pub fn super_call(
    alloc: Global,
    scopes: &Scopes<'_>,
    at: u32,
    name: &Name,
    args: &Tys,
    images: &Tys,
) -> Result<Option<Choice>, AllocError>
    requires { IsKept scopes.now }
    ensures { IfOk result (λ o. chosen.SuperCallIsChosen (rows_of scopes.now)
        (mapping_of scopes.now) (context_of scopes.now) at name.now args.now
        images.now (option_map choice_of o)) }
{
    chosen(
        alloc,
        scopes,
        at,
        name,
        &Way::MethodAbove,
        args,
        &Way::MethodAbove,
        images,
    )
}
