//! Creations, and written `super(..)` (JLS 15.9.3, 8.8.7.1).
ghost use Rattle.std.specs.Prelude.{◌≡◌, IfOk, option_map};
ghost use Rattle.jr_table.specs.TypeView.{class_key_of};
ghost use Rattle.jr_new_words.specs.Scopes.{IsKept, rows_of, mapping_of, context_of};
ghost use Rattle.jr_new_words.specs.ChoiceView.{choice_of};
ghost use Rattle.jr_new_words.specs.Chosen as chosen;

use crate::choices::Choice;
use crate::mappings::class_to;
use crate::scopes::Scopes;
use crate::taking::chosen;
use crate::ways::Way;
use jr_ast::Name;
use jr_table::{ClassKey, Tys};
use std::alloc::{AllocError, Global};

/// The choice for the constructor of a creation of the class; `new` stands at `at`.
pub fn creation(
    alloc: Global,
    scopes: &Scopes<'_>,
    at: u32,
    class: &ClassKey,
    args: &Tys,
    images: &Tys,
) -> Result<Option<Choice>, AllocError>
    requires { IsKept scopes.now }
    ensures { IfOk result (λ o. chosen.CreationIsChosen (rows_of scopes.now) (mapping_of scopes.now)
        (context_of scopes.now) at (class_key_of class.now) args.now images.now
        (option_map choice_of o)) }
{
    let none = Name::new(alloc, "")?;
    let on = class_to(&scopes.programs.keys, class)?;
    chosen(
        alloc,
        scopes,
        at,
        &none,
        &Way::CtorOf(class),
        args,
        &Way::CtorOf(&on),
        images,
    )
}

/// The choice for the constructor of a written `super(..)`, whose word stands at `at`.
pub fn super_ctor(
    alloc: Global,
    scopes: &Scopes<'_>,
    at: u32,
    args: &Tys,
    images: &Tys,
) -> Result<Option<Choice>, AllocError>
    requires { IsKept scopes.now }
    ensures { IfOk result (λ o. chosen.SuperCtorIsChosen (rows_of scopes.now) (mapping_of scopes.now)
        (context_of scopes.now) at args.now images.now (option_map choice_of o)) }
{
    let none = Name::new(alloc, "")?;
    chosen(
        alloc,
        scopes,
        at,
        &none,
        &Way::CtorAbove,
        args,
        &Way::CtorAbove,
        images,
    )
}
