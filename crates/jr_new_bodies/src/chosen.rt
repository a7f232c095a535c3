//! What is chosen for each reference of a program without faults and errors.
ghost use Rattle.std.specs.Prelude.{None, IfOk, option_map};
ghost use Rattle.jr_ast.specs.View.{expr_of};
ghost use Rattle.jr_table.specs.TypeView.{class_key_of};
ghost use Rattle.jr_table.specs.Binding.{IsClassName, left};
ghost use Rattle.jr_bind_expr.specs.Fits.{FitsExp};
ghost use Rattle.jr_new_words.specs.Spelled as spells;
ghost use Rattle.jr_new_words.specs.Spelled.{WordsStand};
ghost use Rattle.jr_new_words.specs.ChoiceView.{choice_of};
ghost use Rattle.jr_new_words.specs.FrontView.{in_front_of};
ghost use Rattle.jr_new_words.specs.Chosen.{VariableIsChosen, unmarked};
ghost use Rattle.jr_new_bodies.specs.Known as pure;
ghost use Rattle.jr_new_bodies.specs.Known.{rows_of, mapping_of, context_of, role_of, IsKnown};
ghost use Rattle.jr_new_bodies.specs.Known.{ExpReady, SoundExp, RefersExp};

use crate::here::{Here, Role};
use crate::meanings::{Before, before_dot, front, named_class};
use crate::new_types::class_now;
use jr_ast::{Expr, Name, Path};
use jr_new_words::{
    Choice, InFront, field, first_word, left_class, member_class, next_word, static_field,
    super_field, variable,
};
use jr_table::{ClassKey, lookups_are_exact, types_are_exact};
use jr_text::{Mark, Span};
use std::alloc::{AllocError, Global};

/// A class in front of a dot, where no variable has the name.
fn class_choice(
    alloc: Global,
    here: &Here<'_>,
    role: Role,
    at: u32,
    name: &Name,
) -> Result<Choice, AllocError>
    requires known { IsKnown here.now }
    requires bound { pure.NameIsBound (rows_of here.now) (context_of here.now)
        (role_of role) name.now }
    requires none { VariableIsChosen (rows_of here.now) (mapping_of here.now)
        (context_of here.now) at name.now None }
    ensures { IfOk result (λ h. pure.NameSpells (rows_of here.now) (mapping_of here.now)
        (context_of here.now) (role_of role) at name.now (choice_of h)) }
{
    lookups_are_exact();
    here.scopes.programs.before.keeps_rows();
    match role {
        Role::Left => {
            let choice = left_class(alloc, &here.scopes, at, name)?;
            Ok(choice.unwrap())
        }
        Role::Value => unreachable!(),
        Role::Statement => unreachable!(),
    }
}

/// A simple name.
pub(crate) fn name_choice(
    alloc: Global,
    here: &Here<'_>,
    role: Role,
    at: u32,
    name: &Name,
) -> Result<Choice, AllocError>
    requires known { IsKnown here.now }
    requires bound { pure.NameIsBound (rows_of here.now) (context_of here.now)
        (role_of role) name.now }
    ensures { IfOk result (λ h. pure.NameSpells (rows_of here.now) (mapping_of here.now)
        (context_of here.now) (role_of role) at name.now (choice_of h)) }
{
    let found = variable(alloc, &here.scopes, at, name)?;
    match found {
        Some(choice) => Ok(choice),
        None => class_choice(alloc, here, role, at, name),
    }
}

/// What the words of the class in front of a dot, each with its new name, find in the new program.
pub(crate) fn words_stand<'a, A: Mark>(
    here: &Here<'a>,
    base: u32,
    of: &Expr<A>,
    class: &ClassKey,
) -> Result<InFront<'a>, AllocError>
    requires known { IsKnown here.now }
    requires fits { FitsExp (λ m b. (A.span_from m b).from) A.fits_at base (expr_of of.now) }
    requires sound { SoundExp (λ m b. (A.span_from m b).from) (rows_of here.now)
        (context_of here.now) left base (expr_of of.now) }
    requires refers { RefersExp (λ m b. (A.span_from m b).from) here.now (context_of here.now)
        left base (expr_of of.now) }
    requires class { IsClassName (rows_of here.now) (context_of here.now) (expr_of of.now)
        (class_key_of class.now) }
    ensures { IfOk result (λ w. WordsStand (rows_of here.now) (mapping_of here.now)
        (context_of here.now) (expr_of of.now) (class_key_of class.now) (in_front_of w)) }
{
    lookups_are_exact();
    types_are_exact::<A>();
    here.scopes.programs.before.keeps_rows();
    let at = of.mark.span(base).from;
    match front(of) {
        None => first_word(&here.scopes, class),
        Some(part) => match named_class(here, at, part) {
            None => unreachable!(),
            Some(outer) => {
                let words = words_stand(here, at, part, outer)?;
                next_word(&here.scopes, &words, class)
            }
        },
    }
}

/// A field, or a member class in front of a further dot, through a class.
fn through_class<A: Mark>(
    alloc: Global,
    here: &Here<'_>,
    role: Role,
    base: u32,
    part: &Expr<A>,
    class: &ClassKey,
    at: u32,
    name: &Name,
) -> Result<Choice, AllocError>
    requires known { IsKnown here.now }
    requires fits { FitsExp (λ m b. (A.span_from m b).from) A.fits_at base (expr_of part.now) }
    requires sound { SoundExp (λ m b. (A.span_from m b).from) (rows_of here.now)
        (context_of here.now) left base (expr_of part.now) }
    requires refers { RefersExp (λ m b. (A.span_from m b).from) here.now (context_of here.now)
        left base (expr_of part.now) }
    requires class { IsClassName (rows_of here.now) (context_of here.now) (expr_of part.now)
        (class_key_of class.now) }
    requires bound { pure.DottedIsBound (λ m b. (A.span_from m b).from) (rows_of here.now)
        (context_of here.now) (role_of role) (expr_of part.now) name.now }
    ensures { IfOk result (λ h. pure.DottedSpells (λ m b. (A.span_from m b).from)
        (rows_of here.now) (mapping_of here.now) (context_of here.now) (role_of role) at
        (expr_of part.now) name.now (choice_of h)) }
{
    lookups_are_exact();
    here.scopes.programs.before.keeps_rows();
    let words = words_stand(here, base, part, class)?;
    let found = static_field(alloc, &here.scopes, at, words, class, name)?;
    match found {
        Some(choice) => Ok(choice),
        None => inner_choice(alloc, here, role, part, class, &words, at, name),
    }
}

/// A member class in front of a further dot, where no field has the name.
fn inner_choice<A: Mark>(
    alloc: Global,
    here: &Here<'_>,
    role: Role,
    part: &Expr<A>,
    class: &ClassKey,
    words: &InFront<'_>,
    at: u32,
    name: &Name,
) -> Result<Choice, AllocError>
    requires known { IsKnown here.now }
    requires class { IsClassName (rows_of here.now) (context_of here.now) (expr_of part.now)
        (class_key_of class.now) }
    requires words { WordsStand (rows_of here.now) (mapping_of here.now) (context_of here.now)
        (expr_of part.now) (class_key_of class.now) (in_front_of words.now) }
    requires bound { pure.DottedIsBound (λ m b. (A.span_from m b).from) (rows_of here.now)
        (context_of here.now) (role_of role) (expr_of part.now) name.now }
    requires none { pure.NoField (rows_of here.now) (context_of here.now)
        (class_key_of class.now) name.now }
    ensures { IfOk result (λ h. pure.DottedSpells (λ m b. (A.span_from m b).from)
        (rows_of here.now) (mapping_of here.now) (context_of here.now) (role_of role) at
        (expr_of part.now) name.now (choice_of h)) }
{
    lookups_are_exact();
    types_are_exact::<A>();
    here.scopes.programs.before.keeps_rows();
    match role {
        Role::Left => {
            let choice = member_class(alloc, &here.scopes, at, class, words, name)?;
            Ok(choice.unwrap())
        }
        Role::Value => unreachable!(),
        Role::Statement => unreachable!(),
    }
}

/// A field on a value.
fn on_value<A: Mark>(
    alloc: Global,
    here: &Here<'_>,
    role: Role,
    part: &Expr<A>,
    class: &ClassKey,
    at: u32,
    name: &Name,
) -> Result<Choice, AllocError>
    requires known { IsKnown here.now }
    requires value { pure.IsValueOf (rows_of here.now) (context_of here.now) (expr_of part.now)
        (class_key_of class.now) }
    requires bound { pure.DottedIsBound (λ m b. (A.span_from m b).from) (rows_of here.now)
        (context_of here.now) (role_of role) (expr_of part.now) name.now }
    ensures { IfOk result (λ h. pure.DottedSpells (λ m b. (A.span_from m b).from)
        (rows_of here.now) (mapping_of here.now) (context_of here.now) (role_of role) at
        (expr_of part.now) name.now (choice_of h)) }
{
    lookups_are_exact();
    here.scopes.programs.before.keeps_rows();
    let now = class_now(here, part, class)?;
    let choice = field(alloc, &here.scopes, at, class, &now, name)?;
    Ok(choice.unwrap())
}

/// A name behind an operand and a dot.
pub(crate) fn dotted_choice<A: Mark>(
    alloc: Global,
    here: &Here<'_>,
    role: Role,
    path: &Path,
    base: u32,
    part: &Expr<A>,
    at: u32,
    name: &Name,
) -> Result<Choice, AllocError>
    requires known { IsKnown here.now }
    requires ready { ExpReady A.span_from A.fits_at here.now left path.now.steps.items base
        (expr_of part.now) }
    requires bound { pure.DottedIsBound (λ m b. (A.span_from m b).from) (rows_of here.now)
        (context_of here.now) (role_of role) (expr_of part.now) name.now }
    ensures { IfOk result (λ h. pure.DottedSpells (λ m b. (A.span_from m b).from)
        (rows_of here.now) (mapping_of here.now) (context_of here.now) (role_of role) at
        (expr_of part.now) name.now (choice_of h)) }
{
    lookups_are_exact();
    here.scopes.programs.before.keeps_rows();
    match before_dot(here, path, base, part) {
        Before::Class(class) => through_class(alloc, here, role, base, part, class, at, name),
        Before::Value(class) => on_value(alloc, here, role, part, class, at, name),
        Before::Neither => unreachable!(),
    }
}

/// A field behind `super`.
pub(crate) fn super_field_choice(
    alloc: Global,
    here: &Here<'_>,
    at: u32,
    name: &Name,
) -> Result<Choice, AllocError>
    requires known { IsKnown here.now }
    requires bound { pure.SuperFieldIsBound (rows_of here.now) (context_of here.now)
        name.now }
    ensures { IfOk result (λ h. spells.SuperFieldSpells unmarked (rows_of here.now)
        (mapping_of here.now) (context_of here.now) at name.now (choice_of h)) }
{
    lookups_are_exact();
    types_are_exact::<Span>();
    here.scopes.programs.before.keeps_rows();
    let choice = super_field(alloc, &here.scopes, at, name)?;
    Ok(choice.unwrap())
}
