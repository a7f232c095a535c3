//! What is chosen for each call, creation and type.
ghost use Rattle.std.specs.Prelude.{IfOk};
ghost use Rattle.jr_ast.specs.Tree.{no_target, on};
ghost use Rattle.jr_ast.specs.View.{expr_of, exprs_of, type_of};
ghost use Rattle.jr_table.specs.TypeView.{class_key_of};
ghost use Rattle.jr_table.specs.Binding.{IsClassName, HaveTypes, left};
ghost use Rattle.jr_bind_expr.specs.Fits.{FitsExp};
ghost use Rattle.jr_new_words.specs.Spelled as spells;
ghost use Rattle.jr_new_words.specs.ChoiceView.{choice_of};
ghost use Rattle.jr_new_words.specs.Chosen.{unmarked};
ghost use Rattle.jr_new_words.specs.Chosen as chosen;
ghost use Rattle.jr_new_bodies.specs.Known as pure;
ghost use Rattle.jr_new_bodies.specs.Known.{rows_of, mapping_of, context_of, IsKnown, IsValueOf};
ghost use Rattle.jr_new_bodies.specs.Known.{ExpReady, SoundExp, RefersExp, TypesRow};
ghost use Rattle.jr_new_bodies.specs.Known.{TypesCreation};

use crate::chosen::words_stand;
use crate::here::Here;
use crate::meanings::{Before, before_dot, types, value_at};
use crate::new_types::{class_now, types_now};
use jr_ast::{Expr, Name, Path, TypeRef};
use jr_new_words::{
    Choice, call, creation, qualified_type, qualifier, simple_call, simple_type, static_call,
    super_call, super_ctor,
};
use jr_table::{ClassKey, Tys, lookups_are_exact, types_are_exact};
use jr_text::Mark;
use std::alloc::{AllocError, Global};

/// A call without a target.
pub(crate) fn simple_call_choice<A: Mark>(
    alloc: Global,
    here: &Here<'_>,
    path: &Path,
    args: &[Expr<A>],
    at: u32,
    name: &Name,
) -> Result<Choice, AllocError>
    requires known { IsKnown here.now }
    requires types { TypesRow here.now (context_of here.now) path.now.steps.items 1
        (exprs_of args.now) }
    requires bound { pure.CallIsBound (λ m b. (A.span_from m b).from) (rows_of here.now)
        (context_of here.now) no_target name.now (exprs_of args.now) }
    ensures { IfOk result (λ h. spells.SimpleCallSpells (λ m b. (A.span_from m b).from)
        (rows_of here.now) (mapping_of here.now) (context_of here.now) at name.now
        (exprs_of args.now) (choice_of h)) }
{
    lookups_are_exact();
    types_are_exact::<A>();
    here.scopes.programs.before.keeps_rows();
    let types = types(alloc, here, path, 1, args)?;
    let types = types.unwrap();
    let images = types_now(alloc, here, args, &types)?;
    let choice = simple_call(alloc, &here.scopes, at, name, &types, &images)?;
    Ok(choice.unwrap())
}

/// A call on a value.
fn value_call<A: Mark>(
    alloc: Global,
    here: &Here<'_>,
    part: &Expr<A>,
    class: &ClassKey,
    args: &[Expr<A>],
    types: &Tys,
    at: u32,
    name: &Name,
) -> Result<Choice, AllocError>
    requires known { IsKnown here.now }
    requires value { IsValueOf (rows_of here.now) (context_of here.now) (expr_of part.now)
        (class_key_of class.now) }
    requires types { HaveTypes (rows_of here.now) (context_of here.now) (exprs_of args.now)
        types.now }
    requires bound { pure.CallIsBound (λ m b. (A.span_from m b).from) (rows_of here.now)
        (context_of here.now) (on (expr_of part.now)) name.now (exprs_of args.now) }
    ensures { IfOk result (λ h. spells.CallSpells (λ m b. (A.span_from m b).from)
        (rows_of here.now) (mapping_of here.now) (context_of here.now) at (expr_of part.now)
        name.now (exprs_of args.now) (choice_of h)) }
{
    lookups_are_exact();
    types_are_exact::<A>();
    here.scopes.programs.before.keeps_rows();
    let images = types_now(alloc, here, args, types)?;
    let now = class_now(here, part, class)?;
    let choice = call(alloc, &here.scopes, at, class, &now, name, types, &images)?;
    Ok(choice.unwrap())
}

/// A call through a class.
fn class_call<A: Mark>(
    alloc: Global,
    here: &Here<'_>,
    base: u32,
    part: &Expr<A>,
    class: &ClassKey,
    args: &[Expr<A>],
    types: &Tys,
    at: u32,
    name: &Name,
) -> Result<Choice, AllocError>
    requires known { IsKnown here.now }
    requires fits { FitsExp (λ m b. (A.span_from m b).from) A.fits_at base (expr_of part.now) }
    requires sound { SoundExp (λ m b. (A.span_from m b).from) (rows_of here.now)
        (context_of here.now) left base (expr_of part.now) }
    requires refers { RefersExp (λ m b. (A.span_from m b).from) here.now (context_of here.now)
        left base (expr_of part.now) }
    requires class { IsClassName (rows_of here.now) (context_of here.now) (expr_of part.now)
        (class_key_of class.now) }
    requires types { HaveTypes (rows_of here.now) (context_of here.now) (exprs_of args.now)
        types.now }
    requires bound { pure.CallIsBound (λ m b. (A.span_from m b).from) (rows_of here.now)
        (context_of here.now) (on (expr_of part.now)) name.now (exprs_of args.now) }
    ensures { IfOk result (λ h. spells.CallSpells (λ m b. (A.span_from m b).from)
        (rows_of here.now) (mapping_of here.now) (context_of here.now) at (expr_of part.now)
        name.now (exprs_of args.now) (choice_of h)) }
{
    lookups_are_exact();
    types_are_exact::<A>();
    here.scopes.programs.before.keeps_rows();
    let words = words_stand(here, base, part, class)?;
    let images = types_now(alloc, here, args, types)?;
    let choice = static_call(alloc, &here.scopes, at, words, class, name, types, &images)?;
    Ok(choice.unwrap())
}

/// A call on what stands in front of the dot, with arguments of these types.
fn typed_call<A: Mark>(
    alloc: Global,
    here: &Here<'_>,
    inner: &Path,
    base: u32,
    part: &Expr<A>,
    args: &[Expr<A>],
    types: &Tys,
    at: u32,
    name: &Name,
) -> Result<Choice, AllocError>
    requires known { IsKnown here.now }
    requires ready { ExpReady A.span_from A.fits_at here.now left inner.now.steps.items base
        (expr_of part.now) }
    requires types { HaveTypes (rows_of here.now) (context_of here.now) (exprs_of args.now)
        types.now }
    requires bound { pure.CallIsBound (λ m b. (A.span_from m b).from) (rows_of here.now)
        (context_of here.now) (on (expr_of part.now)) name.now (exprs_of args.now) }
    ensures { IfOk result (λ h. spells.CallSpells (λ m b. (A.span_from m b).from)
        (rows_of here.now) (mapping_of here.now) (context_of here.now) at (expr_of part.now)
        name.now (exprs_of args.now) (choice_of h)) }
{
    lookups_are_exact();
    here.scopes.programs.before.keeps_rows();
    match before_dot(here, inner, base, part) {
        Before::Class(class) => {
            class_call(alloc, here, base, part, class, args, types, at, name)
        }
        Before::Value(class) => value_call(alloc, here, part, class, args, types, at, name),
        Before::Neither => unreachable!(),
    }
}

/// A call on what stands in front of the dot.
pub(crate) fn call_choice<A: Mark>(
    alloc: Global,
    here: &Here<'_>,
    path: &Path,
    inner: &Path,
    base: u32,
    part: &Expr<A>,
    args: &[Expr<A>],
    at: u32,
    name: &Name,
) -> Result<Choice, AllocError>
    requires known { IsKnown here.now }
    requires ready { ExpReady A.span_from A.fits_at here.now left inner.now.steps.items base
        (expr_of part.now) }
    requires types { TypesRow here.now (context_of here.now) path.now.steps.items 2
        (exprs_of args.now) }
    requires bound { pure.CallIsBound (λ m b. (A.span_from m b).from) (rows_of here.now)
        (context_of here.now) (on (expr_of part.now)) name.now (exprs_of args.now) }
    ensures { IfOk result (λ h. spells.CallSpells (λ m b. (A.span_from m b).from)
        (rows_of here.now) (mapping_of here.now) (context_of here.now) at (expr_of part.now)
        name.now (exprs_of args.now) (choice_of h)) }
{
    lookups_are_exact();
    types_are_exact::<A>();
    here.scopes.programs.before.keeps_rows();
    let types = types(alloc, here, path, 2, args)?;
    let types = types.unwrap();
    typed_call(alloc, here, inner, base, part, args, &types, at, name)
}

/// A call behind `super`.
pub(crate) fn super_call_choice<A: Mark>(
    alloc: Global,
    here: &Here<'_>,
    path: &Path,
    args: &[Expr<A>],
    at: u32,
    name: &Name,
) -> Result<Choice, AllocError>
    requires known { IsKnown here.now }
    requires types { TypesRow here.now (context_of here.now) path.now.steps.items 1
        (exprs_of args.now) }
    requires bound { pure.SuperCallIsBound (λ m b. (A.span_from m b).from) (rows_of here.now)
        (context_of here.now) name.now (exprs_of args.now) }
    ensures { IfOk result (λ h. spells.SuperCallSpells (λ m b. (A.span_from m b).from)
        (rows_of here.now) (mapping_of here.now) (context_of here.now) at name.now
        (exprs_of args.now) (choice_of h)) }
{
    lookups_are_exact();
    types_are_exact::<A>();
    here.scopes.programs.before.keeps_rows();
    let types = types(alloc, here, path, 1, args)?;
    let types = types.unwrap();
    let images = types_now(alloc, here, args, &types)?;
    let choice = super_call(alloc, &here.scopes, at, name, &types, &images)?;
    Ok(choice.unwrap())
}

/// The constructor of a creation, with arguments of these types.
fn typed_creation<A: Mark>(
    alloc: Global,
    here: &Here<'_>,
    path: &Path,
    at: u32,
    ty: &TypeRef<A>,
    args: &[Expr<A>],
    types: &Tys,
) -> Result<Choice, AllocError>
    requires known { IsKnown here.now }
    requires created { TypesCreation here.now (context_of here.now) path.now.steps.items
        (type_of ty.now) (exprs_of args.now) }
    requires types { HaveTypes (rows_of here.now) (context_of here.now) (exprs_of args.now)
        types.now }
    requires bound { pure.CreationIsBound (λ m b. (A.span_from m b).from) (rows_of here.now)
        (context_of here.now) (type_of ty.now) (exprs_of args.now) }
    ensures { IfOk result (λ h. pure.Creates (λ m b. (A.span_from m b).from) (rows_of here.now)
        (mapping_of here.now) (context_of here.now) at (type_of ty.now) (exprs_of args.now)
        (choice_of h)) }
{
    lookups_are_exact();
    types_are_exact::<A>();
    here.scopes.programs.before.keeps_rows();
    let _kind = &ty.kind;
    match value_at(here, path) {
        Before::Class(_) => unreachable!(),
        Before::Value(class) => {
            let images = types_now(alloc, here, args, types)?;
            let choice = creation(alloc, &here.scopes, at, class, types, &images)?;
            Ok(choice.unwrap())
        }
        Before::Neither => unreachable!(),
    }
}

/// The constructor of a creation, which begins at `at`.
pub(crate) fn creation_choice<A: Mark>(
    alloc: Global,
    here: &Here<'_>,
    path: &Path,
    at: u32,
    ty: &TypeRef<A>,
    args: &[Expr<A>],
) -> Result<Choice, AllocError>
    requires known { IsKnown here.now }
    requires created { TypesCreation here.now (context_of here.now) path.now.steps.items
        (type_of ty.now) (exprs_of args.now) }
    requires types { TypesRow here.now (context_of here.now) path.now.steps.items 1
        (exprs_of args.now) }
    requires bound { pure.CreationIsBound (λ m b. (A.span_from m b).from) (rows_of here.now)
        (context_of here.now) (type_of ty.now) (exprs_of args.now) }
    ensures { IfOk result (λ h. pure.Creates (λ m b. (A.span_from m b).from) (rows_of here.now)
        (mapping_of here.now) (context_of here.now) at (type_of ty.now) (exprs_of args.now)
        (choice_of h)) }
{
    lookups_are_exact();
    types_are_exact::<A>();
    here.scopes.programs.before.keeps_rows();
    let types = types(alloc, here, path, 1, args)?;
    let types = types.unwrap();
    typed_creation(alloc, here, path, at, ty, args, &types)
}

/// The constructor of a written `super(..)`, whose word stands at `at`.
pub fn super_ctor_choice<A: Mark>(
    alloc: Global,
    here: &Here<'_>,
    path: &Path,
    first: u32,
    at: u32,
    args: &[Expr<A>],
) -> Result<Choice, AllocError>
    requires known { IsKnown here.now }
    requires types { TypesRow here.now (context_of here.now) path.now.steps.items first
        (exprs_of args.now) }
    requires bound { pure.SuperCtorIsBound (rows_of here.now) (context_of here.now)
        (exprs_of args.now) }
    ensures { IfOk result (λ h. spells.SuperCtorSpells (λ m b. (A.span_from m b).from)
        (rows_of here.now) (mapping_of here.now) at (context_of here.now) (exprs_of args.now)
        (choice_of h)) }
{
    lookups_are_exact();
    types_are_exact::<A>();
    here.scopes.programs.before.keeps_rows();
    let types = types(alloc, here, path, first, args)?;
    let types = types.unwrap();
    let images = types_now(alloc, here, args, &types)?;
    let choice = super_ctor(alloc, &here.scopes, at, &types, &images)?;
    Ok(choice.unwrap())
}

/// A class as a type.
pub(crate) fn type_choice(
    alloc: Global,
    here: &Here<'_>,
    at: u32,
    name: &Name,
) -> Result<Choice, AllocError>
    requires known { IsKnown here.now }
    requires bound { pure.TypeNameIsBound (rows_of here.now) (context_of here.now) name.now }
    ensures { IfOk result (λ h. chosen.TypeIsChosen (rows_of here.now) (mapping_of here.now)
        (context_of here.now) at name.now (pure.just (choice_of h))) }
{
    lookups_are_exact();
    here.scopes.programs.before.keeps_rows();
    let choice = simple_type(alloc, &here.scopes, at, name)?;
    Ok(choice.unwrap())
}

/// The class in front of the dot in a type.
pub(crate) fn qualifier_choice(
    alloc: Global,
    here: &Here<'_>,
    at: u32,
    name: &Name,
) -> Result<Choice, AllocError>
    requires known { IsKnown here.now }
    requires bound { pure.TypeNameIsBound (rows_of here.now) (context_of here.now) name.now }
    ensures { IfOk result (λ h. chosen.QualifierIsChosen (rows_of here.now) (mapping_of here.now)
        (context_of here.now) at name.now (pure.just (choice_of h))) }
{
    lookups_are_exact();
    here.scopes.programs.before.keeps_rows();
    let choice = qualifier(alloc, &here.scopes, at, name)?;
    Ok(choice.unwrap())
}

/// A class as a type, behind the name of the class that it is a member of.
pub(crate) fn inner_type_choice(
    alloc: Global,
    here: &Here<'_>,
    at: u32,
    outer: &Name,
    name: &Name,
) -> Result<Choice, AllocError>
    requires known { IsKnown here.now }
    requires first { pure.TypeNameIsBound (rows_of here.now) (context_of here.now) outer.now }
    requires bound { pure.InnerNameIsBound (rows_of here.now) (context_of here.now) outer.now
        name.now }
    ensures { IfOk result (λ h. chosen.QualifiedTypeIsChosen (rows_of here.now)
        (mapping_of here.now) (context_of here.now) at outer.now name.now
        (pure.just (choice_of h))) }
{
    lookups_are_exact();
    here.scopes.programs.before.keeps_rows();
    let choice = qualified_type(alloc, &here.scopes, at, outer, name)?;
    Ok(choice.unwrap())
}
