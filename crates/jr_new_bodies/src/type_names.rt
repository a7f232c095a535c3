//! Written types.
ghost use Rattle.std.specs.Prelude.{Some, None, IfOk, option_map};
ghost use Rattle.jr_ast.specs.View.{word_of, type_of};
ghost use Rattle.jr_bind_expr.specs.Fits.{FitsNamed, FitsType};
ghost use Rattle.jr_new_bodies.specs.Known.{rows_of, context_of, IsKnown, TypeIsBound};
ghost use Rattle.jr_new_bodies.specs.Known as pure;
ghost use Rattle.jr_new_bodies.specs.Walks as gives;
ghost use Rattle.jr_new_bodies.specs.OutputView.{gathered};

use crate::called::{inner_type_choice, qualifier_choice, type_choice};
use crate::here::Here;
use crate::outputs::{Output, put_alone, put_member_class, start_of};
use jr_ast::{Ident, TypeKind, TypeRef};
use jr_text::Mark;
use std::alloc::{AllocError, Global};

/// A class by its name alone, in a type that begins at `at`.
fn simple_class<A: Mark>(
    alloc: Global,
    here: &Here<'_>,
    at: u32,
    name: &Ident<A>,
    out: &mut Output,
) -> Result<(), AllocError>
    requires known { IsKnown here.now }
    requires fits { A.fits_at name.now.mark at }
    requires bound { pure.TypeNameIsBound (rows_of here.now) (context_of here.now)
        name.now.name }
    ensures { IfOk result (λ _. gives.NamedGathers A.span_from here.now at None
        (word_of name.now) (gathered out.old) (gathered out.new)) }
{
    let word = name.mark.span(at);
    let choice = type_choice(alloc, here, word.from, &name.name)?;
    put_alone(alloc, word, choice, out)
}

/// A class behind the name of the class that it is a member of.
fn inner_class<A: Mark>(
    alloc: Global,
    here: &Here<'_>,
    at: u32,
    outer: &Ident<A>,
    name: &Ident<A>,
    out: &mut Output,
) -> Result<(), AllocError>
    requires known { IsKnown here.now }
    requires fits_outer { A.fits_at outer.now.mark at }
    requires fits { A.fits_at name.now.mark at }
    requires first { pure.TypeNameIsBound (rows_of here.now) (context_of here.now)
        outer.now.name }
    requires bound { pure.InnerNameIsBound (rows_of here.now) (context_of here.now)
        outer.now.name name.now.name }
    ensures { IfOk result (λ _. gives.NamedGathers A.span_from here.now at
        (Some (word_of outer.now)) (word_of name.now) (gathered out.old) (gathered out.new)) }
{
    let before = outer.mark.span(at);
    let word = name.mark.span(at);
    let first = qualifier_choice(alloc, here, before.from, &outer.name)?;
    let from = start_of(out);
    put_alone(alloc, before, first, out)?;
    let choice = inner_type_choice(alloc, here, word.from, &outer.name, &name.name)?;
    put_member_class(alloc, before, word, from, choice, out)
}

fn class_name<A: Mark>(
    alloc: Global,
    here: &Here<'_>,
    at: u32,
    outer: &Option<Ident<A>>,
    name: &Ident<A>,
    out: &mut Output,
) -> Result<(), AllocError>
    requires known { IsKnown here.now }
    requires fits { FitsNamed A.fits_at at (option_map word_of outer.now) (word_of name.now) }
    requires bound { pure.NamedIsBound (rows_of here.now) (context_of here.now)
        (option_map word_of outer.now) (word_of name.now) }
    ensures { IfOk result (λ _. gives.NamedGathers A.span_from here.now at
        (option_map word_of outer.now) (word_of name.now) (gathered out.old)
        (gathered out.new)) }
{
    match outer {
        None => simple_class(alloc, here, at, name, out),
        Some(outer) => inner_class(alloc, here, at, outer, name, out),
    }
}

/// What comes of a written type.
pub fn written_type<A: Mark>(
    alloc: Global,
    here: &Here<'_>,
    base: u32,
    of: &TypeRef<A>,
    out: &mut Output,
) -> Result<(), AllocError>
    requires known { IsKnown here.now }
    requires fits { FitsType (λ m b. (A.span_from m b).from) A.fits_at base (type_of of.now) }
    requires bound { TypeIsBound (λ m b. (A.span_from m b).from) (rows_of here.now)
        (context_of here.now) base (type_of of.now) }
    ensures { IfOk result (λ _. gives.TypeGathers A.span_from here.now base (type_of of.now)
        (gathered out.old) (gathered out.new)) }
{
    match &of.kind {
        TypeKind::Int => Ok(()),
        TypeKind::Boolean => Ok(()),
        TypeKind::Named(outer, name) => {
            let at = of.mark.span(base).from;
            class_name(alloc, here, at, outer, name, out)
        }
    }
}

/// The same of a type in a box.
pub(crate) fn boxed_type<A: Mark>(
    alloc: Global,
    here: &Here<'_>,
    base: u32,
    of: &Box<TypeRef<A>>,
    out: &mut Output,
) -> Result<(), AllocError>
    requires known { IsKnown here.now }
    requires fits { FitsType (λ m b. (A.span_from m b).from) A.fits_at base
        (type_of of.now.value) }
    requires bound { TypeIsBound (λ m b. (A.span_from m b).from) (rows_of here.now)
        (context_of here.now) base (type_of of.now.value) }
    ensures { IfOk result (λ _. gives.TypeGathers A.span_from here.now base
        (type_of of.now.value) (gathered out.old) (gathered out.new)) }
{
    written_type(alloc, here, base, of, out)
}
