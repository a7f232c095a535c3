//! Locals that statements declare (JLS 14.4).
ghost use Rattle.std.specs.Prelude.{◌++◌, ◌∷◌, [], IfOk};
ghost use Rattle.jr_ast.specs.View.{word_of, type_of, expr_of};
ghost use Rattle.jr_table.specs.Context.{in_own, local_of};
ghost use Rattle.jr_table.specs.Decls.{local_decl};
ghost use Rattle.jr_bind_expr.specs.Fits.{FitsType};
ghost use Rattle.jr_scopes.specs.Helds.{key_of};
ghost use Rattle.jr_new_bodies.specs.Known.{rows_of, context_of, IsKnown, TypeIsBound};
ghost use Rattle.jr_new_bodies.specs.Locals as gives;
ghost use Rattle.jr_new_bodies.specs.OutputView.{gathered};
ghost use Rattle.jr_new_bodies.specs.Bodies.{WordGathers};
ghost use Rattle.jr_new_bodies.specs.Ready.{ExpReadyIn};
ghost use Rattle.jr_table.specs.Binding.{value};

use crate::here::{Here, next};
use crate::outputs::{Output, put_alone};
use crate::places::{declare, leave_own};
use crate::type_names::written_type;
use crate::walk::operand;
use jr_ast::{Expr, Ident, Path, TypeRef};
use jr_new_words::local_choice;
use jr_text::Mark;
use std::alloc::{AllocError, Global};

/// Gathers what comes of the word that declares the local or parameter of this number, in a node
/// whose first byte is `at` (JLS 6.1). The only fault is want of memory.
pub(crate) fn local_word<A: Mark>(
    alloc: Global,
    here: &Here<'_>,
    number: u32,
    at: u32,
    name: &Ident<A>,
    out: &mut Output,
) -> Result<(), AllocError>
    requires known { IsKnown here.now }
    requires fits { A.fits_at name.now.mark at }
    ensures { IfOk result (λ _. WordGathers A.span_from here.now
        (local_decl (key_of (context_of here.now).member number)) at (word_of name.now)
        (gathered out.old) (gathered out.new)) }
{
    let word = name.mark.span(at);
    let choice = local_choice(
        alloc,
        &here.scopes.programs.keys,
        here.scopes.member,
        number,
        &name.name,
    )?;
    put_alone(alloc, word, choice, out)
}

/// The type and the name of a local.
fn local_head<A: Mark>(
    alloc: Global,
    here: &Here<'_>,
    at: u32,
    number: u32,
    ty: &TypeRef<A>,
    name: &Ident<A>,
    out: &mut Output,
) -> Result<(), AllocError>
    requires known { IsKnown here.now }
    requires fits { FitsType (λ m b. (A.span_from m b).from) A.fits_at at (type_of ty.now) }
    requires bound { TypeIsBound (λ m b. (A.span_from m b).from) (rows_of here.now)
        (context_of here.now) at (type_of ty.now) }
    requires fits_name { A.fits_at name.now.mark at }
    ensures { IfOk result (λ _. gives.HeadGathers A.span_from here.now number at
        (type_of ty.now) (word_of name.now) (gathered out.old) (gathered out.new)) }
{
    written_type(alloc, here, at, ty, out)?;
    local_word(alloc, here, number, at, name, out)
}

/// A local; it stays in scope. Answers the number of the next one.
pub(crate) fn local<'a, A: Mark>(
    alloc: Global,
    here: &mut Here<'a>,
    path: &Path,
    at: u32,
    number: u32,
    is_final: bool,
    ty: &'a TypeRef<A>,
    name: &'a Ident<A>,
    init: &'a Expr<A>,
    out: &mut Output,
) -> Result<u32, AllocError>
    requires known { IsKnown here.old }
    requires fits { FitsType (λ m b. (A.span_from m b).from) A.fits_at at (type_of ty.now) }
    requires bound { TypeIsBound (λ m b. (A.span_from m b).from) (rows_of here.old)
        (context_of here.old) at (type_of ty.now) }
    requires fits_name { A.fits_at name.now.mark at }
    requires ready { ExpReadyIn A.span_from A.fits_at (rows_of here.old) here.old.bound.now
        here.old.from (in_own (context_of here.old) (local_of (context_of here.old) number
        is_final (type_of ty.now) (word_of name.now))) value (path.now.steps.items ++ 2 ∷ []) at
        (expr_of init.now) }
    ensures { IfOk result (λ n. gives.LocalPasses A.span_from number here.old at is_final
        (type_of ty.now) (word_of name.now) (expr_of init.now) n here.new (gathered out.old)
        (gathered out.new)) }
{
    let after = next(number)?;
    local_head(alloc, here, at, number, ty, name, out)?;
    declare(here, number, is_final, ty, name)?;
    operand(alloc, here, 0, path, 2, at, init, out)?;
    leave_own(here);
    Ok(after)
}
