//! The words of nodes: what comes of a name, of a call's word, of a created class.
ghost use Rattle.std.specs.Prelude.{◌≡◌, IfOk};
ghost use Rattle.jr_ast.specs.Tree as tree;
ghost use Rattle.jr_ast.specs.View.{word_of, type_of, exprs_of};
ghost use Rattle.jr_bind_expr.specs.Fits.{FitsType};
ghost use Rattle.jr_new_bodies.specs.Known.{role_of, rows_of, context_of, IsKnown, TypeIsBound};
ghost use Rattle.jr_new_bodies.specs.Known.{TypesRow, TypesCreation};
ghost use Rattle.jr_new_bodies.specs.Known as pure;
ghost use Rattle.jr_new_bodies.specs.Walks as gives;
ghost use Rattle.jr_new_bodies.specs.OutputView.{gathered};

use crate::called::{creation_choice, simple_call_choice, super_call_choice};
use crate::chosen::{name_choice, super_field_choice};
use crate::here::{Here, Role};
use crate::outputs::{Output, keep_loss, put_alone, put_on_super};
use crate::type_names::written_type;
use jr_ast::{Expr, Ident, Path, TypeRef};
use jr_text::{Mark, Span};
use std::alloc::{AllocError, Global};

/// A simple name, in a node that begins at `at`.
pub(crate) fn simple<A: Mark>(
    alloc: Global,
    here: &Here<'_>,
    role: Role,
    at: u32,
    name: &Ident<A>,
    out: &mut Output,
) -> Result<(), AllocError>
    requires known { IsKnown here.now }
    requires fits { A.fits_at name.now.mark at }
    requires bound { pure.NameIsBound (rows_of here.now) (context_of here.now)
        (role_of role) name.now.name }
    ensures { IfOk result (λ _. gives.SimpleGathers A.span_from here.now (role_of role) at
        (word_of name.now) (gathered out.old) (gathered out.new)) }
{
    let word = name.mark.span(at);
    let choice = name_choice(alloc, here, role, word.from, &name.name)?;
    put_alone(alloc, word, choice, out)
}

/// A field behind `super`, in a node of this span.
pub(crate) fn on_super<A: Mark>(
    alloc: Global,
    here: &Here<'_>,
    node: Span,
    name: &Ident<A>,
    out: &mut Output,
) -> Result<(), AllocError>
    requires known { IsKnown here.now }
    requires fits { A.fits_at name.now.mark node.from }
    requires bound { pure.SuperFieldIsBound (rows_of here.now) (context_of here.now)
        name.now.name }
    ensures { IfOk result (λ _. gives.SuperGathers A.span_from here.now node (word_of name.now)
        (gathered out.old) (gathered out.new)) }
{
    let word = name.mark.span(node.from);
    let choice = super_field_choice(alloc, here, word.from, &name.name)?;
    put_on_super(alloc, node, word, choice, out)
}

/// The word of a call without a target, in a node that begins at `at`.
pub(crate) fn call_word<A: Mark>(
    alloc: Global,
    here: &Here<'_>,
    path: &Path,
    at: u32,
    name: &Ident<A>,
    args: &[Expr<A>],
    out: &mut Output,
) -> Result<(), AllocError>
    requires known { IsKnown here.now }
    requires fits { A.fits_at name.now.mark at }
    requires types { TypesRow here.now (context_of here.now) path.now.steps.items 1
        (exprs_of args.now) }
    requires bound { pure.CallIsBound (λ m b. (A.span_from m b).from) (rows_of here.now)
        (context_of here.now) tree.no_target name.now.name (exprs_of args.now) }
    ensures { IfOk result (λ _. gives.CalledGathers A.span_from here.now at (word_of name.now)
        (exprs_of args.now) (gathered out.old) (gathered out.new)) }
{
    let word = name.mark.span(at);
    let choice = simple_call_choice(alloc, here, path, args, word.from, &name.name)?;
    put_alone(alloc, word, choice, out)
}

/// The word of a call behind `super`, in a node that begins at `at`.
pub(crate) fn called_on_super<A: Mark>(
    alloc: Global,
    here: &Here<'_>,
    path: &Path,
    at: u32,
    name: &Ident<A>,
    args: &[Expr<A>],
    out: &mut Output,
) -> Result<(), AllocError>
    requires known { IsKnown here.now }
    requires fits { A.fits_at name.now.mark at }
    requires types { TypesRow here.now (context_of here.now) path.now.steps.items 1
        (exprs_of args.now) }
    requires bound { pure.SuperCallIsBound (λ m b. (A.span_from m b).from) (rows_of here.now)
        (context_of here.now) name.now.name (exprs_of args.now) }
    ensures { IfOk result (λ _. gives.SuperCalledGathers A.span_from here.now at
        (word_of name.now) (exprs_of args.now) (gathered out.old) (gathered out.new)) }
{
    let word = name.mark.span(at);
    let choice = super_call_choice(alloc, here, path, args, word.from, &name.name)?;
    put_alone(alloc, word, choice, out)
}

/// The class and the constructor of a creation that begins at `at`.
fn creation_words<A: Mark>(
    alloc: Global,
    here: &Here<'_>,
    path: &Path,
    at: u32,
    ty: &TypeRef<A>,
    args: &[Expr<A>],
    out: &mut Output,
) -> Result<(), AllocError>
    requires known { IsKnown here.now }
    requires fits { FitsType (λ m b. (A.span_from m b).from) A.fits_at at (type_of ty.now) }
    requires created { TypesCreation here.now (context_of here.now) path.now.steps.items
        (type_of ty.now) (exprs_of args.now) }
    requires types { TypesRow here.now (context_of here.now) path.now.steps.items 1
        (exprs_of args.now) }
    requires type_bound { TypeIsBound (λ m b. (A.span_from m b).from) (rows_of here.now)
        (context_of here.now) at (type_of ty.now) }
    requires bound { pure.CreationIsBound (λ m b. (A.span_from m b).from) (rows_of here.now)
        (context_of here.now) (type_of ty.now) (exprs_of args.now) }
    ensures { IfOk result (λ _. gives.CreatedGathers A.span_from here.now at (type_of ty.now)
        (exprs_of args.now) (gathered out.old) (gathered out.new)) }
{
    let choice = creation_choice(alloc, here, path, at, ty, args)?;
    keep_loss(choice, out)?;
    written_type(alloc, here, at, ty, out)
}

/// The same of a class in a box.
pub(crate) fn boxed_creation_words<A: Mark>(
    alloc: Global,
    here: &Here<'_>,
    path: &Path,
    at: u32,
    ty: &Box<TypeRef<A>>,
    args: &[Expr<A>],
    out: &mut Output,
) -> Result<(), AllocError>
    requires known { IsKnown here.now }
    requires fits { FitsType (λ m b. (A.span_from m b).from) A.fits_at at (type_of ty.now.value) }
    requires created { TypesCreation here.now (context_of here.now) path.now.steps.items
        (type_of ty.now.value) (exprs_of args.now) }
    requires types { TypesRow here.now (context_of here.now) path.now.steps.items 1
        (exprs_of args.now) }
    requires type_bound { TypeIsBound (λ m b. (A.span_from m b).from) (rows_of here.now)
        (context_of here.now) at (type_of ty.now.value) }
    requires bound { pure.CreationIsBound (λ m b. (A.span_from m b).from) (rows_of here.now)
        (context_of here.now) (type_of ty.now.value) (exprs_of args.now) }
    ensures { IfOk result (λ _. gives.CreatedGathers A.span_from here.now at
        (type_of ty.now.value) (exprs_of args.now) (gathered out.old) (gathered out.new)) }
{
    creation_words(alloc, here, path, at, ty, args, out)
}
