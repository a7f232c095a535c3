//! Written `super(..)` (JLS 8.8.7.1).
ghost use Rattle.std.specs.Prelude.{◌≡◌, ◌<◌, ℕ, length, slice_get, Some, Option, IfOk};
ghost use Rattle.std.specs.Prelude.{◌⊎◌};
ghost use Rattle.jr_ast.specs.View.{exprs_of};
ghost use Rattle.jr_new_bodies.specs.OutputView.{gathered};
ghost use Rattle.jr_new_words.specs.ChoiceView.{choice_of};
ghost use Rattle.jr_new_bodies.specs.Known.{IsKnown, context_of};
ghost use Rattle.jr_new_bodies.specs.Known as here_is;
ghost use Rattle.jr_new_files.specs.Ready.{IsFirstSuper};
ghost use Rattle.jr_new_files.specs.Supers as pure;

use jr_ast::{Expr, Path};
use jr_bind::View;
use jr_new_bodies::{Here, Output, exprs, keep_loss, super_ctor_choice};
use jr_new_words::Choice;
use jr_program::first_super;
use jr_text::Span;
use std::alloc::{AllocError, Global};

/// Where the first word `super` of a span of a file stands; 0 where there is none.
fn super_at<V: View<Span>>(view: &V, file: u32, span: Span) -> u32
    requires { file < length (V.program view.now).files }
    ensures { (n : ℕ) → IsFirstSuper (V.program view.now) file span n → result ≡ n }
{
    match first_super(view.items(file), span) {
        None => 0,
        Some(at) => at,
    }
}

fn is_lost(choice: &Choice) -> bool
    ensures { result ≡ pure.is_lost (choice_of choice.now) }
{
    match choice {
        Choice::Stays => false,
        Choice::Becomes(_) => false,
        Choice::Loses(_) => true,
    }
}

fn forget(choice: Choice) {
    drop(choice);
}

/// The constructor of a written `super(..)` whose word stands there, if it is lost.
fn lost_at(
    alloc: Global,
    here: &Here<'_>,
    path: &Path,
    first: u32,
    at: u32,
    args: &[Expr<Span>],
    out: &mut Output,
) -> Result<(), AllocError>
    requires known { IsKnown here.now }
    requires ready { pure.CallReady here.now path.now.steps.items first (exprs_of args.now) }
    ensures { IfOk result (λ _. pure.CallGathers here.now at (exprs_of args.now) (gathered out.old)
        (gathered out.new)) }
{
    let choice = super_ctor_choice(alloc, here, path, first, at, args)?;
    keep_loss(choice, out)
}

/// A constructor that is lost: the place is that of the word `super`, which no tree keeps.
fn lost_super<V: View<Span>>(
    alloc: Global,
    view: &V,
    file: u32,
    span: Span,
    here: &Here<'_>,
    path: &Path,
    first: u32,
    args: &[Expr<Span>],
    out: &mut Output,
) -> Result<(), AllocError>
    requires file { file < length (V.program view.now).files }
    requires known { IsKnown here.now }
    requires ready { pure.CallReady here.now path.now.steps.items first (exprs_of args.now) }
    ensures { IfOk result (λ _. (n : ℕ) → IsFirstSuper (V.program view.now) file span n
        → pure.CallGathers here.now n (exprs_of args.now) (gathered out.old) (gathered out.new)) }
{
    let at = super_at(view, file, span);
    lost_at(alloc, here, path, first, at, args, out)
}

/// The constructor of a written `super(..)`: it has no word that could change, and may be lost.
fn super_ctor<V: View<Span>>(
    alloc: Global,
    view: &V,
    file: u32,
    span: Span,
    here: &Here<'_>,
    path: &Path,
    first: u32,
    args: &[Expr<Span>],
    out: &mut Output,
) -> Result<(), AllocError>
    requires file { file < length (V.program view.now).files }
    requires known { IsKnown here.now }
    requires ready { pure.CallReady here.now path.now.steps.items first (exprs_of args.now) }
    ensures { IfOk result (λ _. (n : ℕ) → IsFirstSuper (V.program view.now) file span n
        → pure.CallGathers here.now n (exprs_of args.now) (gathered out.old) (gathered out.new)) }
{
    let choice = super_ctor_choice(alloc, here, path, first, 0, args)?;
    let lost = is_lost(&choice);
    forget(choice);
    if lost {
        lost_super(alloc, view, file, span, here, path, first, args, out)
    } else {
        Ok(())
    }
}

/// A written `super(..)` in a member of this span, with its arguments, the first of which is the
/// part of this number.
pub(crate) fn super_call<V: View<Span>>(
    alloc: Global,
    view: &V,
    file: u32,
    span: Span,
    here: &Here<'_>,
    path: &Path,
    first: u32,
    args: &[Expr<Span>],
    out: &mut Output,
) -> Result<(), AllocError>
    requires file { file < length (V.program view.now).files }
    requires known { IsKnown here.now }
    requires ready { pure.WrittenReady here.now path.now.steps.items first span.from
        (exprs_of args.now) }
    ensures { IfOk result (λ _. (n : ℕ) → IsFirstSuper (V.program view.now) file span n
        → pure.WrittenGathers here.now n span.from (exprs_of args.now) (gathered out.old)
        (gathered out.new)) }
{
    super_ctor(alloc, view, file, span, here, path, first, args, out)?;
    exprs(alloc, here, path, first, span.from, args, out)
}
