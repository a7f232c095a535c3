//! What is assigned or bumped: its test, its load, its store (JLS 15.26).
ghost use Rattle.std.specs.Prelude.{ℕ, List, OnOk};
ghost use Rattle.jr_ast.specs.View.{expr_of};
ghost use Rattle.jr_bind_expr.specs.Fits.{FitsExp};
ghost use Rattle.jr_expr_sites.specs.Routes.{Walked, begins_by};
ghost use Rattle.jr_expr_sites.specs.Routes as route;
ghost use Rattle.jr_expr_sites.specs.StepView.{given};

use crate::aims::{Aim, aim_of};
use crate::checks::{checked_load, field_check};
use crate::here::Here;
use crate::puts::{field_load, field_store, load, put_nothing, store};
use crate::step::Step;
use jr_ast::Expr;
use jr_table::Facts;
use jr_text::Mark;
use std::alloc::AllocError;

/// Puts the test and the load of `op=` and bumps.
pub(crate) fn target_load<'a, F: Facts, A: Mark>(
    here: &Here<'a, F>,
    base: u32,
    of: &Expr<A>,
    out: &mut Vec<Step<'a>>,
) -> Result<(), AllocError>
    requires fits { FitsExp (begins_by A.span_from) A.fits_at base (expr_of of.now) }
    ensures { (path : List ℕ) → OnOk result (Walked (given F.decls F.types here.now)
        (route.target_load A.span_from path base (expr_of of.now)) out.old.items out.new.items) }
{
    let at = of.mark.span(base).from;
    match aim_of(of) {
        Aim::Name(word) => load(here, word.mark.span(at).from, out),
        Aim::Dotted(part, word) => checked_load(here, at, part, word.mark.span(at).from, out),
        Aim::OnSuper(word) => field_load(here, word.mark.span(at).from, out),
        Aim::Other => put_nothing(out),
    }
}

/// Puts the test of the operand of what is assigned.
pub(crate) fn target_check<'a, F: Facts, A: Mark>(
    here: &Here<'a, F>,
    base: u32,
    of: &Expr<A>,
    out: &mut Vec<Step<'a>>,
) -> Result<(), AllocError>
    requires fits { FitsExp (begins_by A.span_from) A.fits_at base (expr_of of.now) }
    ensures { (path : List ℕ) → OnOk result (Walked (given F.decls F.types here.now)
        (route.target_check A.span_from path base (expr_of of.now)) out.old.items out.new.items) }
{
    let at = of.mark.span(base).from;
    match aim_of(of) {
        Aim::Dotted(part, word) => field_check(here, at, part, word.mark.span(at).from, out),
        Aim::Name(_) => put_nothing(out),
        Aim::OnSuper(_) => put_nothing(out),
        Aim::Other => put_nothing(out),
    }
}

/// Puts the store.
pub(crate) fn target_store<'a, F: Facts, A: Mark>(
    here: &Here<'a, F>,
    base: u32,
    of: &Expr<A>,
    out: &mut Vec<Step<'a>>,
) -> Result<(), AllocError>
    requires fits { FitsExp (begins_by A.span_from) A.fits_at base (expr_of of.now) }
    ensures { (path : List ℕ) → OnOk result (Walked (given F.decls F.types here.now)
        (route.target_store A.span_from path base (expr_of of.now)) out.old.items out.new.items) }
{
    let at = of.mark.span(base).from;
    match aim_of(of) {
        Aim::Name(word) => store(here, word.mark.span(at).from, out),
        Aim::Dotted(_, word) => field_store(here, word.mark.span(at).from, out),
        Aim::OnSuper(word) => field_store(here, word.mark.span(at).from, out),
        Aim::Other => put_nothing(out),
    }
}
