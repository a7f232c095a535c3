//! What may fail: uses of values that may be null, divisions, casts.
ghost use Rattle.std.specs.Prelude.{◌≡◌, ◌++◌, ◌∷◌, [], ℕ, List, OnOk};
ghost use Rattle.jr_ast.specs.View.{expr_of, target_of};
ghost use Rattle.jr_bind_expr.specs.Fits.{FitsExp, FitsTarget};
ghost use Rattle.jr_cover.specs.Sites as sites;
ghost use Rattle.jr_expr_sites.specs.KnownFacts.{Given, Others, is_never_null, known_of, meaning_at};
ghost use Rattle.jr_expr_sites.specs.Meanings as pure;
ghost use Rattle.jr_expr_sites.specs.Routes.{Walked, begins_by, spots};
ghost use Rattle.jr_expr_sites.specs.Routes as route;
ghost use Rattle.jr_expr_sites.specs.StepView.{given};

use crate::aims::{Aim, aim_of};
use crate::here::{Here, Meaning, is_checked_cast, is_kept_local, meaning_at};
use crate::puts::{field_load, put_nothing, put_row, put_site};
use crate::step::{Step, What};
use jr_ast::{BinOp, Expr, ExprKind, Path};
use jr_table::Facts;
use jr_text::Mark;
use std::alloc::{AllocError, Global};

/// Whether the name at a byte of the file means a class.
fn is_class<F: Facts>(here: &Here<'_, F>, at: u32) -> bool
    ensures { result ≡ pure.is_class (meaning_at (given F.decls F.types here.now) at) }
{
    match meaning_at(here, at) {
        Meaning::Class => true,
        Meaning::Local(_) => false,
        Meaning::Field(_) => false,
        Meaning::Nothing => false,
    }
}

/// Whether the name of a class stands in front of a dot.
pub(crate) fn is_class_name<F: Facts, A: Mark>(here: &Here<'_, F>, base: u32, of: &Expr<A>) -> bool
    requires fits { FitsExp (begins_by A.span_from) A.fits_at base (expr_of of.now) }
    ensures { (o : Others) (path : List ℕ)
        → result ≡ sites.is_class_name (known_of (given F.decls F.types here.now) o)
        (spots A.span_from path base (expr_of of.now)) }
{
    let at = of.mark.span(base).from;
    match aim_of(of) {
        Aim::Name(word) => is_class(here, word.mark.span(at).from),
        Aim::Dotted(_, word) => is_class(here, word.mark.span(at).from),
        Aim::OnSuper(_) => false,
        Aim::Other => false,
    }
}

/// Whether the value can't be null.
#[tactic(auto, unfolding(jr_ast::specs::View::expr_kind))]
pub fn is_never_null<F: Facts, A: Mark>(here: &Here<'_, F>, base: u32, of: &Expr<A>) -> bool
    requires fits { FitsExp (begins_by A.span_from) A.fits_at base (expr_of of.now) }
    ensures { (path : List ℕ) → result ≡ is_never_null (given F.decls F.types here.now)
        (spots A.span_from path base (expr_of of.now)) }
{
    let at = of.mark.span(base).from;
    match &of.kind {
        ExprKind::Paren(part) => is_never_null(here, at, part),
        ExprKind::Simple(name) => is_kept_local(here, name.mark.span(at).from),
        ExprKind::Text(_) => true,
        ExprKind::This => true,
        ExprKind::ClassLit(_) => true,
        ExprKind::New(_, _) => true,
        ExprKind::Int(_) => false,
        ExprKind::Bool(_) => false,
        ExprKind::Null => false,
        ExprKind::Field(_, _) => false,
        ExprKind::SuperField(_) => false,
        ExprKind::Call(_, _, _) => false,
        ExprKind::SuperCall(_, _) => false,
        ExprKind::Cast(_, _) => false,
        ExprKind::Unary(_, _) => false,
        ExprKind::Bump(_, _) => false,
        ExprKind::Binary(_, _, _) => false,
        ExprKind::Assign(_, _) => false,
        ExprKind::Compound(_, _, _) => false,
    }
}

/// Puts the test for null of what stands in front of a dot; `word` is the byte of the name behind.
pub(crate) fn null_check<'a, F: Facts, A: Mark>(
    here: &Here<'a, F>,
    base: u32,
    of: &Expr<A>,
    word: u32,
    out: &mut Vec<Step<'a>>,
) -> Result<(), AllocError>
    requires fits { FitsExp (begins_by A.span_from) A.fits_at base (expr_of of.now) }
    ensures { (path : List ℕ) → OnOk result (Walked (given F.decls F.types here.now)
        (route.null_check A.span_from path base (expr_of of.now) word)
        out.old.items out.new.items) }
{
    let is_class = is_class_name(here, base, of);
    let is_there = is_never_null(here, base, of);
    let is_safe = is_class | is_there;
    if is_safe {
        return put_nothing(out);
    }
    put_site(word, What::Checks, out)
}

/// Puts the same where the name means a field.
pub(crate) fn field_check<'a, F: Facts, A: Mark>(
    here: &Here<'a, F>,
    base: u32,
    of: &Expr<A>,
    word: u32,
    out: &mut Vec<Step<'a>>,
) -> Result<(), AllocError>
    requires fits { FitsExp (begins_by A.span_from) A.fits_at base (expr_of of.now) }
    ensures { (path : List ℕ) → OnOk result (Walked (given F.decls F.types here.now)
        (route.field_check A.span_from path base (expr_of of.now) word)
        out.old.items out.new.items) }
{
    match meaning_at(here, word) {
        Meaning::Field(_) => null_check(here, base, of, word, out),
        Meaning::Local(_) => put_nothing(out),
        Meaning::Class => put_nothing(out),
        Meaning::Nothing => put_nothing(out),
    }
}

/// Puts the test and the load of a field behind a dot.
pub(crate) fn checked_load<'a, F: Facts, A: Mark>(
    here: &Here<'a, F>,
    base: u32,
    of: &Expr<A>,
    word: u32,
    out: &mut Vec<Step<'a>>,
) -> Result<(), AllocError>
    requires fits { FitsExp (begins_by A.span_from) A.fits_at base (expr_of of.now) }
    ensures { (path : List ℕ) → OnOk result (Walked (given F.decls F.types here.now)
        (route.checked_load A.span_from path base (expr_of of.now) word)
        out.old.items out.new.items) }
{
    field_check(here, base, of, word, out)?;
    field_load(here, word, out)?;
    put_row(out)
}

/// Puts the test of what a call is made on; `at` is where the whole begins.
fn receiver_check<'a, F: Facts, A: Mark>(
    here: &Here<'a, F>,
    at: u32,
    target: &Option<Box<Expr<A>>>,
    word: u32,
    out: &mut Vec<Step<'a>>,
) -> Result<(), AllocError>
    requires fits { FitsTarget (begins_by A.span_from) A.fits_at at (target_of target.now) }
    ensures { (path : List ℕ) → OnOk result (Walked (given F.decls F.types here.now)
        (route.receiver_check A.span_from path at (target_of target.now) word)
        out.old.items out.new.items) }
{
    match target {
        None => put_nothing(out),
        Some(part) => null_check(here, at, part, word, out),
    }
}

/// Puts the test of what a call is made on, and the call; `at` is where the whole begins.
pub(crate) fn called<'a, F: Facts, A: Mark>(
    here: &Here<'a, F>,
    at: u32,
    target: &Option<Box<Expr<A>>>,
    word: u32,
    out: &mut Vec<Step<'a>>,
) -> Result<(), AllocError>
    requires fits { FitsTarget (begins_by A.span_from) A.fits_at at (target_of target.now) }
    ensures { (path : List ℕ) → OnOk result (Walked (given F.decls F.types here.now)
        (route.called A.span_from path at (target_of target.now) word)
        out.old.items out.new.items) }
{
    receiver_check(here, at, target, word, out)?;
    put_site(word, What::Calls, out)?;
    put_row(out)
}

fn divides(op: BinOp) -> bool
    ensures { result ≡ sites.divides op }
{
    match op {
        BinOp::Div => true,
        BinOp::Rem => true,
        BinOp::Or => false,
        BinOp::And => false,
        BinOp::Eq => false,
        BinOp::Ne => false,
        BinOp::Lt => false,
        BinOp::Gt => false,
        BinOp::Le => false,
        BinOp::Ge => false,
        BinOp::Add => false,
        BinOp::Sub => false,
        BinOp::Mul => false,
    }
}

/// Whether an expression is a literal other than 0.
#[tactic(auto, unfolding(jr_ast::specs::View::expr_kind))]
fn is_nonzero<A>(of: &Expr<A>) -> bool
    ensures { result ≡ sites.is_nonzero (expr_of of.now) }
{
    match &of.kind {
        ExprKind::Int(number) => *number != 0,
        ExprKind::Bool(_) => false,
        ExprKind::Null => false,
        ExprKind::Text(_) => false,
        ExprKind::This => false,
        ExprKind::ClassLit(_) => false,
        ExprKind::Simple(_) => false,
        ExprKind::Field(_, _) => false,
        ExprKind::SuperField(_) => false,
        ExprKind::Call(_, _, _) => false,
        ExprKind::SuperCall(_, _) => false,
        ExprKind::New(_, _) => false,
        ExprKind::Paren(_) => false,
        ExprKind::Cast(_, _) => false,
        ExprKind::Unary(_, _) => false,
        ExprKind::Bump(_, _) => false,
        ExprKind::Binary(_, _, _) => false,
        ExprKind::Assign(_, _) => false,
        ExprKind::Compound(_, _, _) => false,
    }
}

/// Puts the test of a divisor, if the operator divides (JLS 15.17.2).
pub(crate) fn divisor_check<'a, A: Mark>(
    op: BinOp,
    base: u32,
    of: &Expr<A>,
    out: &mut Vec<Step<'a>>,
) -> Result<(), AllocError>
    requires fits { FitsExp (begins_by A.span_from) A.fits_at base (expr_of of.now) }
    ensures { (g : Given) (path : List ℕ) → OnOk result (Walked g
        (route.divisor_check A.span_from op path base (expr_of of.now))
        out.old.items out.new.items) }
{
    let needs = divides(op);
    let is_safe = is_nonzero(of);
    let is_fine = !needs | is_safe;
    if is_fine {
        return put_nothing(out);
    }
    put_site(of.mark.span(base).from, What::Checks, out)
}

/// Puts the test of a cast that begins at a byte, if it may fail (JLS 5.5.1).
pub(crate) fn cast_check<'a, F: Facts>(
    alloc: Global,
    here: &Here<'a, F>,
    path: &Path,
    at: u32,
    out: &mut Vec<Step<'a>>,
) -> Result<(), AllocError>
    ensures { OnOk result (Walked (given F.decls F.types here.now)
        (route.cast_check path.now.steps.items at) out.old.items out.new.items) }
{
    let is_checked = is_checked_cast(alloc, here, path)?;
    if is_checked {
        return put_site(at, What::Checks, out);
    }
    put_nothing(out)
}
