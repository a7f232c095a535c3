//! What stands in front of a part of a member, in evaluation order (JLS 8).
ghost use Rattle.std.specs.Prelude.{◌≡◌, ◌+◌, ◌<◌, IfOk, length, map, option_map, suc};
ghost use Rattle.jr_ast.specs.View.{args_of, exprs_of, member_of, modifier_of, param_of};
ghost use Rattle.jr_ast.specs.View.{stmts_of, type_of};
ghost use Rattle.jr_bind_expr.specs.Fits.{FitsExps, FitsStmts};
ghost use Rattle.jr_cfg.specs.MemberRoutes.{FitsArgs, FitsSites};
ghost use Rattle.jr_cfg.specs.StatementRoutes.{NumberedAll};
ghost use Rattle.jr_cover.specs.Spots.{spot_args, spot_exps, spot_member, spot_stmts};
ghost use Rattle.jr_expr_sites.specs.KnownFacts.{known_of};
ghost use Rattle.jr_expr_sites.specs.Routes.{begins_by, ends_by};
ghost use Rattle.jr_expr_sites.specs.StepView.{given};
ghost use Rattle.jr_piece_sites.specs.Fronts as pure;
ghost use Rattle.jr_piece_sites.specs.Growth.{GrownTo};
ghost use Rattle.jr_piece_sites.specs.Parts.{behind};
ghost use Rattle.jr_piece_sites.specs.Pieces as piece;
ghost use Rattle.jr_runs.specs.MemberTranslation as runs;

use crate::fronts::{put_args, put_if};
use crate::pieces::{left_of, results};
use crate::stmt_fronts::put_stmts;
use jr_ast::{Expr, Member, MemberKind, Modifier, Param, Path, Stmt, TypeRef};
use jr_cfg::is_synchronized;
use jr_expr_sites::{Here, Step, What, put_site};
use jr_table::Facts;
use jr_text::Mark;
use std::alloc::{AllocError, Global};

/// As the number of a local. More parameters than numbers don't fit any memory.
fn locals_of<A>(params: &[Param<A>]) -> Result<u32, AllocError>
    ensures { IfOk result (λ n. n ≡ length (map param_of params.now)) }
{
    match u32::try_from(params.len()) {
        Err(_) => Err(AllocError),
        Ok(count) => Ok(count),
    }
}

/// Puts that a synchronized method's monitor is entered (JLS 8.4.3.6), and then what stands in
/// front of the statement of the number `count` of its body, whose first one is the part of the
/// number `first`.
fn put_method_body<'a, F: Facts, A: Mark>(
    alloc: Global,
    here: &Here<'a, F>,
    path: &Path,
    first: u32,
    is_locked: bool,
    number: u32,
    body: &[Stmt<A>],
    count: u32,
    out: &mut Vec<Step<'a>>,
) -> Result<u32, AllocError>
    requires fits { FitsStmts (begins_by A.span_from) A.fits_at here.now.start
        (stmts_of body.now) }
    ensures { IfOk result (λ n. GrownTo (given F.decls F.types here.now)
        (NumberedAll A.span_from number path.now.steps.items first here.now.start
        (stmts_of body.now))
        (λ o. pure.method_body (known_of (given F.decls F.types here.now) o) is_locked
        (spot_stmts (begins_by A.span_from) (ends_by A.span_from) (stmts_of body.now)
        here.now.start path.now.steps.items first) count)
        (number + piece.locals_up_to (stmts_of body.now) count) n
        out.old.items out.new.items) }
{
    put_if(is_locked, here.start, What::Enters, out)?;
    put_stmts(
        alloc, here, path, first, here.start, number, body, count, out,
    )
}

/// Puts what stands in front of the part of this number of a method.
fn method_front<'a, F: Facts, A: Mark>(
    alloc: Global,
    here: &Here<'a, F>,
    path: &Path,
    modifiers: &[Modifier<A>],
    result_type: &Option<TypeRef<A>>,
    params: &[Param<A>],
    body: &[Stmt<A>],
    part: u32,
    out: &mut Vec<Step<'a>>,
) -> Result<u32, AllocError>
    requires fits { FitsStmts (begins_by A.span_from) A.fits_at here.now.start
        (stmts_of body.now) }
    ensures { IfOk result (λ n. GrownTo (given F.decls F.types here.now)
        (NumberedAll A.span_from (length (map param_of params.now)) path.now.steps.items
        (piece.method_front (map modifier_of modifiers.now) (option_map type_of result_type.now)
        (map param_of params.now)) here.now.start (stmts_of body.now))
        (λ o. behind 0 (piece.method_front (map modifier_of modifiers.now)
        (option_map type_of result_type.now) (map param_of params.now))
        (pure.method_body (known_of (given F.decls F.types here.now) o)
        (runs.is_synchronized (map modifier_of modifiers.now))
        (spot_stmts (begins_by A.span_from) (ends_by A.span_from) (stmts_of body.now)
        here.now.start path.now.steps.items (piece.method_front (map modifier_of modifiers.now)
        (option_map type_of result_type.now) (map param_of params.now)))) part)
        (length (map param_of params.now) + behind 0 (piece.method_front
        (map modifier_of modifiers.now) (option_map type_of result_type.now)
        (map param_of params.now)) (piece.locals_up_to (stmts_of body.now)) part) n
        out.old.items out.new.items) }
{
    let number = locals_of(params)?;
    match left_of(part, modifiers.len(), results(result_type), params.len()) {
        None => Ok(number),
        Some(count) => {
            let is_locked = is_synchronized(modifiers);
            let first = part.saturating_sub(count);
            put_method_body(
                alloc, here, path, first, is_locked, number, body, count, out,
            )
        }
    }
}

/// Puts what stands in front of the part of the number `count` of the arguments of a `super(..)`
/// and the statements behind them, of which the first is the part of the number `first`: arguments,
/// and in front of statements the call (JLS 8.8.7).
fn put_args_then<'a, F: Facts, A: Mark>(
    alloc: Global,
    here: &Here<'a, F>,
    path: &Path,
    first: u32,
    number: u32,
    args: &[Expr<A>],
    body: &[Stmt<A>],
    count: u32,
    out: &mut Vec<Step<'a>>,
) -> Result<u32, AllocError>
    requires fits { FitsStmts (begins_by A.span_from) A.fits_at here.now.start
        (stmts_of body.now) }
    requires fits_args { FitsExps (begins_by A.span_from) A.fits_at here.now.start
        (exprs_of args.now) }
    requires small { first + count < 4294967296 }
    ensures { IfOk result (λ n. GrownTo (given F.decls F.types here.now)
        (NumberedAll A.span_from number path.now.steps.items (first + length args.now)
        here.now.start (stmts_of body.now))
        (λ o. pure.exps_then_front (known_of (given F.decls F.types here.now) o)
        (spot_exps (begins_by A.span_from) (ends_by A.span_from) (exprs_of args.now)
        here.now.start path.now.steps.items first)
        (spot_stmts (begins_by A.span_from) (ends_by A.span_from) (stmts_of body.now)
        here.now.start path.now.steps.items (first + length args.now)) count)
        (number + piece.exps_then_locals (exprs_of args.now) (stmts_of body.now) count) n
        out.old.items out.new.items) }
{
    put_args(alloc, here, path, first, here.start, args, count, out)?;
    match (count as usize).checked_sub(args.len()) {
        None => Ok(number),
        Some(left) => {
            let left = left as u32;
            let behind = first + count.saturating_sub(left);
            put_called_body(alloc, here, path, behind, number, body, left, out)
        }
    }
}

/// Puts the call of the superclass's constructor, and the first statements of a body, at most so
/// many.
fn put_called_body<'a, F: Facts, A: Mark>(
    alloc: Global,
    here: &Here<'a, F>,
    path: &Path,
    first: u32,
    number: u32,
    body: &[Stmt<A>],
    count: u32,
    out: &mut Vec<Step<'a>>,
) -> Result<u32, AllocError>
    requires fits { FitsStmts (begins_by A.span_from) A.fits_at here.now.start
        (stmts_of body.now) }
    ensures { IfOk result (λ n. GrownTo (given F.decls F.types here.now)
        (NumberedAll A.span_from number path.now.steps.items first here.now.start
        (stmts_of body.now))
        (λ o. suc (pure.stmts_front (known_of (given F.decls F.types here.now) o)
        (spot_stmts (begins_by A.span_from) (ends_by A.span_from) (stmts_of body.now)
        here.now.start path.now.steps.items first) count))
        (number + piece.locals_up_to (stmts_of body.now) count) n
        out.old.items out.new.items) }
{
    put_site(here.start, What::Calls, out)?;
    put_stmts(
        alloc, here, path, first, here.start, number, body, count, out,
    )
}

/// The same of a constructor, whose `super(..)` may be left out.
fn put_constructor_body<'a, F: Facts, A: Mark>(
    alloc: Global,
    here: &Here<'a, F>,
    path: &Path,
    first: u32,
    number: u32,
    args: &Option<Vec<Expr<A>>>,
    body: &[Stmt<A>],
    count: u32,
    out: &mut Vec<Step<'a>>,
) -> Result<u32, AllocError>
    requires fits { FitsStmts (begins_by A.span_from) A.fits_at here.now.start
        (stmts_of body.now) }
    requires fits_args { FitsArgs A.span_from A.fits_at here.now.start (args_of args.now) }
    requires small { first + count < 4294967296 }
    ensures { IfOk result (λ n. GrownTo (given F.decls F.types here.now)
        (NumberedAll A.span_from number path.now.steps.items
        (first + piece.arguments (args_of args.now)) here.now.start (stmts_of body.now))
        (λ o. pure.constructor_body (known_of (given F.decls F.types here.now) o)
        (spot_args (begins_by A.span_from) (ends_by A.span_from) (args_of args.now)
        here.now.start path.now.steps.items first)
        (spot_stmts (begins_by A.span_from) (ends_by A.span_from) (stmts_of body.now)
        here.now.start path.now.steps.items (first + piece.arguments (args_of args.now))) count)
        (number + piece.constructor_locals (args_of args.now) (stmts_of body.now) count) n
        out.old.items out.new.items) }
{
    match args {
        None => put_called_body(alloc, here, path, first, number, body, count, out),
        Some(args) => put_args_then(alloc, here, path, first, number, args, body, count, out),
    }
}

/// Puts what stands in front of the part of this number of a constructor.
fn constructor_front<'a, F: Facts, A: Mark>(
    alloc: Global,
    here: &Here<'a, F>,
    path: &Path,
    modifiers: &[Modifier<A>],
    params: &[Param<A>],
    args: &Option<Vec<Expr<A>>>,
    body: &[Stmt<A>],
    part: u32,
    out: &mut Vec<Step<'a>>,
) -> Result<u32, AllocError>
    requires fits { FitsStmts (begins_by A.span_from) A.fits_at here.now.start
        (stmts_of body.now) }
    requires fits_args { FitsArgs A.span_from A.fits_at here.now.start (args_of args.now) }
    ensures { IfOk result (λ n. GrownTo (given F.decls F.types here.now)
        (NumberedAll A.span_from (length (map param_of params.now)) path.now.steps.items
        (piece.constructor_front (map modifier_of modifiers.now) (map param_of params.now)
        + piece.arguments (args_of args.now)) here.now.start (stmts_of body.now))
        (λ o. behind 0 (piece.constructor_front (map modifier_of modifiers.now)
        (map param_of params.now))
        (pure.constructor_body (known_of (given F.decls F.types here.now) o)
        (spot_args (begins_by A.span_from) (ends_by A.span_from) (args_of args.now)
        here.now.start path.now.steps.items (piece.constructor_front
        (map modifier_of modifiers.now) (map param_of params.now)))
        (spot_stmts (begins_by A.span_from) (ends_by A.span_from) (stmts_of body.now)
        here.now.start path.now.steps.items (piece.constructor_front
        (map modifier_of modifiers.now) (map param_of params.now)
        + piece.arguments (args_of args.now)))) part)
        (length (map param_of params.now) + behind 0 (piece.constructor_front
        (map modifier_of modifiers.now) (map param_of params.now))
        (piece.constructor_locals (args_of args.now) (stmts_of body.now)) part) n
        out.old.items out.new.items) }
{
    let number = locals_of(params)?;
    match left_of(part, modifiers.len(), 0, params.len()) {
        None => Ok(number),
        Some(count) => {
            let first = part.saturating_sub(count);
            put_constructor_body(alloc, here, path, first, number, args, body, count, out)
        }
    }
}

/// Puts what stands in front of the part of this number of a member to which the path leads, and
/// whose parent begins at `base`. Answers the number of the first local that is declared in the
/// part.
pub(crate) fn member_front<'a, F: Facts, A: Mark>(
    alloc: Global,
    here: &Here<'a, F>,
    path: &Path,
    base: u32,
    of: &Member<A>,
    part: u32,
    out: &mut Vec<Step<'a>>,
) -> Result<u32, AllocError>
    requires fits { FitsSites A.span_from A.fits_at base (member_of of.now) }
    requires start { here.now.start ≡ begins_by A.span_from of.now.mark base }
    ensures { IfOk result (λ n. GrownTo (given F.decls F.types here.now)
        (piece.NumbersPiece A.span_from 0 base path.now.steps.items (piece.member (member_of of.now)))
        (λ o. pure.member_front (known_of (given F.decls F.types here.now) o)
        (spot_member (begins_by A.span_from) (ends_by A.span_from) (member_of of.now) base
        path.now.steps.items) part)
        (piece.member_locals (member_of of.now) part) n out.old.items out.new.items) }
{
    match &of.kind {
        MemberKind::Field {
            modifiers: _,
            ty: _,
            name: _,
            init: _,
        } => Ok(0),
        MemberKind::Method {
            modifiers,
            ret,
            name: _,
            params,
            body,
        } => method_front(alloc, here, path, modifiers, ret, params, body, part, out),
        MemberKind::Ctor {
            modifiers,
            name: _,
            params,
            parent_args,
            body,
        } => {
            constructor_front(
                alloc,
                here,
                path,
                modifiers,
                params,
                parent_args,
                body,
                part,
                out,
            )
        }
        MemberKind::Inner(_) => Ok(0),
    }
}
