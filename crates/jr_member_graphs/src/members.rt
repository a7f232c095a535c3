//! The flags of a member's locals.
ghost use Rattle.std.specs.Prelude.{◌≡◌, ◌+◌, ◌++◌, [], ℕ, IfOk, List};
ghost use Rattle.jr_ast.specs.View.{args_of, member_of, stmts_of};
ghost use Rattle.jr_bind_expr.specs.Fits.{FitsStmts};
ghost use Rattle.jr_cfg.specs.MemberRoutes.{FitsArgs, FitsSites};
ghost use Rattle.jr_cover.specs.Spots.{spot_stmts};
ghost use Rattle.jr_never_null.specs.Flags.{flags_behind};
ghost use Rattle.jr_expr_sites.specs.KnownFacts.{known_of, meaning_at};
ghost use Rattle.jr_expr_sites.specs.Routes.{begins_by, ends_by};
ghost use Rattle.jr_expr_sites.specs.StepView.{given};
ghost use Rattle.jr_member_graphs.specs.FlagRows.{behind_nones, is_among};
ghost use Rattle.jr_member_graphs.specs.MemberLocals.{stmts_inits};
ghost use Rattle.jr_member_graphs.specs.Notes as pure;
ghost use Rattle.jr_member_graphs.specs.NotesView.{noted};
ghost use Rattle.jr_member_graphs.specs.OwnFlags.{flags_of, no_others, own_flags};

use crate::flags::{local_flags, written_locals};
use crate::gather::{gather_args, stmts};
use jr_ast::{Expr, Member, MemberKind, Stmt};
use jr_expr_sites::{Here, Step};
use jr_table::{Facts, Table};
use jr_text::Mark;
use std::alloc::{AllocError, Global};

/// How many parameters and locals there are. More than numbers don't fit any memory.
fn all_locals(params: usize, locals: usize) -> Result<usize, AllocError>
    ensures { IfOk result (λ n. n ≡ params + locals) }
{
    match params.checked_add(locals) {
        None => Err(AllocError),
        Some(count) => Ok(count),
    }
}

/// Of the locals of a body, behind so many parameters; `steps` are those of what stands in front.
fn body_flags<'a, F: Facts, A: Mark>(
    alloc: Global,
    here: &Here<'a, F>,
    params: usize,
    body: &[Stmt<A>],
    steps: &mut Vec<Step<'a>>,
) -> Result<Vec<bool>, AllocError>
    requires fits { FitsStmts (begins_by A.span_from) A.fits_at here.now.start (stmts_of body.now) }
    ensures { (path : List ℕ) (first : ℕ) → IfOk result (λ flags. flags.items ≡ flags_behind
        (known_of (given F.decls F.types here.now) no_others).facts
        (is_among (noted (given F.decls F.types here.now).member steps.old.items
        ++ (pure.stmts_notes A.span_from (meaning_at (given F.decls F.types here.now))
        here.now.start (stmts_of body.now)).writes)) []
        (behind_nones params (stmts_inits (spot_stmts (begins_by A.span_from)
        (ends_by A.span_from) (stmts_of body.now) here.now.start path first)))) }
{
    let mut begins = Vec::new(alloc);
    stmts(alloc, here, here.start, body, steps, &mut begins)?;
    let count = all_locals(params, begins.len())?;
    let marks = written_locals(alloc, count, steps)?;
    local_flags(alloc, here, params, &begins, &marks)
}

/// Of a method.
fn method_flags<F: Facts, A: Mark>(
    alloc: Global,
    here: &Here<'_, F>,
    params: usize,
    body: &[Stmt<A>],
) -> Result<Vec<bool>, AllocError>
    requires fits { FitsStmts (begins_by A.span_from) A.fits_at here.now.start (stmts_of body.now) }
    ensures { (path : List ℕ) (first : ℕ) → IfOk result (λ flags. flags.items ≡ flags_behind
        (known_of (given F.decls F.types here.now) no_others).facts
        (is_among (pure.stmts_notes A.span_from (meaning_at (given F.decls F.types here.now))
        here.now.start (stmts_of body.now)).writes) []
        (behind_nones params (stmts_inits (spot_stmts (begins_by A.span_from)
        (ends_by A.span_from) (stmts_of body.now) here.now.start path first)))) }
{
    let mut steps = Vec::new(alloc);
    body_flags(alloc, here, params, body, &mut steps)
}

/// Of a constructor.
fn constructor_flags<F: Facts, A: Mark>(
    alloc: Global,
    here: &Here<'_, F>,
    params: usize,
    args: &Option<Vec<Expr<A>>>,
    body: &[Stmt<A>],
) -> Result<Vec<bool>, AllocError>
    requires fits { FitsStmts (begins_by A.span_from) A.fits_at here.now.start (stmts_of body.now) }
    requires fits_args { FitsArgs A.span_from A.fits_at here.now.start (args_of args.now) }
    ensures { (path : List ℕ) (first : ℕ) → IfOk result (λ flags. flags.items ≡ flags_behind
        (known_of (given F.decls F.types here.now) no_others).facts
        (is_among (pure.args_locals A.span_from (meaning_at (given F.decls F.types here.now))
        here.now.start (args_of args.now) ++ (pure.stmts_notes A.span_from
        (meaning_at (given F.decls F.types here.now)) here.now.start (stmts_of body.now)).writes)) []
        (behind_nones params (stmts_inits (spot_stmts (begins_by A.span_from)
        (ends_by A.span_from) (stmts_of body.now) here.now.start path first)))) }
{
    let mut steps = Vec::new(alloc);
    gather_args(alloc, here, here.start, args, &mut steps)?;
    body_flags(alloc, here, params, body, &mut steps)
}

/// Of a member whose parent begins at `base`.
#[tactic(auto, unfolding(jr_ast::specs::View::member_kind))]
fn member_flags<F: Facts, A: Mark>(
    alloc: Global,
    here: &Here<'_, F>,
    base: u32,
    member: &Member<A>,
) -> Result<Vec<bool>, AllocError>
    requires fits { FitsSites A.span_from A.fits_at base (member_of member.now) }
    requires start { here.now.start ≡ begins_by A.span_from member.now.mark base }
    ensures { IfOk result (λ flags. flags.items ≡ flags_of A.span_from
        (given F.decls F.types here.now) base (member_of member.now)) }
{
    match &member.kind {
        MemberKind::Field {
            modifiers: _,
            ty: _,
            name: _,
            init: _,
        } => Ok(Vec::new(alloc)),
        MemberKind::Method {
            modifiers: _,
            ret: _,
            name: _,
            params,
            body,
        } => method_flags(alloc, here, params.len(), body),
        MemberKind::Ctor {
            modifiers: _,
            name: _,
            params,
            parent_args,
            body,
        } => constructor_flags(alloc, here, params.len(), parent_args, body),
        MemberKind::Inner(_) => Ok(Vec::new(alloc)),
    }
}

/// Which of a member's locals are never null, a flag for each parameter and local in the order of
/// their numbers. The member's parent begins at the byte `base` of the file. The only fault is want
/// of memory.
pub fn own_flags<A: Mark, F: Facts>(
    alloc: Global,
    table: &Table,
    member: &Member<A>,
    base: u32,
    facts: &F,
) -> Result<Vec<bool>, AllocError>
    requires fits { FitsSites A.span_from A.fits_at base (member_of member.now) }
    ensures exact { IfOk result (λ flags. flags.items ≡ own_flags A.span_from table.now
        (F.key facts.now) (F.decls facts.now) (F.types facts.now) base (member_of member.now)) }
{
    let none = Vec::new(alloc);
    let here = Here {
        table,
        facts,
        member: facts.member(),
        start: member.mark.span(base).from,
        never_null: &none,
    };
    member_flags(alloc, &here, base, member)
}
