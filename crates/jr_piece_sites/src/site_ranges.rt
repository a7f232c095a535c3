//! Which sites of a member's graph are those of a piece of it.
ghost use Rattle.std.specs.Prelude.{◌≡◌, ◌+◌, ◌++◌, ℕ, List, Some, IfOk, OnOk};
ghost use Rattle.jr_ast.specs.Nodes as nodes;
ghost use Rattle.jr_ast.specs.StatementTree as statement;
ghost use Rattle.jr_ast.specs.Tree as tree;
ghost use Rattle.jr_ast.specs.View.{member_of};
ghost use Rattle.jr_cfg.specs.MemberRoutes.{FitsSites, NumbersMember, known};
ghost use Rattle.jr_cfg.specs.MemberRoutes as route;
ghost use Rattle.jr_cover.specs.Sites.{exp_way, stmt_way};
ghost use Rattle.jr_cover.specs.Spots.{Spot};
ghost use Rattle.jr_cover.specs.Ways.{sites_of};
ghost use Rattle.jr_expr_sites.specs.KnownFacts.{Others, known_of};
ghost use Rattle.jr_expr_sites.specs.Routes.{begins_by};
ghost use Rattle.jr_expr_sites.specs.StepView.{given};
ghost use Rattle.jr_pieces.specs.Before.{StmtEvaluated};
ghost use Rattle.jr_pieces.specs.Finding.{stmt_path};
ghost use Rattle.jr_pieces.specs.Ways.{StmtWay};
ghost use Rattle.jr_piece_sites.specs.Fronts as pure;
ghost use Rattle.jr_piece_sites.specs.Growth.{GrowsSo};
ghost use Rattle.jr_piece_sites.specs.Leads.{Leads, spots_of};
ghost use Rattle.jr_piece_sites.specs.Pieces as piece;
ghost use Rattle.jr_piece_sites.specs.Pieces.{FitsPiece, NumbersPiece, spotted};
ghost use Rattle.jr_piece_sites.specs.PieceView.{piece_of};
ghost use Rattle.jr_piece_sites.specs.Extents.{HasRange, piece_size};
ghost use Rattle.jr_table.specs.Keys as keys;

use crate::before::count_sites;
use crate::pieces::Piece;
use crate::ranges::{Found, reach};
use jr_ast::{Member, Path};
use jr_cfg::stmt;
use jr_expr_sites::{Here, Step, expr};
use jr_table::{Facts, Table};
use jr_text::Mark;
use std::alloc::{AllocError, Global};

/// The sites of these numbers, from `from` on and below `to`.
#[derive(Clone, Copy)]
pub struct SiteRange {
    pub from: u32,
    pub to: u32,
}

/// Puts the steps of a statement or an expression to which the path leads.
fn put_found<'a, F: Facts, A: Mark>(
    alloc: Global,
    here: &Here<'a, F>,
    path: &Path,
    found: Found<'_, A>,
    out: &mut Vec<Step<'a>>,
) -> Result<(), AllocError>
    requires fits { FitsPiece A.span_from A.fits_at found.base (piece_of found.of) }
    ensures { OnOk result (GrowsSo (given F.decls F.types here.now)
        (NumbersPiece A.span_from found.entry.number found.entry.base path.now.steps.items
        (piece_of found.entry.of))
        (λ o. piece_size (known_of (given F.decls F.types here.now) o)
        (spotted A.span_from found.entry.base path.now.steps.items (piece_of found.entry.of)))
        out.old.items out.new.items) }
{
    match found.of {
        Piece::Member(_) => Ok(()),
        Piece::Stmt(of) => {
            stmt(alloc, here, path, found.base, found.number, of, out)?;
            Ok(())
        }
        Piece::Expr(of) => expr(alloc, here, path, found.base, of, out),
    }
}

/// How many sites a statement or an expression has to which the path leads.
fn count_found<F: Facts, A: Mark>(
    alloc: Global,
    here: &Here<'_, F>,
    path: &Path,
    found: Found<'_, A>,
) -> Result<u32, AllocError>
    requires fits { FitsPiece A.span_from A.fits_at found.base (piece_of found.of) }
    ensures { (o : Others)
        → NumbersPiece A.span_from found.entry.number found.entry.base path.now.steps.items
        (piece_of found.entry.of) o
        → IfOk result (λ n. n ≡ piece_size (known_of (given F.decls F.types here.now) o)
        (spotted A.span_from found.entry.base path.now.steps.items (piece_of found.entry.of))) }
{
    let mut steps = Vec::new(alloc);
    put_found(alloc, here, path, found, &mut steps)?;
    count_sites(alloc, here, &steps)
}

/// So many sites behind so many others. More sites than numbers don't fit any memory.
fn behind(from: u32, count: u32) -> Result<SiteRange, AllocError>
    ensures { IfOk result (λ r. (r.from ≡ from) × (r.to ≡ from + count)) }
{
    match from.checked_add(count) {
        None => Err(AllocError),
        Some(to) => Ok(SiteRange { from, to }),
    }
}

/// The numbers that the sites of the piece to which the path leads have among those of the member.
fn range_at<F: Facts, A: Mark>(
    alloc: Global,
    here: &Here<'_, F>,
    member: &Member<A>,
    base: u32,
    path: &Path,
) -> Result<SiteRange, AllocError>
    requires fits { FitsSites A.span_from A.fits_at base (member_of member.now) }
    requires start { here.now.start ≡ begins_by A.span_from member.now.mark base }
    requires at { Leads (member_of member.now) path.now.steps.items }
    ensures { (o : Others) → NumbersMember A.span_from base (member_of member.now) o
        → (x : piece.Piece Spot)
        → piece.piece_at (piece.member (spots_of A.span_from base (member_of member.now)))
        path.now.steps.items ≡ Some x
        → IfOk result (λ r. (r.from ≡ pure.before (known_of (given F.decls F.types here.now) o)
        (piece.member (spots_of A.span_from base (member_of member.now))) path.now.steps.items)
        × (r.to ≡ r.from + piece_size (known_of (given F.decls F.types here.now) o) x)) }
{
    let mut passed = Vec::new(alloc);
    let reached = reach(alloc, here, member, base, path, &mut passed)?;
    match reached {
        None => unreachable!(),
        Some(found) => {
            let from = count_sites(alloc, here, &passed)?;
            let count = count_found(alloc, here, path, found)?;
            behind(from, count)
        }
    }
}

/// The numbers that the sites of the statement or the expression to which the path leads have in
/// the member's graph, as `jr_cfg: graph` hands it out: they stand one behind the other (JLS 14,
/// 15.7). The only fault is want of memory.
///
/// The member's parent begins at `base`, and `never_null` tells by their numbers which of its
/// locals are never null, as for `jr_cfg: graph`. What isn't evaluated for its value, as the target
/// of an assignment or the name of a class, has no sites of its own in the graph.
pub fn site_range<A: Mark, F: Facts>(
    alloc: Global,
    table: &Table,
    member: &Member<A>,
    base: u32,
    path: &Path,
    facts: &F,
    never_null: &[bool],
) -> Result<SiteRange, AllocError>
    requires fits { FitsSites A.span_from A.fits_at base (member_of member.now) }
    requires at { Leads (member_of member.now) path.now.steps.items }
    ensures exact { (o : Others)
        → NumbersMember A.span_from base (member_of member.now) o → (x : piece.Piece Spot)
        → piece.piece_at (piece.member (spots_of A.span_from base (member_of member.now)))
        path.now.steps.items ≡ Some x
        → IfOk result (λ r. (r.from ≡ pure.before (known_of (known A.span_from table.now
        (F.key facts.now) (F.decls facts.now) (F.types facts.now) never_null.now base
        (member_of member.now)) o) (piece.member (spots_of A.span_from base
        (member_of member.now))) path.now.steps.items)
        × (r.to ≡ r.from + piece_size (known_of (known A.span_from table.now (F.key facts.now)
        (F.decls facts.now) (F.types facts.now) never_null.now base (member_of member.now)) o) x)) }
    ensures of_statement { (o : Others)
        → NumbersMember A.span_from base (member_of member.now) o → (z : statement.Stmt Spot)
        → nodes.stmt_at (nodes.member (spots_of A.span_from base (member_of member.now)))
        path.now.steps.items ≡ Some z → (k : keys.FieldKey) (super_at : ℕ)
        → IfOk result (λ r. HasRange (sites_of (route.member A.span_from super_at base k
        (member_of member.now) (known A.span_from table.now (F.key facts.now) (F.decls facts.now)
        (F.types facts.now) never_null.now base (member_of member.now)) o))
        (sites_of (stmt_way (known_of (known A.span_from table.now (F.key facts.now)
        (F.decls facts.now) (F.types facts.now) never_null.now base (member_of member.now)) o) z))
        r.from r.to) }
    ensures of_expression { (o : Others)
        → NumbersMember A.span_from base (member_of member.now) o → (outer inner : List ℕ)
        → path.now.steps.items ≡ outer ++ inner → (s : statement.Stmt Spot)
        → nodes.stmt_at (nodes.member (spots_of A.span_from base (member_of member.now))) outer
        ≡ Some s → (e : tree.Exp Spot) (way : StmtWay e s) → stmt_path way ≡ inner
        → StmtEvaluated (known_of (known A.span_from table.now (F.key facts.now)
        (F.decls facts.now) (F.types facts.now) never_null.now base (member_of member.now)) o) way
        → (k : keys.FieldKey) (super_at : ℕ)
        → IfOk result (λ r. HasRange (sites_of (route.member A.span_from super_at base k
        (member_of member.now) (known A.span_from table.now (F.key facts.now) (F.decls facts.now)
        (F.types facts.now) never_null.now base (member_of member.now)) o))
        (sites_of (exp_way (known_of (known A.span_from table.now (F.key facts.now)
        (F.decls facts.now) (F.types facts.now) never_null.now base (member_of member.now)) o) e))
        r.from r.to) }
{
    let here = Here {
        table,
        facts,
        member: facts.member(),
        start: member.mark.span(base).from,
        never_null,
    };
    range_at(alloc, &here, member, base, path)
}
