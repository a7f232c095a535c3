//! How many sites of a piece of a member come before those of a piece in it.
ghost use Rattle.std.specs.Prelude.{◌≡◌, ◌++◌, [], ℕ, Some, IfOk, length};
ghost use Rattle.jr_ast.specs.Nodes as nodes;
ghost use Rattle.jr_ast.specs.StatementTree as statement;
ghost use Rattle.jr_ast.specs.Tree as tree;
ghost use Rattle.jr_ast.specs.View.{member_of};
ghost use Rattle.jr_cfg.specs.MemberRoutes.{FitsSites, NumbersMember, known};
ghost use Rattle.jr_cfg.specs.MemberRoutes as route;
ghost use Rattle.jr_cover.specs.Sites.{stmt_way};
ghost use Rattle.jr_cover.specs.Spots.{Spot};
ghost use Rattle.jr_effect.specs.Within.{Within};
ghost use Rattle.jr_expr_sites.specs.KnownFacts.{Others, known_of};
ghost use Rattle.jr_expr_sites.specs.Routes.{begins_by};
ghost use Rattle.jr_expr_sites.specs.StepView.{given};
ghost use Rattle.jr_pieces.specs.Before.{stmt_before};
ghost use Rattle.jr_pieces.specs.Finding.{stmt_path};
ghost use Rattle.jr_pieces.specs.Ways.{StmtWay};
ghost use Rattle.jr_piece_sites.specs.Fronts as pure;
ghost use Rattle.jr_piece_sites.specs.Growth.{count};
ghost use Rattle.jr_piece_sites.specs.Leads.{Leads, spots_of};
ghost use Rattle.jr_piece_sites.specs.Pieces as piece;
ghost use Rattle.jr_piece_sites.specs.Pieces.{Piece};
ghost use Rattle.jr_table.specs.Keys as keys;

use crate::ranges::{descend, reach};
use jr_ast::{Member, Path};
use jr_cfg::placed_sites;
use jr_expr_sites::{Here, Step};
use jr_table::{Facts, Table};
use jr_text::Mark;
use std::alloc::{AllocError, Global};

/// How many sites are among steps. More sites than numbers don't fit any memory.
pub(crate) fn count_sites<F: Facts>(
    alloc: Global,
    here: &Here<'_, F>,
    steps: &[Step<'_>],
) -> Result<u32, AllocError>
    ensures { IfOk result (λ n. n ≡ count (given F.decls F.types here.now) steps.now) }
{
    let sites = placed_sites(alloc, here, steps)?;
    match u32::try_from(sites.len()) {
        Err(_) => Err(AllocError),
        Ok(count) => Ok(count),
    }
}

/// How many sites of the piece to which the path `outer` leads come before those of the piece to
/// which `path` leads from there.
fn count_before<F: Facts, A: Mark>(
    alloc: Global,
    here: &Here<'_, F>,
    member: &Member<A>,
    base: u32,
    outer: &Path,
    path: &Path,
) -> Result<u32, AllocError>
    requires fits { FitsSites A.span_from A.fits_at base (member_of member.now) }
    requires start { here.now.start ≡ begins_by A.span_from member.now.mark base }
    requires at { Leads (member_of member.now) (outer.now.steps.items ++ path.now.steps.items) }
    ensures { (o : Others) → NumbersMember A.span_from base (member_of member.now) o
        → (x : Piece Spot)
        → piece.piece_at (piece.member (spots_of A.span_from base (member_of member.now)))
        outer.now.steps.items ≡ Some x
        → IfOk result (λ n. n ≡ pure.before (known_of (given F.decls F.types here.now) o) x
        path.now.steps.items) }
{
    let mut passed = Vec::new(alloc);
    let reached = reach(alloc, here, member, base, outer, &mut passed)?;
    match reached {
        None => unreachable!(),
        Some(found) => {
            let mut steps = Vec::new(alloc);
            descend(alloc, here, outer, found, &path.steps, &mut steps)?;
            count_sites(alloc, here, &steps)
        }
    }
}

/// How many sites of a statement, or of the whole member, come before those of a statement or an
/// expression in it, in evaluation order (JLS 14, 15.7). `outer` leads from the member to the
/// former, and `path` from there to the latter. The only fault is want of memory.
///
/// So the site of this number is the first one that the latter has in the graph of a member whose
/// path is empty, if it has sites; how many it has, its footprint tells. The member's parent begins
/// at `base`, and `never_null` tells by their numbers which of its locals are never null, as for
/// `jr_cfg: graph`.
pub fn sites_before<A: Mark, F: Facts>(
    alloc: Global,
    table: &Table,
    member: &Member<A>,
    base: u32,
    outer: &Path,
    path: &Path,
    facts: &F,
    never_null: &[bool],
) -> Result<u32, AllocError>
    requires fits { FitsSites A.span_from A.fits_at base (member_of member.now) }
    requires at { Leads (member_of member.now) (outer.now.steps.items ++ path.now.steps.items) }
    ensures exact { (o : Others)
        → NumbersMember A.span_from base (member_of member.now) o → (x : Piece Spot)
        → piece.piece_at (piece.member (spots_of A.span_from base (member_of member.now)))
        outer.now.steps.items ≡ Some x
        → IfOk result (λ n. n ≡ pure.before (known_of (known A.span_from table.now
        (F.key facts.now) (F.decls facts.now) (F.types facts.now) never_null.now base
        (member_of member.now)) o) x path.now.steps.items) }
    ensures of_expression { (o : Others)
        → NumbersMember A.span_from base (member_of member.now) o → (s : statement.Stmt Spot)
        → nodes.stmt_at (nodes.member (spots_of A.span_from base (member_of member.now)))
        outer.now.steps.items ≡ Some s → (e : tree.Exp Spot) (way : StmtWay e s)
        → stmt_path way ≡ path.now.steps.items
        → IfOk result (λ n. n ≡ length (stmt_before (known_of (known A.span_from table.now
        (F.key facts.now) (F.decls facts.now) (F.types facts.now) never_null.now base
        (member_of member.now)) o) way)) }
    ensures of_statement { (o : Others)
        → NumbersMember A.span_from base (member_of member.now) o → (s : statement.Stmt Spot)
        → nodes.stmt_at (nodes.member (spots_of A.span_from base (member_of member.now)))
        outer.now.steps.items ≡ Some s → (z : statement.Stmt Spot)
        → nodes.stmt_at (nodes.stmt s) path.now.steps.items ≡ Some z
        → IfOk result (λ n. Within (stmt_way (known_of (known A.span_from table.now
        (F.key facts.now) (F.decls facts.now) (F.types facts.now) never_null.now base
        (member_of member.now)) o) z) (stmt_way (known_of (known A.span_from table.now
        (F.key facts.now) (F.decls facts.now) (F.types facts.now) never_null.now base
        (member_of member.now)) o) s) n) }
    ensures in_member { (o : Others)
        → NumbersMember A.span_from base (member_of member.now) o
        → outer.now.steps.items ≡ [] → (z : statement.Stmt Spot)
        → nodes.stmt_at (nodes.member (spots_of A.span_from base (member_of member.now)))
        path.now.steps.items ≡ Some z → (k : keys.FieldKey) (super_at : ℕ)
        → IfOk result (λ n. Within (stmt_way (known_of (known A.span_from table.now
        (F.key facts.now) (F.decls facts.now) (F.types facts.now) never_null.now base
        (member_of member.now)) o) z) (route.member A.span_from super_at base k
        (member_of member.now) (known A.span_from table.now
        (F.key facts.now) (F.decls facts.now) (F.types facts.now) never_null.now base
        (member_of member.now)) o) n) }
{
    let here = Here {
        table,
        facts,
        member: facts.member(),
        start: member.mark.span(base).from,
        never_null,
    };
    count_before(alloc, &here, member, base, outer, path)
}
