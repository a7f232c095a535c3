//! The sites of a piece of a member, by its path.
ghost use Rattle.std.specs.Prelude.{◌≡◌, ◌≤◌, ◌-◌, ◌++◌, ◌∷◌, [], Some, IfOk, IfSome, OnOk};
ghost use Rattle.std.specs.Prelude.{map, option_map};
ghost use Rattle.jr_ast.specs.Nodes as nodes;
ghost use Rattle.jr_ast.specs.Nodes.{Node};
ghost use Rattle.jr_ast.specs.StatementTree as statement;
ghost use Rattle.jr_ast.specs.Tree as tree;
ghost use Rattle.jr_ast.specs.View.{expr_of, member_of};
ghost use Rattle.jr_bind_expr.specs.Fits.{FitsExp};
ghost use Rattle.jr_cfg.specs.MemberRoutes.{FitsSites, NumbersMember, known};
ghost use Rattle.jr_cfg.specs.Placed.{placed};
ghost use Rattle.jr_cover.specs.Spots.{Spot};
ghost use Rattle.jr_expr_sites.specs.KnownFacts.{Others, known_of};
ghost use Rattle.jr_expr_sites.specs.Routes as route;
ghost use Rattle.jr_expr_sites.specs.Routes.{begins_by};
ghost use Rattle.jr_expr_sites.specs.StepView.{given};
ghost use Rattle.jr_piece_sites.specs.Footprints.{IsFootprint};
ghost use Rattle.jr_piece_sites.specs.Leads.{AllStmts, AreParts, LeadsToExp, LeadsToParts};
ghost use Rattle.jr_piece_sites.specs.Leads.{of_exp, of_stmts, spots_of};
ghost use Rattle.jr_piece_sites.specs.PartSites.{PartPut, PartsPut, parts_sites};
ghost use Rattle.jr_piece_sites.specs.Pieces as pure;
ghost use Rattle.jr_piece_sites.specs.Pieces.{FitsPiece, NumbersPiece, StartsAt, spotted};
ghost use Rattle.jr_piece_sites.specs.PieceView.{piece_of};
ghost use Rattle.jr_sites.specs.SiteView.{placed_of};

use crate::pieces::{Piece, begin, part, piece_at};
use crate::ranges::{Found, front, reach};
use jr_ast::{Expr, Member, Path};
use jr_cfg::{placed_sites, stmt};
use jr_expr_sites::{Here, Step, below, expr};
use jr_sites::PlacedSite;
use jr_table::{Facts, Table};
use jr_text::Mark;
use std::alloc::{AllocError, Global};

/// The sites of an expression to which the path leads from the member, and whose parent begins at
/// the byte `base` of the file.
fn expr_footprint<F: Facts, A: Mark>(
    alloc: Global,
    here: &Here<'_, F>,
    path: &Path,
    base: u32,
    of: &Expr<A>,
) -> Result<Vec<PlacedSite>, AllocError>
    requires fits { FitsExp (begins_by A.span_from) A.fits_at base (expr_of of.now) }
    ensures { (o : Others) → IfOk result (λ sites. IsFootprint (given F.decls F.types here.now) o
        (route.exp A.span_from path.now.steps.items base (expr_of of.now)) sites.items) }
{
    let mut steps = Vec::new(alloc);
    expr(alloc, here, path, base, of, &mut steps)?;
    placed_sites(alloc, here, &steps)
}

/// The sites of the expression to which the path leads from the member, in evaluation order (JLS
/// 15.7), with places that count from the member's first byte. The only fault is want of memory.
///
/// The member's parent begins at `base`, and `never_null` tells by their numbers which of its
/// locals are never null, as for `jr_cfg: graph`.
pub fn footprint<A: Mark, F: Facts>(
    alloc: Global,
    table: &Table,
    member: &Member<A>,
    base: u32,
    path: &Path,
    facts: &F,
    never_null: &[bool],
) -> Result<Vec<PlacedSite>, AllocError>
    requires fits { FitsSites A.span_from A.fits_at base (member_of member.now) }
    requires at { LeadsToExp (member_of member.now) path.now.steps.items }
    ensures { (o : Others) (e : tree.Exp Spot)
        → nodes.exp_at (nodes.member (spots_of A.span_from base (member_of member.now)))
        path.now.steps.items ≡ Some e
        → IfOk result (λ sites. IsFootprint (known A.span_from table.now (F.key facts.now)
        (F.decls facts.now) (F.types facts.now) never_null.now base (member_of member.now)) o
        (of_exp e) sites.items) }
{
    let here = Here {
        table,
        facts,
        member: facts.member(),
        start: member.mark.span(base).from,
        never_null,
    };
    match piece_at(member, base, &path.steps) {
        None => unreachable!(),
        Some(found) => match found.of {
            Piece::Expr(of) => expr_footprint(alloc, &here, path, found.base, of),
            Piece::Stmt(_) => unreachable!(),
            Piece::Member(_) => unreachable!(),
        },
    }
}

/// Puts the steps of the part of the number `step`, if it is a statement. Answers the number of the
/// first local that is declared behind it.
fn put_piece<'a, F: Facts, A: Mark>(
    alloc: Global,
    here: &Here<'a, F>,
    path: &Path,
    at: u32,
    number: u32,
    step: u32,
    of: Piece<'_, A>,
    out: &mut Vec<Step<'a>>,
) -> Result<u32, AllocError>
    requires fits { FitsPiece A.span_from A.fits_at at (piece_of of) }
    ensures { IfOk result (λ n. PartPut A.span_from (given F.decls F.types here.now)
        number at (path.now.steps.items ++ step ∷ []) (Some (piece_of of.entry)) n
        out.old.items out.new.items) }
{
    match of {
        Piece::Stmt(of) => {
            let place = below(alloc, path, step)?;
            stmt(alloc, here, &place, at, number, of, out)
        }
        Piece::Member(_) => Ok(number),
        Piece::Expr(_) => Ok(number),
    }
}

/// The same, if there is such a part.
fn put_part<'a, F: Facts, A: Mark>(
    alloc: Global,
    here: &Here<'a, F>,
    path: &Path,
    at: u32,
    number: u32,
    step: u32,
    of: Option<Piece<'_, A>>,
    out: &mut Vec<Step<'a>>,
) -> Result<u32, AllocError>
    requires fits { IfSome of (λ p. FitsPiece A.span_from A.fits_at at (piece_of p)) }
    ensures { IfOk result (λ n. PartPut A.span_from (given F.decls F.types here.now)
        number at (path.now.steps.items ++ step ∷ []) (option_map piece_of of.entry) n
        out.old.items out.new.items) }
{
    match of {
        None => Ok(number),
        Some(of) => put_piece(alloc, here, path, at, number, step, of, out),
    }
}

/// Puts the steps of the statements among the parts of these numbers of the piece to which the path
/// leads; `number` is that of the first local that is declared in the first of them.
fn put_parts<'a, F: Facts, A: Mark>(
    alloc: Global,
    here: &Here<'a, F>,
    path: &Path,
    found: Found<'_, A>,
    number: u32,
    from: u32,
    to: u32,
    out: &mut Vec<Step<'a>>,
) -> Result<(), AllocError>
    requires fits { FitsPiece A.span_from A.fits_at found.base (piece_of found.of) }
    requires ordered { from ≤ to }
    requires all { AllStmts (piece_of found.of) from (to - from) }
    requires number { number ≡ pure.first_number found.number (piece_of found.of) from }
    ensures { OnOk result (PartsPut (given F.decls F.types here.now)
        (NumbersPiece A.span_from found.entry.number found.entry.base path.now.steps.items
        (piece_of found.entry.of))
        (spotted A.span_from found.entry.base path.now.steps.items (piece_of found.entry.of)) from
        (to - from) out.old.items out.new.items) }
{
    let at = begin(&found.of, found.base);
    let mut number = number;
    for step in from..to {
        number = put_part(
            alloc,
            here,
            path,
            at,
            number,
            step,
            part(&found.of, step),
            out,
        )?;
    }
    Ok(())
}

/// The sites of the statements among the parts of these numbers of a piece.
fn parts_footprint<F: Facts, A: Mark>(
    alloc: Global,
    here: &Here<'_, F>,
    path: &Path,
    found: Found<'_, A>,
    from: u32,
    to: u32,
) -> Result<Vec<PlacedSite>, AllocError>
    requires fits { FitsPiece A.span_from A.fits_at found.base (piece_of found.of) }
    requires start { StartsAt A.span_from found.base here.now.start (piece_of found.of) }
    requires ordered { from ≤ to }
    requires all { AllStmts (piece_of found.of) from (to - from) }
    ensures { (o : Others)
        → NumbersPiece A.span_from found.entry.number found.entry.base path.now.steps.items
        (piece_of found.entry.of) o
        → IfOk result (λ sites. map placed_of sites.items
        ≡ map (placed (given F.decls F.types here.now))
        (parts_sites (known_of (given F.decls F.types here.now) o)
        (spotted A.span_from found.entry.base path.now.steps.items (piece_of found.entry.of)) from
        (to - from))) }
{
    let mut passed = Vec::new(alloc);
    let number = front(alloc, here, path, &found, from, &mut passed)?;
    let mut steps = Vec::new(alloc);
    put_parts(alloc, here, path, found, number, from, to, &mut steps)?;
    placed_sites(alloc, here, &steps)
}

/// The sites, in evaluation order (JLS 14.2, 15.7), of the statements that are the parts of the
/// numbers from `from` on and below `to` of the node to which the path leads from the member, which
/// is the member itself if the path is empty. Places count from the member's first byte. The only
/// fault is want of memory.
///
/// The member's parent begins at `base`, and `never_null` tells by their numbers which of its
/// locals are never null, as for `jr_cfg: graph`.
pub fn footprint_of<A: Mark, F: Facts>(
    alloc: Global,
    table: &Table,
    member: &Member<A>,
    base: u32,
    list: &Path,
    from: u32,
    to: u32,
    facts: &F,
    never_null: &[bool],
) -> Result<Vec<PlacedSite>, AllocError>
    requires fits { FitsSites A.span_from A.fits_at base (member_of member.now) }
    requires at { LeadsToParts (member_of member.now) list.now.steps.items from to }
    ensures { (o : Others) → NumbersMember A.span_from base (member_of member.now) o
        → (n : Node Spot)
        → nodes.node_at (nodes.member (spots_of A.span_from base (member_of member.now)))
        list.now.steps.items ≡ Some n
        → (ss : statement.Stmts Spot) → AreParts n from to ss
        → IfOk result (λ sites. IsFootprint (known A.span_from table.now (F.key facts.now)
        (F.decls facts.now) (F.types facts.now) never_null.now base (member_of member.now)) o
        (of_stmts ss) sites.items) }
{
    let here = Here {
        table,
        facts,
        member: facts.member(),
        start: member.mark.span(base).from,
        never_null,
    };
    let mut passed = Vec::new(alloc);
    let reached = reach(alloc, &here, member, base, list, &mut passed)?;
    match reached {
        None => unreachable!(),
        Some(found) => parts_footprint(alloc, &here, list, found, from, to),
    }
}
