//! The way down a path, and what stands in front on it.
ghost use Rattle.std.specs.Prelude.{◌≡◌, ◌++◌, [], None, IfOk, IfSome};
ghost use Rattle.jr_ast.specs.View.{member_of};
ghost use Rattle.jr_cfg.specs.MemberRoutes.{FitsSites};
ghost use Rattle.jr_expr_sites.specs.KnownFacts.{known_of};
ghost use Rattle.jr_expr_sites.specs.Routes.{begins_by};
ghost use Rattle.jr_expr_sites.specs.StepView.{given};
ghost use Rattle.jr_piece_sites.specs.Fronts as pure;
ghost use Rattle.jr_piece_sites.specs.Growth.{GrownTo};
ghost use Rattle.jr_piece_sites.specs.Leads.{spots_of};
ghost use Rattle.jr_piece_sites.specs.Pieces as piece;
ghost use Rattle.jr_piece_sites.specs.Pieces.{FitsPiece, NumbersPiece, StartsAt, spotted};
ghost use Rattle.jr_piece_sites.specs.PieceView.{piece_of};
ghost use Rattle.jr_piece_sites.specs.Descent.{Descended};

use crate::fronts::expr_front;
use crate::member_fronts::member_front;
use crate::pieces::{Piece, begin, part};
use crate::stmt_fronts::stmt_front;
use jr_ast::{Member, Path};
use jr_expr_sites::{Here, Step};
use jr_table::Facts;
use jr_text::Mark;
use std::alloc::{AllocError, Global};

/// A piece whose parent begins at the byte `base` of the file; `number` is that of the first local
/// that is declared in it.
#[derive(Drop)]
pub(crate) struct Found<'a, A> {
    pub(crate) of: Piece<'a, A>,
    pub(crate) base: u32,
    pub(crate) number: u32,
}

/// A member whose parent begins at `base`.
pub(crate) fn whole<A>(member: &Member<A>, base: u32) -> Found<'_, A>
    ensures of { piece_of result.of ≡ piece.member (member_of member.now) }
    ensures base { result.base ≡ base }
    ensures number { result.number ≡ 0 }
{
    Found {
        of: Piece::Member(member),
        base,
        number: 0,
    }
}

/// Puts what stands in front of the part of this number of the piece to which the path leads.
/// Answers the number of the first local that is declared in the part.
pub(crate) fn front<'a, F: Facts, A: Mark>(
    alloc: Global,
    here: &Here<'a, F>,
    path: &Path,
    found: &Found<'_, A>,
    part: u32,
    out: &mut Vec<Step<'a>>,
) -> Result<u32, AllocError>
    requires fits { FitsPiece A.span_from A.fits_at found.now.base (piece_of found.now.of) }
    requires start { StartsAt A.span_from found.now.base here.now.start (piece_of found.now.of) }
    ensures { IfOk result (λ n. GrownTo (given F.decls F.types here.now)
        (NumbersPiece A.span_from found.now.number found.now.base path.now.steps.items
        (piece_of found.now.of))
        (λ o. pure.front (known_of (given F.decls F.types here.now) o)
        (spotted A.span_from found.now.base path.now.steps.items (piece_of found.now.of)) part)
        (piece.first_number found.now.number (piece_of found.now.of) part) n
        out.old.items out.new.items) }
{
    match &found.of {
        Piece::Member(of) => member_front(alloc, here, path, found.base, *of, part, out),
        Piece::Stmt(of) => stmt_front(alloc, here, path, found.base, found.number, *of, part, out),
        Piece::Expr(of) => {
            expr_front(alloc, here, path, found.base, *of, part, out)?;
            Ok(found.number)
        }
    }
}

/// Goes down from a piece to which a path leads, and puts what stands in front of each part on the
/// way.
pub(crate) fn descend<'a, 'b, F: Facts, A: Mark>(
    alloc: Global,
    here: &Here<'a, F>,
    path: &Path,
    start: Found<'b, A>,
    steps: &[u32],
    out: &mut Vec<Step<'a>>,
) -> Result<Option<Found<'b, A>>, AllocError>
    requires fits { FitsPiece A.span_from A.fits_at start.base (piece_of start.of) }
    requires begins { StartsAt A.span_from start.base here.now.start (piece_of start.of) }
    ensures none { IfOk result (λ r. None ≡ r
        → None ≡ piece.piece_at (spotted A.span_from start.entry.base path.now.steps.items
        (piece_of start.entry.of)) steps.now) }
    ensures found { IfOk result (λ r. IfSome r (λ f. Descended A.span_from A.fits_at
        (given F.decls F.types here.now) start.entry.number start.entry.base path.now.steps.items
        (piece_of start.entry.of) steps.now [] f.number f.base (piece_of f.of)
        (path.now.steps.items ++ steps.now) out.old.items out.new.items)) }
{
    let mut place = Path {
        steps: Vec::new(alloc),
    };
    place.steps.extend_from_slice(path.steps.as_slice())?;
    let mut found = start;
    for step in steps {
        let number = front(alloc, here, &place, &found, *step, out)?;
        let at = begin(&found.of, found.base);
        let Some(of) = part(&found.of, *step) else {
            return Ok(None);
        };
        place.steps.push(*step)?;
        found = Found {
            of,
            base: at,
            number,
        };
    }
    Ok(Some(found))
}

/// The piece to which the path leads from a member whose parent begins at `base`; puts what stands
/// in front on the way.
pub(crate) fn reach<'a, 'b, F: Facts, A: Mark>(
    alloc: Global,
    here: &Here<'a, F>,
    member: &'b Member<A>,
    base: u32,
    path: &Path,
    out: &mut Vec<Step<'a>>,
) -> Result<Option<Found<'b, A>>, AllocError>
    requires fits { FitsSites A.span_from A.fits_at base (member_of member.now) }
    requires begins { here.now.start ≡ begins_by A.span_from member.now.mark base }
    ensures none { IfOk result (λ r. None ≡ r
        → None ≡ piece.piece_at (piece.member (spots_of A.span_from base (member_of member.now)))
        path.now.steps.items) }
    ensures found { IfOk result (λ r. IfSome r (λ f. Descended A.span_from A.fits_at
        (given F.decls F.types here.now) 0 base [] (piece.member (member_of member.now))
        path.now.steps.items [] f.number f.base (piece_of f.of) path.now.steps.items
        out.old.items out.new.items)) }
{
    let top = Path {
        steps: Vec::new(alloc),
    };
    let start = whole(member, base);
    descend(alloc, here, &top, start, &path.steps, out)
}
