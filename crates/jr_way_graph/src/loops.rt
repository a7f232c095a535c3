//! Loops: where a turn goes on, and its edges (JLS 14.12).
ghost use Rattle.std.specs.Prelude.{◌≡◌, ◌++◌, IfOk, OnOk, Bool};
ghost use Rattle.jr_way_graph.specs.PieceView.{piece_view};
ghost use Rattle.jr_way_graph.specs.Pieces as pure;

use crate::edges::{extend_when, put_fan, put_product};
use crate::pieces::{Piece, alone};
use std::alloc::{AllocError, Global};

/// From where a turn goes on. `is_bare` tells that the condition has no site; the loop's own has
/// the number.
pub(crate) fn ends(
    alloc: Global,
    is_bare: bool,
    number: u32,
    condition: &Piece,
    body: &Piece,
) -> Result<Vec<u32>, AllocError>
    ensures { IfOk result (λ row. row.items
        ≡ pure.ends is_bare number (piece_view condition.now) (piece_view body.now)) }
{
    let mut row = alone(alloc, number)?;
    if is_bare {
        return Ok(row);
    }
    row.clear();
    row.extend_from_slice(condition.lasts.as_slice())?;
    if condition.passes {
        row.push(number)?;
        row.extend_from_slice(body.lasts.as_slice())?;
    }
    Ok(row)
}

/// Where the body leads.
pub(crate) fn again(
    alloc: Global,
    is_bare: bool,
    number: u32,
    condition: &Piece,
) -> Result<Vec<u32>, AllocError>
    ensures { IfOk result (λ row. row.items
        ≡ pure.again is_bare number (piece_view condition.now)) }
{
    if is_bare {
        return alone(alloc, number);
    }
    let mut row = Vec::new(alloc);
    row.extend_from_slice(condition.firsts.as_slice())?;
    Ok(row)
}

/// The edges in a loop: to its condition, from where a turn goes on to the body, and from the body
/// back.
pub(crate) fn turns_edges(
    number: u32,
    ends: &[u32],
    again: &[u32],
    condition: &Piece,
    body: &Piece,
    edges: &mut Vec<(u32, u32)>,
) -> Result<(), AllocError>
    ensures { (is_bare : Bool)
        → ends.now ≡ pure.ends is_bare number (piece_view condition.now) (piece_view body.now)
        → again.now ≡ pure.again is_bare number (piece_view condition.now)
        → OnOk result (edges.new.items ≡ edges.old.items
        ++ pure.turns_edges is_bare number (piece_view condition.now) (piece_view body.now)) }
{
    put_fan(number, condition.firsts.as_slice(), edges)?;
    put_product(ends, body.firsts.as_slice(), edges)?;
    put_product(body.lasts.as_slice(), again, edges)?;
    if body.passes {
        put_product(ends, again, edges)
    } else {
        Ok(())
    }
}

/// A loop as a piece: its site is met first, and a way goes on from the ends of a turn.
pub(crate) fn turns_piece(
    alloc: Global,
    number: u32,
    ends: Vec<u32>,
    body: Piece,
) -> Result<Piece, AllocError>
    ensures { (is_bare : Bool) (condition : pure.Piece)
        → ends.items ≡ pure.ends is_bare number condition (piece_view body)
        → IfOk result (λ p.
        piece_view p ≡ pure.turns_piece is_bare number condition (piece_view body)) }
{
    let mut body = body;
    let firsts = alone(alloc, number)?;
    extend_when(body.leaves_at_once, ends.as_slice(), &mut body.leaves)?;
    Ok(Piece {
        begin: number,
        firsts,
        lasts: ends,
        leaves: body.leaves,
        passes: false,
        leaves_at_once: false,
    })
}
