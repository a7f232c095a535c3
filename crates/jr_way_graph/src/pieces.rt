//! Pieces of a way: where it begins, ends and is left.
ghost use Rattle.std.specs.Prelude.{◌≡◌, ◌∷◌, ◌++◌, [], IfOk, OnOk};
ghost use Rattle.jr_cover.specs.Flows.{when};
ghost use Rattle.jr_way_graph.specs.PieceView.{piece_view};
ghost use Rattle.jr_way_graph.specs.Pieces as pure;

use crate::edges::{extend_when, put_edge, put_fan, put_product};
use std::alloc::{AllocError, Global};

/// Of a piece whose sites have the numbers from `begin` on: those that can be met first, last, and
/// last before the member is left; whether a way through it, or to the member's end, meets none.
#[derive(Drop)]
pub(crate) struct Piece {
    pub begin: u32,
    pub firsts: Vec<u32>,
    pub lasts: Vec<u32>,
    pub leaves: Vec<u32>,
    pub passes: bool,
    pub leaves_at_once: bool,
}

/// A row of one number.
pub(crate) fn alone(alloc: Global, number: u32) -> Result<Vec<u32>, AllocError>
    ensures { IfOk result (λ row. row.items ≡ number ∷ []) }
{
    let mut row = Vec::new(alloc);
    row.push(number)?;
    Ok(row)
}

/// A row of one number, or none.
fn maybe_alone(alloc: Global, is: bool, number: u32) -> Result<Vec<u32>, AllocError>
    ensures { IfOk result (λ row. row.items ≡ when is (number ∷ [])) }
{
    if is {
        alone(alloc, number)
    } else {
        Ok(Vec::new(alloc))
    }
}

pub(crate) fn pass_piece(alloc: Global, begin: u32) -> Piece
    ensures { piece_view result ≡ pure.pass_piece begin }
{
    Piece {
        begin,
        firsts: Vec::new(alloc),
        lasts: Vec::new(alloc),
        leaves: Vec::new(alloc),
        passes: true,
        leaves_at_once: false,
    }
}

pub(crate) fn leave_piece(alloc: Global, begin: u32) -> Piece
    ensures { piece_view result ≡ pure.leave_piece begin }
{
    Piece {
        begin,
        firsts: Vec::new(alloc),
        lasts: Vec::new(alloc),
        leaves: Vec::new(alloc),
        passes: false,
        leaves_at_once: true,
    }
}

pub(crate) fn site_piece(alloc: Global, number: u32) -> Result<Piece, AllocError>
    ensures { IfOk result (λ p. piece_view p ≡ pure.site_piece number) }
{
    let firsts = alone(alloc, number)?;
    let lasts = alone(alloc, number)?;
    Ok(Piece {
        begin: number,
        firsts,
        lasts,
        leaves: Vec::new(alloc),
        passes: false,
        leaves_at_once: false,
    })
}

/// The one, and then the other.
pub(crate) fn row_piece(first: Piece, second: Piece) -> Result<Piece, AllocError>
    ensures { IfOk result (λ p.
        piece_view p ≡ pure.row_piece (piece_view first) (piece_view second)) }
{
    let mut first = first;
    let mut second = second;
    let before = first.lasts.as_slice();
    extend_when(second.leaves_at_once, before, &mut second.leaves)?;
    extend_when(second.passes, before, &mut second.lasts)?;
    extend_when(first.passes, second.firsts.as_slice(), &mut first.firsts)?;
    extend_when(true, second.leaves.as_slice(), &mut first.leaves)?;
    Ok(Piece {
        begin: first.begin,
        firsts: first.firsts,
        lasts: second.lasts,
        leaves: first.leaves,
        passes: first.passes & second.passes,
        leaves_at_once: first.leaves_at_once | (first.passes & second.leaves_at_once),
    })
}

/// The edges from the one to the other.
pub(crate) fn row_edges(
    first: &Piece,
    second: &Piece,
    edges: &mut Vec<(u32, u32)>,
) -> Result<(), AllocError>
    ensures { OnOk result (edges.new.items ≡ edges.old.items
        ++ pure.row_edges (piece_view first.now) (piece_view second.now)) }
{
    put_product(first.lasts.as_slice(), second.firsts.as_slice(), edges)
}

/// The one or the other.
pub(crate) fn fork_piece(first: Piece, second: Piece) -> Result<Piece, AllocError>
    ensures { IfOk result (λ p.
        piece_view p ≡ pure.fork_piece (piece_view first) (piece_view second)) }
{
    let mut first = first;
    extend_when(true, second.firsts.as_slice(), &mut first.firsts)?;
    extend_when(true, second.lasts.as_slice(), &mut first.lasts)?;
    extend_when(true, second.leaves.as_slice(), &mut first.leaves)?;
    Ok(Piece {
        begin: first.begin,
        firsts: first.firsts,
        lasts: first.lasts,
        leaves: first.leaves,
        passes: first.passes | second.passes,
        leaves_at_once: first.leaves_at_once | second.leaves_at_once,
    })
}

/// The exit of a monitor with this block, and its entry.
pub(crate) fn inside_piece(
    alloc: Global,
    entry: u32,
    exit: u32,
    block: &Piece,
) -> Result<Piece, AllocError>
    ensures { IfOk result (λ p.
        piece_view p ≡ pure.inside_piece entry exit (piece_view block.now)) }
{
    let ends = block.passes | !block.lasts.is_empty();
    let is_left = block.leaves_at_once | !block.leaves.is_empty();
    let firsts = alone(alloc, entry)?;
    let lasts = maybe_alone(alloc, ends, exit)?;
    let leaves = maybe_alone(alloc, is_left, exit)?;
    Ok(Piece {
        begin: entry,
        firsts,
        lasts,
        leaves,
        passes: false,
        leaves_at_once: false,
    })
}

/// The edges in a monitor: from its entry, and from wherever the block is left.
pub(crate) fn inside_edges(
    entry: u32,
    exit: u32,
    block: &Piece,
    edges: &mut Vec<(u32, u32)>,
) -> Result<(), AllocError>
    ensures { OnOk result (edges.new.items ≡ edges.old.items
        ++ pure.inside_edges entry exit (piece_view block.now)) }
{
    let exits = [exit];
    put_fan(entry, block.firsts.as_slice(), edges)?;
    put_product(block.lasts.as_slice(), &exits, edges)?;
    put_product(block.leaves.as_slice(), &exits, edges)?;
    if block.passes | block.leaves_at_once {
        put_edge(entry, exit, edges)
    } else {
        Ok(())
    }
}
