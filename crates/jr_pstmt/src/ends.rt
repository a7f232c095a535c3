//! A statement goes into the innermost list, and ends each `if`, `else` and `while` that stands
//! before it.
ghost use Rattle.std.specs.Prelude.{◌≡◌, ◌∷◌, IfOk};
ghost use Rattle.jr_pexpr.specs.Marked.{join};
ghost use Rattle.jr_pstmt.specs.Blocks.{with_body};
ghost use Rattle.jr_pstmt.specs.FrameView.{branch_view, block_view, frame_view};
ghost use Rattle.jr_pstmt.specs.PlaceView.{on, all, IsPlace};
ghost use Rattle.jr_pstmt.specs.StatementMachine as machine;
ghost use Rattle.jr_pstmt.specs.StatementView.{stmt_in, stmts_in, IsStmt};

use crate::frames::{Block, Branch, Frame};
use crate::made::Made;
use crate::places::Place;
use crate::statements::{if_else, if_then, while_loop};
use jr_ast::Stmt;
use jr_text::Span;
use std::alloc::Global;

/// The statements with one more.
fn with_last(mut stmts: Vec<Stmt<Span>>, stmt: Box<Stmt<Span>>) -> Made<Vec<Stmt<Span>>>
    ensures { IfOk result (λ made. stmts_in made
        ≡ machine.with_stmt (stmts_in stmts) (stmt_in stmt)) }
{
    stmts.push(Box::into_inner(stmt))?;
    Ok(stmts)
}

/// One more is begun there.
pub(crate) fn onto(mut place: Place, frame: Frame) -> Made<Place>
    ensures { IsPlace result (machine.place (frame_view frame ∷ on place) (all place)) }
{
    place.push(frame)?;
    Ok(place)
}

fn put_below(mut place: Place, stmt: Box<Stmt<Span>>) -> Made<Place>
    ensures { IsPlace result (machine.place (on place)
        (machine.with_stmt (all place) (stmt_in stmt))) }
{
    place.add(stmt)?;
    Ok(place)
}

/// In a list that stands on that place.
fn put_in(place: Place, block: Block, stmt: Box<Stmt<Span>>) -> Made<Place>
    ensures { IsPlace result (machine.ended join (block_view block ∷ on place) (all place)
        (stmt_in stmt)) }
{
    match block {
        Block::Plain(start, stmts) => {
            let stmts = with_last(stmts, stmt)?;
            onto(place, Frame::Block(Block::Plain(start, stmts)))
        }
        Block::Sync(start, lock, stmts) => {
            let stmts = with_last(stmts, stmt)?;
            onto(place, Frame::Block(Block::Sync(start, lock, stmts)))
        }
    }
}

/// What the statement ends.
fn end_branch(alloc: Global, branch: Branch, stmt: Box<Stmt<Span>>) -> Made<Box<Stmt<Span>>>
    ensures { IsStmt result (with_body join (branch_view branch) (stmt_in stmt)) }
{
    match branch {
        Branch::Then(start, condition) => if_then(alloc, start, condition, stmt),
        Branch::Else(start, condition, first) => if_else(alloc, start, condition, first, stmt),
        Branch::Loop(start, condition) => while_loop(alloc, start, condition, stmt),
    }
}

/// The place behind the statement.
pub(crate) fn end(alloc: Global, mut place: Place, mut stmt: Box<Stmt<Span>>) -> Made<Place>
    ensures { IsPlace result (machine.ended join (on place) (all place) (stmt_in stmt)) }
{
    while let Some(frame) = place.pop() {
        match frame {
            Frame::Branch(branch) => stmt = end_branch(alloc, branch, stmt)?,
            Frame::Block(block) => return put_in(place, block, stmt),
        }
    }
    put_below(place, stmt)
}
