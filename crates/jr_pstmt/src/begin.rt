//! A token where a statement may come (JLS 14.5).
ghost use Rattle.std.specs.Prelude.{◌≡◌, ◌∷◌, Some};
ghost use Rattle.jr_ast.specs.StatementTree as tree;
ghost use Rattle.jr_pexpr.specs.Marked.{join};
ghost use Rattle.jr_pexpr.specs.TokenView.{token_view};
ghost use Rattle.jr_pstmt.specs.CueView.{primitive_view, cue_view};
ghost use Rattle.jr_pstmt.specs.FrameView.{block_view};
ghost use Rattle.jr_pstmt.specs.ListView.{IsNextList};
ghost use Rattle.jr_pstmt.specs.PlaceView.{on, all};
ghost use Rattle.jr_pstmt.specs.StatementMachine as machine;
ghost use Rattle.jr_pstmt.specs.TypeStateView.{type_state};

use crate::cues::{Cue, Primitive};
use crate::ends::onto;
use crate::frames::{Block, Frame, Head};
use crate::lists::{Listed, Mode, ready, to, with_statement};
use crate::places::Place;
use crate::statements::{block, empty, sync};
use crate::type_state::{TypeState, primitive_type};
use jr_ast::ModWord;
use jr_pexpr::{State, Token};
use jr_text::Span;
use std::alloc::Global;

fn open_block(alloc: Global, place: Place, at: Span) -> Listed
    ensures { IsNextList result
        (Some (machine.ready (machine.in_block at tree.end ∷ on place) (all place))) }
{
    ready(onto(place, Frame::Block(Block::Plain(at, Vec::new(alloc)))))
}

fn close_block(alloc: Global, place: Place, of: Block, at: Span) -> Listed
    ensures { IsNextList result
        (machine.list_closed join (block_view of ∷ on place) (all place) at) }
{
    match of {
        Block::Plain(start, body) => with_statement(place, block(alloc, start, at, body)),
        Block::Sync(start, lock, body) => with_statement(place, sync(alloc, start, at, lock, body)),
    }
}

/// A closing brace.
fn close_list(alloc: Global, mut place: Place, at: Span) -> Listed
    ensures { IsNextList result (machine.list_closed join (on place) (all place) at) }
{
    match place.pop() {
        Some(Frame::Block(of)) => close_block(alloc, place, of, at),
        Some(Frame::Branch(branch)) => {
            drop(branch);
            Ok(None)
        }
        None => Ok(None),
    }
}

/// A local begins, if one may be declared there.
fn begin_type(place: Place, at: Span, is_final: bool, ty: TypeState) -> Listed
    ensures { IsNextList result (machine.declared (on place)
        (machine.in_type (on place) (all place) at is_final (type_state ty))) }
{
    if !place.may_declare() {
        drop(ty);
        return Ok(None);
    }
    to(place, Mode::InType(at, is_final, ty))
}

/// `final` or `synchronized`, or a modifier that no statement has.
fn begin_modified(place: Place, at: Span, word: ModWord) -> Listed
    ensures { IsNextList result (machine.begin_modified (on place) (all place) at word) }
{
    match word {
        ModWord::Synchronized => to(place, Mode::Headed(at, Head::Sync)),
        ModWord::Final => begin_type(place, at, true, TypeState::Want(true)),
        _ => Ok(None),
    }
}

fn begin_primitive(place: Place, at: Span, of: Primitive) -> Listed
    ensures { IsNextList result
        (machine.begin_primitive (on place) (all place) at (primitive_view of)) }
{
    begin_type(place, at, false, TypeState::Have(primitive_type(at, of)))
}

/// A statement expression, or the type of a local.
fn begin_eval(alloc: Global, place: Place, at: Span, token: Token<'_>) -> Listed
    ensures { IsNextList result (machine.begin_eval join (on place) (all place) at
        (token_view token.entry)) }
{
    match State::new(alloc).statement_step(alloc, at, token)? {
        Some(state) => to(place, Mode::InEval(state)),
        None => Ok(None),
    }
}

/// A token that begins a statement, or ends the innermost list.
#[tactic(auto, unfolding(crate::specs::StatementMachine::from_ready))]
pub(crate) fn begin(alloc: Global, place: Place, at: Span, token: Token<'_>, cue: Cue<'_>) -> Listed
    ensures { IsNextList result (machine.from_ready join (on place) (all place) at
        (token_view token.entry) (cue_view cue.entry)) }
{
    match cue {
        Cue::Semicolon => with_statement(place, empty(alloc, at)),
        Cue::OpenBrace => open_block(alloc, place, at),
        Cue::CloseBrace => close_list(alloc, place, at),
        Cue::If => to(place, Mode::Headed(at, Head::If)),
        Cue::While => to(place, Mode::Headed(at, Head::While)),
        Cue::Return => to(place, Mode::Returning(at)),
        Cue::Modifier(word) => begin_modified(place, at, word),
        Cue::Primitive(of) => begin_primitive(place, at, of),
        _ => begin_eval(alloc, place, at, token),
    }
}
