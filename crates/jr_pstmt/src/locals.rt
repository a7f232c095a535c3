//! A token in a statement expression, or in the declaration of a local (JLS 14.4, 14.8).
ghost use Rattle.std.specs.Prelude.{◌≡◌, Some, None, IfOk, option_map, option_and_then};
ghost use Rattle.std.specs.Result.{IsOkAnd};
ghost use Rattle.jr_ast.specs.View.{word_of, type_of};
ghost use Rattle.jr_grammar.specs.Tokens as tokens;
ghost use Rattle.jr_pexpr.specs.Machine as expressions;
ghost use Rattle.jr_pexpr.specs.Marked.{join};
ghost use Rattle.jr_pexpr.specs.Starts.{type_read};
ghost use Rattle.jr_pexpr.specs.StateView.{state_view};
ghost use Rattle.jr_pexpr.specs.TokenView.{token_view};
ghost use Rattle.jr_pstmt.specs.Cues as pure;
ghost use Rattle.jr_pstmt.specs.CueView.{cue_view};
ghost use Rattle.jr_pstmt.specs.Inside.{inner};
ghost use Rattle.jr_pstmt.specs.ListView.{list_state, IsNextList};
ghost use Rattle.jr_pstmt.specs.PlaceView.{on, all};
ghost use Rattle.jr_pstmt.specs.StatementMachine as machine;
ghost use Rattle.jr_pstmt.specs.TypeMachine as types;
ghost use Rattle.jr_pstmt.specs.TypeStateView.{type_state};

use crate::cues::{Cue, cue_of};
use crate::lists::{Listed, Mode, to, with_statement};
use crate::made::Made;
use crate::places::Place;
use crate::statements::eval;
use crate::type_state::{TypeState, behind_dot, behind_outer, word};
use jr_ast::{Ident, TypeRef};
use jr_pexpr::{State, Token};
use jr_text::Span;
use std::alloc::Global;

// ---- statement expressions

/// The statement expression goes on, if it does.
fn in_eval(place: Place, next: Made<Option<State>>) -> Listed
    ensures { IfOk result (λ to. IsOkAnd next (λ s. option_map list_state to
        ≡ inner (machine.in_eval (on place) (all place)) None (option_map state_view s))) }
{
    match next? {
        Some(state) => to(place, Mode::InEval(state)),
        None => Ok(None),
    }
}

/// A semicolon.
fn end_eval(alloc: Global, place: Place, state: State, at: Span) -> Listed
    ensures { IsNextList result (option_map (machine.evaluated join (on place) (all place) at)
        (expressions.statement_whole join (state_view state))) }
{
    if !state.is_statement() {
        drop(state);
        return Ok(None);
    }
    match state.finish(alloc)? {
        Some(e) => with_statement(place, eval(alloc, at, e)),
        None => Ok(None),
    }
}

/// The word of a local, if one may be declared there.
fn begin_local(place: Place, state: State, name: Ident<Span>) -> Listed
    ensures { IsNextList result (option_and_then
        (machine.begin_local (on place) (all place) (word_of name))
        (type_read (state_view state))) }
{
    if !place.may_declare() {
        drop(state);
        return Ok(None);
    }
    match state.into_type() {
        Some(ty) => to(place, Mode::Named(ty.mark, false, ty, name)),
        None => Ok(None),
    }
}

/// A word.
fn word_behind(alloc: Global, place: Place, state: State, at: Span, text: &str) -> Listed
    ensures { IsNextList result (machine.from_eval join (on place) (all place) (state_view state)
        at (tokens.word text.now) (pure.a_word text.now)) }
{
    if state.is_type() {
        let name = word(alloc, at, text)?;
        return begin_local(place, state, name);
    }
    in_eval(place, state.statement_step(alloc, at, Token::Word(text)))
}

/// A token in a statement expression, or in the type of a local, or behind it.
pub(crate) fn step_eval(
    alloc: Global,
    place: Place,
    state: State,
    at: Span,
    token: Token<'_>,
) -> Listed
    ensures { IsNextList result (machine.from_eval join (on place) (all place) (state_view state)
        at (token_view token.entry) (pure.cue_of (token_view token.entry))) }
{
    match cue_of(token) {
        Cue::Semicolon => end_eval(alloc, place, state, at),
        Cue::Word(text) => word_behind(alloc, place, state, at, text),
        _ => in_eval(place, state.statement_step(alloc, at, token)),
    }
}

// ---- locals

/// The type goes on, if it does.
fn in_type(place: Place, start: Span, is_final: bool, next: Made<Option<TypeState>>) -> Listed
    ensures { IfOk result (λ to. IsOkAnd next (λ s. option_map list_state to
        ≡ inner (machine.in_type (on place) (all place) start is_final) None
        (option_map type_state s))) }
{
    match next? {
        Some(ty) => to(place, Mode::InType(start, is_final, ty)),
        None => Ok(None),
    }
}

/// The word of the local.
fn local_name(
    alloc: Global,
    place: Place,
    start: Span,
    is_final: bool,
    ty: TypeRef<Span>,
    at: Span,
    text: &str,
) -> Listed
    ensures { IsNextList result (Some (machine.named (on place) (all place) start is_final
        (type_of ty) (expressions.marked at text.now))) }
{
    match word(alloc, at, text) {
        Ok(name) => to(place, Mode::Named(start, is_final, ty, name)),
        Err(error) => {
            drop(place);
            drop(ty);
            Err(error)
        }
    }
}

/// A token behind the type, or behind its first word.
fn behind_type(
    alloc: Global,
    place: Place,
    start: Span,
    is_final: bool,
    ty: TypeRef<Span>,
    at: Span,
    cue: Cue<'_>,
) -> Listed
    ensures { IsNextList result (machine.from_type join (on place) (all place) start is_final
        (types.have (type_of ty)) at (cue_view cue.entry)) }
{
    match cue {
        Cue::Word(text) => local_name(alloc, place, start, is_final, ty, at, text),
        Cue::Dot => in_type(place, start, is_final, Ok(behind_outer(ty))),
        _ => {
            drop(ty);
            Ok(None)
        }
    }
}

/// A token in the type of a local, or behind it.
pub(crate) fn step_type(
    alloc: Global,
    place: Place,
    start: Span,
    is_final: bool,
    ty: TypeState,
    at: Span,
    cue: Cue<'_>,
) -> Listed
    ensures { IsNextList result (machine.from_type join (on place) (all place) start is_final
        (type_state ty) at (cue_view cue.entry)) }
{
    match ty {
        TypeState::Want(primitive) => {
            let next = TypeState::begin(alloc, primitive, at, cue);
            in_type(place, start, is_final, next)
        }
        TypeState::Have(ty) => behind_type(alloc, place, start, is_final, ty, at, cue),
        TypeState::Dotted(outer) => {
            let next = behind_dot(alloc, outer, at, cue);
            in_type(place, start, is_final, next)
        }
    }
}
