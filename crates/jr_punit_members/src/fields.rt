//! A member behind its name, and the value of a field (JLS 8.3).
ghost use Rattle.std.specs.Prelude.{◌≡◌, Some, option_map, option_and_then};
ghost use Rattle.jr_ast.specs.MemberTree as tree;
ghost use Rattle.jr_ast.specs.View.{word_of, type_of, expr_of, member_of};
ghost use Rattle.jr_pexpr.specs.Marked.{join};
ghost use Rattle.jr_pexpr.specs.Machine as expressions;
ghost use Rattle.jr_pexpr.specs.StateView.{state_view};
ghost use Rattle.jr_pexpr.specs.TokenView.{token_view};
ghost use Rattle.jr_pstmt.specs.CueView.{cue_view};
ghost use Rattle.jr_pstmt.specs.Cues as pure;
ghost use Rattle.jr_punit_members.specs.LeadView.{lead_view};
ghost use Rattle.jr_pstmt.specs.OwnMachine as machine;
ghost use Rattle.jr_punit_members.specs.OwnView.{own_state, IsNextOwn};

use crate::beginnings::begin_params;
use crate::heads::{FieldHead, Head, MemberHead};
use crate::leads::Lead;
use crate::own::{OwnState, OwnStepped};
use jr_ast::{Expr, Ident, Member, TypeRef};
use jr_pexpr::{State, Token};
use jr_pstmt::{Cue, is_semicolon};
use jr_text::Span;
use std::alloc::Global;

/// The member has been read.
pub fn whole_member(alloc: Global, member: Member<Span>) -> OwnStepped
    ensures { IsNextOwn result (Some (machine.done (member_of member))) }
{
    let member = Box::new(alloc, member)?;
    Ok(Some(OwnState::Done(member)))
}

/// The field, whose semicolon is at `at`.
fn end_field(
    alloc: Global,
    lead: Lead,
    ty: TypeRef<Span>,
    name: Ident<Span>,
    init: Option<Expr<Span>>,
    at: Span,
) -> OwnStepped
    ensures { IsNextOwn result (Some (machine.done (tree.field
        (join (lead_view lead).start at) (lead_view lead).modifiers (type_of ty) (word_of name)
        (option_map expr_of init)))) }
{
    let Lead { start, modifiers } = lead;
    let mark = Span {
        from: start.from,
        to: at.to,
    };
    whole_member(alloc, Member::field(mark, modifiers, ty, name, init))
}

/// A semicolon behind the name: no field has the type `void`.
fn field_without(alloc: Global, head: Box<MemberHead>, at: Span) -> OwnStepped
    ensures { IsNextOwn result (option_map
        (machine.field_without join (lead_view head.value.lead) (word_of head.value.name) at)
        (option_map type_of head.value.result)) }
{
    let MemberHead { lead, result, name } = Box::into_inner(head);
    match result {
        Some(ty) => end_field(alloc, lead, ty, name, None, at),
        None => Ok(None),
    }
}

/// The value of a field is to come.
fn in_value(alloc: Global, lead: Lead, ty: TypeRef<Span>, name: Ident<Span>) -> OwnStepped
    ensures { IsNextOwn result
        (Some (machine.begin_value (lead_view lead) (word_of name) (type_of ty))) }
{
    let head = Box::new(alloc, FieldHead { lead, ty, name })?;
    Ok(Some(OwnState::InValue(head, State::new(alloc))))
}

/// `=` behind the name: no field has the type `void`.
fn begin_value(alloc: Global, head: Box<MemberHead>) -> OwnStepped
    ensures { IsNextOwn result (option_map
        (machine.begin_value (lead_view head.value.lead) (word_of head.value.name))
        (option_map type_of head.value.result)) }
{
    let MemberHead { lead, result, name } = Box::into_inner(head);
    match result {
        Some(ty) => in_value(alloc, lead, ty, name),
        None => Ok(None),
    }
}

/// A token behind the name of a field or method.
pub fn from_worded(alloc: Global, head: Box<MemberHead>, at: Span, cue: Cue<'_>) -> OwnStepped
    ensures { IsNextOwn result (machine.from_worded join (lead_view head.value.lead)
        (option_map type_of head.value.result) (word_of head.value.name) at
        (cue_view cue.entry)) }
{
    match cue {
        Cue::Semicolon => field_without(alloc, head, at),
        Cue::Equals => begin_value(alloc, head),
        Cue::Open => begin_params(alloc, Head::Method(head)),
        _ => Ok(None),
    }
}

/// The field with its value, whose semicolon is at `at`.
fn field_with(alloc: Global, head: Box<FieldHead>, e: Box<Expr<Span>>, at: Span) -> OwnStepped
    ensures { IsNextOwn result (machine.field_with join (lead_view head.value.lead)
        (type_of head.value.ty) (word_of head.value.name) at pure.a_semicolon
        (expr_of e.value)) }
{
    let FieldHead { lead, ty, name } = Box::into_inner(head);
    let init = Some(Box::into_inner(e));
    end_field(alloc, lead, ty, name, init, at)
}

/// A semicolon behind what may be the whole value.
fn end_value(alloc: Global, head: Box<FieldHead>, value: State, at: Span) -> OwnStepped
    ensures { IsNextOwn result (option_and_then (machine.field_with join
        (lead_view head.value.lead) (type_of head.value.ty) (word_of head.value.name) at
        pure.a_semicolon) (expressions.whole join (state_view value))) }
{
    match value.finish(alloc)? {
        Some(e) => field_with(alloc, head, e, at),
        None => Ok(None),
    }
}

/// The value goes on.
fn value_goes_on(
    alloc: Global,
    head: Box<FieldHead>,
    value: State,
    at: Span,
    token: Token<'_>,
) -> OwnStepped
    ensures { IsNextOwn result (option_map (machine.in_value (lead_view head.value.lead)
        (type_of head.value.ty) (word_of head.value.name))
        (expressions.step join (state_view value) at (token_view token.entry))) }
{
    match value.step(alloc, at, token)? {
        Some(value) => Ok(Some(OwnState::InValue(head, value))),
        None => Ok(None),
    }
}

/// A token in the value of a field, or behind it.
pub fn from_value(
    alloc: Global,
    head: Box<FieldHead>,
    value: State,
    at: Span,
    token: Token<'_>,
) -> OwnStepped
    ensures { IsNextOwn result (machine.from_value join (lead_view head.value.lead)
        (type_of head.value.ty) (word_of head.value.name) (state_view value) at
        (token_view token.entry) (pure.cue_of (token_view token.entry))) }
{
    if is_semicolon(token) {
        return end_value(alloc, head, value, at);
    }
    value_goes_on(alloc, head, value, at, token)
}
