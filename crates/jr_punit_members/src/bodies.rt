//! The parameters and the body of a method or constructor (JLS 8.4.1, 8.4.7, 8.8.7).
ghost use Rattle.std.specs.Prelude.{◌≡◌, ◌&&◌, IfOk, Some, option_map, option_and_then};
ghost use Rattle.std.specs.Option.{is_some};
ghost use Rattle.jr_ast.specs.View.{stmts_of, member_of};
ghost use Rattle.jr_pexpr.specs.Marked.{join};
ghost use Rattle.jr_pexpr.specs.TokenView.{token_view};
ghost use Rattle.jr_pstmt.specs.CueTests.{is_close_brace as is_brace};
ghost use Rattle.jr_pstmt.specs.CueView.{cue_view};
ghost use Rattle.jr_pstmt.specs.Cues as pure;
ghost use Rattle.jr_pstmt.specs.ListView.{list_state};
ghost use Rattle.jr_punit_members.specs.ParamView.{params_view, param_state};
ghost use Rattle.jr_punit_members.specs.HeadView.{head_view, body_view};
ghost use Rattle.jr_pstmt.specs.ParameterMachine as parameters;
ghost use Rattle.jr_pstmt.specs.StatementMachine as statements;
ghost use Rattle.jr_pstmt.specs.OwnMachine as machine;
ghost use Rattle.jr_punit_members.specs.OwnView.{own_state, IsNextOwn};

use crate::fields::whole_member;
use crate::heads::{Body, Constructor, ConstructorHead, Head, MemberHead};
use crate::leads::Lead;
use crate::own::{OwnState, OwnStepped};
use crate::params::ParamState;
use jr_ast::{Expr, Member, Param, Stmt};
use jr_pexpr::Token;
use jr_pstmt::{Cue, ListState, Made, is_close_brace};
use jr_text::Span;
use std::alloc::Global;

/// The parameters go on.
fn params_go_on(alloc: Global, head: Head, params: ParamState, at: Span, cue: Cue<'_>) -> OwnStepped
    ensures { IsNextOwn result (option_map (machine.in_params (head_view head))
        (parameters.cue_step join (param_state params) at (cue_view cue.entry))) }
{
    match params.step(alloc, at, cue)? {
        Some(params) => Ok(Some(OwnState::InParams(head, params))),
        None => Ok(None),
    }
}

/// A closing parenthesis behind what may be whole parameters.
fn end_params(head: Head, params: ParamState) -> OwnStepped
    ensures { IsNextOwn result (option_map (machine.headed (head_view head))
        (parameters.whole (param_state params))) }
{
    match params.finish() {
        Some(params) => Ok(Some(OwnState::Headed(head, params))),
        None => Ok(None),
    }
}

/// A token between the parentheses, or the closing one.
pub fn from_params(
    alloc: Global,
    head: Head,
    params: ParamState,
    at: Span,
    cue: Cue<'_>,
) -> OwnStepped
    ensures { IsNextOwn result (machine.from_params join (head_view head) (param_state params) at
        (cue_view cue.entry)) }
{
    match cue {
        Cue::Close => end_params(head, params),
        _ => params_go_on(alloc, head, params, at, cue),
    }
}

/// The list in a box: a token outside of it moves the member's state.
pub fn in_box(alloc: Global, items: ListState) -> Made<Box<ListState>>
    ensures { IfOk result (λ made. list_state made.value ≡ list_state items) }
{
    Ok(Box::new(alloc, items)?)
}

/// The statements of a body are to come.
pub fn in_body(alloc: Global, body: Body) -> OwnStepped
    ensures { IsNextOwn result (Some (machine.in_body (body_view body) statements.start)) }
{
    let body = Box::new(alloc, body)?;
    let items = in_box(alloc, ListState::new(alloc))?;
    Ok(Some(OwnState::InBody(body, items)))
}

/// The body of a constructor is to come.
fn in_constructor(alloc: Global, head: Box<ConstructorHead>, params: Vec<Param<Span>>) -> OwnStepped
    ensures { IsNextOwn result
        (Some (machine.body_of (head_view (Head.Constructor head)) (params_view params))) }
{
    let ConstructorHead { lead, name } = Box::into_inner(head);
    let of = Box::new(alloc, Constructor { lead, name, params })?;
    Ok(Some(OwnState::InConstructor(of)))
}

/// The body is to come.
fn begin_body(alloc: Global, head: Head, params: Vec<Param<Span>>) -> OwnStepped
    ensures { IsNextOwn result (Some (machine.body_of (head_view head) (params_view params))) }
{
    match head {
        Head::Method(head) => in_body(alloc, Body::Method(head, params)),
        Head::Constructor(head) => in_constructor(alloc, head, params),
    }
}

/// A token behind the parameters.
pub fn from_headed(alloc: Global, head: Head, params: Vec<Param<Span>>, cue: Cue<'_>) -> OwnStepped
    ensures { IsNextOwn result (pure.at_open_brace (cue_view cue.entry)
        (machine.body_of (head_view head) (params_view params))) }
{
    match cue {
        Cue::OpenBrace => begin_body(alloc, head, params),
        _ => Ok(None),
    }
}

/// The method, whose closing brace is at `at`.
fn method(
    head: Box<MemberHead>,
    params: Vec<Param<Span>>,
    at: Span,
    body: Vec<Stmt<Span>>,
) -> Member<Span>
    ensures { member_of result
        ≡ machine.built join (body_view (Body.Method head params)) at (stmts_of body.items) }
{
    let MemberHead { lead, result, name } = Box::into_inner(head);
    let Lead { start, modifiers } = lead;
    let mark = Span {
        from: start.from,
        to: at.to,
    };
    Member::method(mark, modifiers, result, name, params, body)
}

/// The constructor, whose closing brace is at `at`.
fn constructor(
    of: Box<Constructor>,
    parent_args: Option<Vec<Expr<Span>>>,
    at: Span,
    body: Vec<Stmt<Span>>,
) -> Member<Span>
    ensures { member_of result ≡ machine.built join
        (body_view (Body.Constructor of parent_args)) at (stmts_of body.items) }
{
    let Constructor { lead, name, params } = Box::into_inner(of);
    let Lead { start, modifiers } = lead;
    let mark = Span {
        from: start.from,
        to: at.to,
    };
    Member::ctor(mark, modifiers, name, params, parent_args, body)
}

/// The method or constructor, whose closing brace is at `at`.
fn member_of_body(body: Body, at: Span, stmts: Vec<Stmt<Span>>) -> Member<Span>
    ensures { member_of result ≡ machine.built join (body_view body) at (stmts_of stmts.items) }
{
    match body {
        Body::Method(head, params) => method(head, params, at, stmts),
        Body::Constructor(of, args) => constructor(of, args, at, stmts),
    }
}

/// A closing brace behind what may be a whole list of statements.
fn end_body(alloc: Global, body: Box<Body>, items: Box<ListState>, at: Span) -> OwnStepped
    ensures { IsNextOwn result (option_and_then
        (machine.body_closed join (body_view body.value) at pure.a_close_brace)
        (statements.whole join (list_state items.value))) }
{
    match Box::into_inner(items).finish(alloc)? {
        Some(stmts) => whole_member(alloc, member_of_body(Box::into_inner(body), at, stmts)),
        None => Ok(None),
    }
}

/// The statements go on.
fn body_goes_on(
    alloc: Global,
    body: Box<Body>,
    mut items: Box<ListState>,
    at: Span,
    token: Token<'_>,
) -> OwnStepped
    ensures { IsNextOwn result (option_map (machine.in_body (body_view body.value))
        (statements.step join (list_state items.value) at (token_view token.entry))) }
{
    if items.step(alloc, at, token)? {
        Ok(Some(OwnState::InBody(body, items)))
    } else {
        Ok(None)
    }
}

/// Whether the body ends with the token: its closing brace, behind what is a whole list.
pub fn ends_body(items: &ListState, token: Token<'_>) -> bool
    ensures { result ≡ (is_brace (pure.cue_of (token_view token.entry))
        && is_some (statements.whole join (list_state items.now))) }
{
    is_close_brace(token) & items.is_whole()
}

/// A token among the statements of a body, or its closing brace.
pub fn from_body(
    alloc: Global,
    body: Box<Body>,
    items: Box<ListState>,
    at: Span,
    token: Token<'_>,
) -> OwnStepped
    ensures { IsNextOwn result (machine.from_body join (body_view body.value)
        (list_state items.value) at (token_view token.entry)
        (pure.cue_of (token_view token.entry))) }
{
    if ends_body(&items, token) {
        end_body(alloc, body, items, at)
    } else {
        body_goes_on(alloc, body, items, at, token)
    }
}
