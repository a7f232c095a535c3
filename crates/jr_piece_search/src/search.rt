//! The search in a list of statements.
ghost use Rattle.std.specs.Prelude.{◌≡◌, ◌++◌, ◌∷◌, [], None, Some, true, IfOk, option_map, ⊤};
ghost use Rattle.jr_ast.specs.View.{expr_of, stmt_of, stmts_of};
ghost use Rattle.jr_piece_search.specs.Sought.{IsFoundIn, barred};
ghost use Rattle.jr_piece_search.specs.SoughtStatements.{IsFound};
ghost use Rattle.jr_piece_search.specs.StatementSteps as steps;
ghost use Rattle.jr_piece_search.specs.StatementView.{found_of, place_of, turn_of};
ghost use Rattle.jr_piece_search.specs.StepView.{bars_of, in_expr_of, use_of};
ghost use Rattle.jr_piece_search.specs.Turning as pure;
ghost use Rattle.jr_piece_search.specs.Turning.{ToElement, Turned, TurnsFrom};

use crate::exprs::{InExpr, in_expr, step_bars};
use crate::statement_steps::{Inward, choose_stmt, inward_stmt};
use crate::steps::{Bars, Usage};
use jr_ast::{Expr, Stmt};
use jr_text::Span;
use std::alloc::AllocError;

/// An expression, how it is used, what bars it, and the list from the nearest element on.
pub struct Found<'a> {
    pub value: &'a Expr<Span>,
    pub usage: Usage,
    pub bars: Bars,
    pub list: &'a [Stmt<Span>],
}

impl Copy for Found<'_> {}

impl Clone for Found<'_> {
    ghost is_clone = { λ x y. y ≡ x };

    ghost is_infallible = { λ _. ⊤ };

    fn clone(&self) -> Result<Self, AllocError> {
        Ok(*self)
    }
}

/// How far a search has come: to a statement within the first element of a list.
pub(crate) struct Place<'a> {
    bars: Bars,
    list: &'a [Stmt<Span>],
    of: &'a Stmt<Span>,
}

impl Copy for Place<'_> {}

impl Clone for Place<'_> {
    ghost is_clone = { λ x y. y ≡ x };

    ghost is_infallible = { λ _. ⊤ };

    fn clone(&self) -> Result<Self, AllocError> {
        Ok(*self)
    }
}

/// Where a turn of a search ends: with what is found, if anything is, or at a further place.
pub(crate) enum Turn<'a> {
    Ended(Option<Found<'a>>),
    At(Place<'a>),
}

impl Copy for Turn<'_> {}

impl Clone for Turn<'_> {
    ghost is_clone = { λ x y. y ≡ x };

    ghost is_infallible = { λ _. ⊤ };

    fn clone(&self) -> Result<Self, AllocError> {
        Ok(*self)
    }
}

fn with_list<'a>(list: &'a [Stmt<Span>], within: Option<InExpr<'a>>) -> Option<Found<'a>>
    ensures { option_map found_of result
        ≡ option_map (pure.with_list (stmts_of list.now)) (option_map in_expr_of within.entry) }
{
    match within {
        None => None,
        Some(of) => Some(Found {
            value: of.value,
            usage: of.usage,
            bars: of.bars,
            list,
        }),
    }
}

/// To the first element of a list that doesn't end in front of the span's end.
fn to_element<'a>(
    span: &Span,
    outer: Option<u32>,
    first: u32,
    list: &'a [Stmt<Span>],
    path: &mut Vec<u32>,
) -> Result<Turn<'a>, AllocError>
    ensures { IfOk result (λ t. ToElement outer path.old.items path.new.items (turn_of t)
        (steps.choose span.now first (stmts_of list.now))) }
{
    let chosen = choose_stmt(span, first, list)?;
    match chosen {
        None => Ok(Turn::Ended(None)),
        Some(next) => {
            path.push(next.number)?;
            Ok(Turn::At(Place {
                bars: Bars { outer, own: None },
                list: next.list,
                of: next.of,
            }))
        }
    }
}

/// Into an expression.
fn to_value<'a>(
    span: &Span,
    place: Place<'a>,
    number: u32,
    usage: Usage,
    again: bool,
    part: &'a Expr<Span>,
    path: &mut Vec<u32>,
) -> Result<Turn<'a>, AllocError>
    ensures { IfOk result (λ t. Turned span.now (place_of place.entry) path.old.items path.new.items
        (turn_of t) (steps.to_exp number (use_of usage) again (expr_of part.now))) }
{
    path.push(number)?;
    let bars = step_bars(place.bars, again, place.of.mark.from);
    let within = in_expr(span, usage, bars, part, path)?;
    Ok(Turn::Ended(with_list(place.list, within)))
}

/// Into a statement that may be left out.
fn to_part<'a>(
    span: &Span,
    place: Place<'a>,
    number: u32,
    part: &'a Stmt<Span>,
    path: &mut Vec<u32>,
) -> Result<Turn<'a>, AllocError>
    ensures { IfOk result (λ t. Turned span.now (place_of place.entry) path.old.items path.new.items
        (turn_of t) (steps.to_stmt number (stmt_of part.now))) }
{
    path.push(number)?;
    let bars = step_bars(place.bars, true, place.of.mark.from);
    Ok(Turn::At(Place {
        bars,
        list: place.list,
        of: part,
    }))
}

/// The next turn.
fn turn_from<'a>(span: &Span, place: Place<'a>, path: &mut Vec<u32>) -> Result<Turn<'a>, AllocError>
    ensures { IfOk result (λ t. TurnsFrom span.now (place_of place.entry) path.old.items
        path.new.items (turn_of t)) }
{
    match inward_stmt(span, place.of) {
        Inward::Nowhere => Ok(Turn::Ended(None)),
        Inward::Expr(number, usage, again, part) => {
            to_value(span, place, number, usage, again, part, path)
        }
        Inward::Stmt(number, part) => to_part(span, place, number, part, path),
        Inward::List(first, list) => to_element(span, place.bars.outer, first, list, path),
    }
}

/// The expression of exactly this span in a list of statements, whose elements have numbers from
/// `first` on, if there is one (of nested spans one alone has it: `none_has_the_span` and
/// `jr_pieces: spans_tell_ways`). Behind what stood in the path come the numbers of the children
/// through which the way goes. The only fault is want of memory.
pub fn find<'a>(
    span: &Span,
    first: u32,
    list: &'a [Stmt<Span>],
    path: &mut Vec<u32>,
) -> Result<Option<Found<'a>>, AllocError>
    ensures { IfOk result (λ o. IsFound span.now (stmts_of list.now) first path.old.items
        path.new.items (option_map found_of o)) }
{
    let mut turn = to_element(span, None, first, list, path)?;
    loop {
        match turn {
            Turn::Ended(of) => return Ok(of),
            Turn::At(place) => turn = turn_from(span, place, path)?,
        }
    }
}
