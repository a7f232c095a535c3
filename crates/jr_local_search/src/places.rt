//! Why extract local and inline local are refused at a place, where nothing refuses what they find.
ghost use Rattle.std.specs.Prelude.{
  ◌≡◌,
  ◌≤◌,
  ◌↔◌,
  ℕ,
  Bool,
  false,
  IfOk,
  IsTrue,
  Option,
  map,
  slice_get,
};
ghost use Rattle.jr_text.specs.declared.spans.Span as spans;
ghost use Rattle.jr_ast.specs.View.{stmts_of};
ghost use Rattle.jr_grammar.specs.Layout.{itself};
ghost use Rattle.jr_pieces.specs.Returns.{returns_in_list};
ghost use Rattle.jr_piece_search.specs.StatementView.{found_of};
ghost use Rattle.jr_local_search.specs.Descending.{at_of};
ghost use Rattle.jr_local_search.specs.NamingView.{naming_of};
ghost use Rattle.jr_local_search.specs.Namings.{IsOnlyRead};
ghost use Rattle.jr_local_search.specs.PlaceView.{extract_of, inline_of};
ghost use Rattle.jr_local_search.specs.Places.{
  IsExtractPlace,
  IsInlinePlace,
  IsReturnBefore,
  IsUnbarred,
  MayMove,
};

use crate::names::{Naming, first_target, only_read};
use crate::scopes::{AtElement, at_element};
use crate::taken::first_taken;
use jr_ast::{Name, Stmt};
use jr_piece_search::{Found, first_return};
use jr_text::Span;
use std::alloc::AllocError;

/// What stands against inline local where the local's declaration and its names are known.
#[derive(Clone, Copy, Drop)]
pub enum InlinePlace {
    /// The local isn't read just once, and its initializer doesn't only read locals.
    UsedOtherwise,
    /// The construct that begins at this byte bars the one read.
    Barred(u32),
    /// This `return` stands in front of the one read.
    Returns(Span),
    /// The local is assigned at this byte.
    Assigned(u32),
    /// Nothing.
    Free,
}

/// Whether the span ends in front of the byte, or there.
fn ends_by(span: Span, at: u32) -> bool
    ensures { IsTrue result ↔ (span.to ≤ at) }
{
    span.to <= at
}

/// The first `return` of a list, if it ends in front of the byte.
fn return_before(list: &[Stmt<Span>], at: u32) -> Option<Span>
    ensures { (base : ℕ) → IsReturnBefore
        (slice_get (returns_in_list itself base (stmts_of list.now)) 0) at result }
{
    match first_return(list) {
        None => None,
        Some(span) => { if ends_by(span, at) { Some(span) } else { None } }
    }
}

/// Where the initializer may come to the reads.
fn behind_moves(namings: &[Naming]) -> InlinePlace
    ensures { (is_plain : Bool) (first : Option spans.Span)
        → MayMove is_plain first (map naming_of namings.now)
        → IsInlinePlace is_plain first (map naming_of namings.now) (inline_of result) }
{
    match first_target(namings) {
        None => InlinePlace::Free,
        Some(target) => InlinePlace::Assigned(target.span.from),
    }
}

/// Where the local is read just once, and its initializer doesn't only read locals.
fn at_read(list: &[Stmt<Span>], read: &Naming, namings: &[Naming]) -> InlinePlace
    ensures { (base : ℕ) → IsOnlyRead (map naming_of namings.now) (naming_of read.now)
        → IsInlinePlace false (slice_get (returns_in_list itself base (stmts_of list.now)) 0)
        (map naming_of namings.now) (inline_of result) }
{
    match read.bar {
        Some(at) => InlinePlace::Barred(at),
        None => match return_before(list, read.span.from) {
            Some(span) => InlinePlace::Returns(span),
            None => behind_moves(namings),
        },
    }
}

/// What stands against inline local, first in the order of refusals: a use otherwise than once, a
/// bar, a `return` or an assignment. `list` is the list behind the declaration, `namings` are the
/// local's names in it, and `is_plain` is whether the initializer only reads locals.
pub fn inline_place(is_plain: bool, list: &[Stmt<Span>], namings: &[Naming]) -> InlinePlace
    ensures { (base : ℕ) → IsInlinePlace is_plain
        (slice_get (returns_in_list itself base (stmts_of list.now)) 0)
        (map naming_of namings.now) (inline_of result) }
{
    if is_plain {
        return behind_moves(namings);
    }
    match only_read(namings) {
        None => InlinePlace::UsedOtherwise,
        Some(read) => at_read(list, read, namings),
    }
}

/// What stands against extract local where the expression is known.
#[derive(Clone, Copy, Drop)]
pub enum ExtractPlace {
    /// The construct that begins at this byte bars the expression.
    Barred(u32),
    /// The name is taken, first by the local of this number.
    Taken(u32),
    /// Nothing; the new local gets this number.
    Free(u32),
}

/// Where nothing bars the expression.
fn unbarred(name: &Name, at: AtElement, held: &[Stmt<Span>]) -> Result<ExtractPlace, AllocError>
    ensures { IfOk result (λ r. IsUnbarred name.now (at_of at) (stmts_of held.now) (extract_of r)) }
{
    let taken = first_taken(name, at, held)?;
    match taken {
        None => Ok(ExtractPlace::Free(at.next)),
        Some(number) => Ok(ExtractPlace::Taken(number)),
    }
}

/// What stands against extract local, first in the order of refusals: a bar, or a local that has
/// the name. `found` is the expression that a search has found in a list, whose elements have
/// numbers from `first` on, by the path; `at` is what is known where the list begins. The only
/// fault is want of memory.
pub fn extract_place(
    name: &Name,
    at: AtElement,
    first: u32,
    list: &[Stmt<Span>],
    path: &[u32],
    found: &Found<'_>,
) -> Result<ExtractPlace, AllocError>
    ensures { IfOk result (λ r. IsExtractPlace name.now (at_of at) first (stmts_of list.now)
        path.now (found_of found.now) (extract_of r)) }
{
    match found.bars.own {
        Some(byte) => Ok(ExtractPlace::Barred(byte)),
        None => {
            let element = at_element(name, path, first, list, at)?;
            unbarred(name, element, found.list)
        }
    }
}
