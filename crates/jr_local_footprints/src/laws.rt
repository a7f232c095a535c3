//! Footprints of a body's pieces.
ghost use Rattle.jr_local_footprints.specs.Laws.{
  FootprintsAreOfBody,
  FrontsAreOfBody,
  HeldValuesAreEvaluated,
  PiecesAreLost,
  ValuesAreEvaluated,
  WhatComesBetween,
};

use jr_lex::items_are_placed;
use jr_members::members_are_written;
use jr_pieces::{spans_tell_ways, standing_lists_are_nested};
use jr_program_laws::parts_are_placed;
use jr_table::{lookups_are_exact, types_are_exact};
use jr_text::Span;
use jr_way_places::ways_are_walked;

/// Where flags tell what is never null in a member that has a body, its pieces are found by their
/// paths, and footprints of them have the sites that they have by their spans, at their places.
pub fn footprints_are_of_body()
    ensures { FootprintsAreOfBody }
{
    items_are_placed();
    members_are_written::<Span>();
    spans_tell_ways::<Span>();
    standing_lists_are_nested::<Span>();
}

/// The first sites of a statement's footprint are those that come before an expression in it, where
/// it is evaluated (JLS 15.7).
pub fn fronts_are_of_body()
    ensures { FrontsAreOfBody }
{}

/// An expression that is used for its value, and is no class's name (JLS 6.5.2), is evaluated in
/// the nearest element of its way.
pub fn values_are_evaluated()
    ensures { ValuesAreEvaluated }
{
    members_are_written::<Span>();
    parts_are_placed();
    ways_are_walked::<Span>();
    lookups_are_exact();
    types_are_exact::<Span>();
}

/// So it is in its own element of the list from the nearest element of another way on.
pub fn held_values_are_evaluated()
    ensures { HeldValuesAreEvaluated }
{
    members_are_written::<Span>();
    parts_are_placed();
    ways_are_walked::<Span>();
    lookups_are_exact();
    types_are_exact::<Span>();
}

/// What comes before an expression of a list is what the elements in front of its own do, and what
/// its own does before it.
pub fn what_comes_between<C, F, M, N, L, A>()
    ensures { WhatComesBetween C F M N L A }
{}

/// The pair of sites that two footprints lose is the one that their pieces lose; where they lose
/// none, the pieces lose none.
pub fn pieces_are_lost()
    ensures { PiecesAreLost }
{}
