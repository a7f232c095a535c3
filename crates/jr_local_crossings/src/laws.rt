//! From what calls answer to the pair that extract and inline local lose.
ghost use Rattle.jr_local_crossings.specs.Calls.{ExtractsLose, InlinesLose};

use jr_local_footprints::{
    footprints_are_of_body, fronts_are_of_body, held_values_are_evaluated, pieces_are_lost,
    values_are_evaluated,
};

/// The pair that is lost by the footprint of an expression, and that of its statement as far as
/// sites come before it, is the one that extract local loses; where none is, it loses none.
pub fn extracts_lose()
    ensures { ExtractsLose }
{
    footprints_are_of_body();
    values_are_evaluated();
    fronts_are_of_body();
    pieces_are_lost();
}

/// The pair that is lost by the footprint of an initializer, and those of the statements behind its
/// declaration up to a read, or through the one in which something bars the way to it, is the one
/// that inline local loses at the read; where none is, it loses none there.
pub fn inlines_lose()
    ensures { InlinesLose }
{
    footprints_are_of_body();
    held_values_are_evaluated();
    fronts_are_of_body();
    pieces_are_lost();
}
