//! The laws, each the contract of a function that does nothing. `C`, `F`, `M` and `N` are keys of
//! classes, fields, methods and constructors, `L` places, `G` and `H` names of fields and locals.
ghost use Rattle.jr_effect.specs.Covers.{ListsCover};
ghost use Rattle.jr_effect.specs.Ties.{RowsDependAsWays};
ghost use Rattle.jr_effect.specs.Within.{PiecesStandInTheirWays};

use jr_cover::actions_are_covered;

/// The sites of a way depend on one another exactly as the row of sites that they are seen as.
pub fn rows_depend_as_ways<C, F, M, N, L, G, H>()
    ensures { RowsDependAsWays C F M N L G H }
{}

/// In each run of each program that has a member, two actions of one activation that stand in the
/// member and may not change places, by the grid or as accesses of one field, are done at sites
/// that the list of its dependences has as `Sync` or `Field`. `A` is marks of nodes.
pub fn lists_cover<C, F, M, N, L, A, G, H>()
    ensures { ListsCover C F M N L A G H }
{
    actions_are_covered::<C, F, M, N, L, A>();
}

/// The sites of a piece of a way stand in those of the way, behind as many as the way down to the
/// piece passes. `S` is sites.
pub fn pieces_stand_in_their_ways<S>()
    ensures { PiecesStandInTheirWays S }
{}
