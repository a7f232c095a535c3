//! What is known by marks and by spots, and which references stand at places. `C`, `F`, `M` and `N`
//! are keys of classes, fields, methods and constructors, `L` places, `A` marks.
ghost use Rattle.jr_local_moves.specs.ReferencePlaces.{ReferencesHavePlaces};
ghost use Rattle.jr_local_moves.specs.SpotWays.{SpotsHaveTheWays};

/// Where the same is known of the nodes of a tree by their marks and by their spots, pieces have
/// the same ways.
pub fn spots_have_the_ways<C, F, M, N, L, A>()
    ensures { SpotsHaveTheWays C F M N L A }
{}

/// Each reference that is bound to a declaration has its place among those that are told, and each
/// of them is the place of one.
pub fn references_have_places()
    ensures { ReferencesHavePlaces }
{}
