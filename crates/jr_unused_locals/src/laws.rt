//! The laws, each the contract of a function that does nothing. `C`, `F`, `M` and `N` are keys of
//! classes, fields, methods and constructors, `L` places, `A` marks, and `S` what stands at a site.
ghost use Rattle.jr_unused_locals.specs.Agreement.{UnusedLocalsMayDiffer};
ghost use Rattle.jr_unused_locals.specs.Beginnings.{UnreadLocalsMayDiffer};
ghost use Rattle.jr_unused_locals.specs.LaterWrites.{UnusedLocalsPlayNoPart};
ghost use Rattle.jr_unused_locals.specs.UsedCases.{UsedCases};
ghost use Rattle.jr_unused_locals.specs.Unused.{
  ComesByPaths,
  EdgesAreInOrRound,
  GroupingKeepsEdges,
  ImagesHaveSets,
  UnusedLocalsHaveSets,
};

/// Where no edge round a piece leads to a site from which a local is read before it is written, the
/// local may differ behind the piece: each part of the member has an answer before it and behind it
/// whether it agrees, true at each read, and no more at a loop's head than its body gives.
pub fn unused_locals_may_differ<S>()
    ensures { UnusedLocalsMayDiffer S }
{}

/// The same of all such locals of a member at once, as the sets by which its new code is the image
/// of the old one, but for the list in which the piece stands.
pub fn unused_locals_have_sets<C, F, M, N, L, A>()
    ensures { UnusedLocalsHaveSets C F M N L A }
{}

/// Locals that no path from where a list of statements begins reads before it writes them may differ
/// there: the list agrees with all others before it, and behind it with these and with each local
/// that is written on each path to its end.
pub fn unread_locals_may_differ<C, F, M, N, L, A>()
    ensures { UnreadLocalsMayDiffer C F M N L A }
{}

/// What is the image of code is so too with sets by which the code agrees.
pub fn images_have_sets<C, F, M, N, L>()
    ensures { ImagesHaveSets C F M N L }
{}

/// Each edge of a member is one of the piece, or one round it.
pub fn edges_are_in_or_round<S>()
    ensures { EdgesAreInOrRound S }
{}

/// A body's way, grouped so that the piece is one part of it, has the body's sites and edges.
pub fn grouping_keeps_edges<C, F, M, N, L, A>()
    ensures { GroupingKeepsEdges C F M N L A }
{}

/// Programs of which the second writes further values to locals behind pieces of methods, where no
/// path from the piece reaches a read of the local past its writes, have the same runs, both ways,
/// and bounded runs too.
pub fn unused_locals_play_no_part<C, F, M, N, L, A>()
    ensures { UnusedLocalsPlayNoPart C F M N L A }
{}

/// Small pieces behind which a local is used, and some behind which it isn't: in one branch, in a
/// loop, round a loop whose condition is passed; lists that read it first, and some that don't.
pub fn used_cases()
    ensures { UsedCases }
{}

/// A read comes before a write from a site on exactly where the site reads, or where it doesn't
/// write and a path with no write strictly between leads from it to a read.
pub fn comes_by_paths<S>()
    ensures { ComesByPaths S }
{}
