//! The laws, each the contract of a function that does nothing. `C`, `F`, `M` and `N` are keys of
//! classes, fields, methods and constructors, `L` places, `A` marks.
ghost use Rattle.jr_cover.specs.Footprints.{
  CrossingPiecesAreFree,
  ExpressionsActAtTheirSites,
  ExpressionsWriteTheirLocals,
  StatementsActAtTheirSites,
  StatementsWriteTheirLocals,
};
ghost use Rattle.jr_cover.specs.Finishing.{ExpressionsComeToTheirEnd, StatementsComeToTheirEnd};
ghost use Rattle.jr_cover.specs.Members.{ActionsAreCovered, ActionsFollowEdges};
ghost use Rattle.jr_cover.specs.NeverNull.{NeverNullIsNotNull};
ghost use Rattle.jr_cover.specs.NeverNullMembers.{
  NeverNullGivesNoNull,
  NeverNullInitializersGiveNoNull,
};
ghost use Rattle.jr_cover.specs.Plain.{PlainExpressionsAreSilent};
ghost use Rattle.jr_cover.specs.Spots.{SpotsHaveTheirPaths};
ghost use Rattle.jr_cover.specs.Unread.{ExpressionsReadTheirLocals, StatementsReadTheirLocals};

/// In each run of a program that has a member, two actions of one activation that stand in the
/// member are done at sites of it, and a path leads from the earlier one's to the later one's.
pub fn actions_follow_edges<C, F, M, N, L, A>()
    ensures { ActionsFollowEdges C F M N L A }
{}

/// Where the two may not change places, by the grid or as accesses of one field, the later site
/// depends on the earlier one.
pub fn actions_are_covered<C, F, M, N, L, A>()
    ensures { ActionsAreCovered C F M N L A }
{}

/// In each run of well-typed code on a receiver and arguments that fit, what is never null gives no
/// null, wherever it is evaluated: where none of some locals is assigned or a parameter, and each
/// begins with a value that is never null, by these locals.
pub fn never_null_is_not_null<C, F, M, N, L>()
    ensures { NeverNullIsNotNull C F M N L }
{}

/// In each run of well-typed code on a receiver and arguments that fit, an expression that is never
/// null by the trees of its method, constructor or field gives no null, if it and the initializers
/// are bound.
pub fn never_null_gives_no_null<C, F, M, N, L, A>()
    ensures members { NeverNullGivesNoNull C F M N L A }
    ensures initializers { NeverNullInitializersGiveNoNull C F M N L A }
{}

/// In each run of a piece's code, each action of the piece's own activation is done at one of its
/// sites.
pub fn pieces_act_at_their_sites<C, F, M, N, L, A>()
    ensures expressions { ExpressionsActAtTheirSites C F M N L A }
    ensures lists { StatementsActAtTheirSites C F M N L A }
{}

/// Where a piece comes to its end, the locals that no site of it writes are as before.
pub fn pieces_write_their_locals<C, F, M, N, L, A>()
    ensures expressions { ExpressionsWriteTheirLocals C F M N L A }
    ensures lists { StatementsWriteTheirLocals C F M N L A }
{}

/// Whatever the locals hold that no site of a piece reads, its runs do the same and come to the
/// same: to one value, or one returned value, and otherwise to the same other locals.
pub fn pieces_read_their_locals<C, F, M, N, L, A>()
    ensures expressions { ExpressionsReadTheirLocals C F M N L A }
    ensures lists { StatementsReadTheirLocals C F M N L A }
{}

/// A piece in which nothing is called and no loop stands comes to its end, with at most as many
/// actions as it has accesses, each done at one of its sites.
pub fn pieces_come_to_their_end<C, F, M, N, L, A>()
    ensures expressions { ExpressionsComeToTheirEnd C F M N L A }
    ensures lists { StatementsComeToTheirEnd C F M N L A }
{}

/// A plain expression, whose sites are reads of locals alone, comes to a value that depends on these
/// locals, does nothing else, and leaves the locals as they are.
pub fn plain_expressions_are_silent<C, F, M, N, L, A>()
    ensures { PlainExpressionsAreSilent C F M N L A }
{}

/// Where the footprints of two pieces cross, each action that is done at a site of the one and each
/// that is done at a site of the other may change places.
pub fn crossing_pieces_are_free<C, F, M, N, L>()
    ensures { CrossingPiecesAreFree C F M N L }
{}

/// In a tree with spots the node to which a path leads from a member has that path in its spot.
pub fn spots_have_their_paths<A>()
    ensures { SpotsHaveTheirPaths A }
{}
