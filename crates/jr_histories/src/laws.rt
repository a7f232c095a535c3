//! The law on histories, the contract of a function that does nothing. `C`, `F`, `M` and `N` are
//! the keys of classes, fields, methods and constructors, and `A` the places of nodes.
ghost use Rattle.jr_histories.specs.Laws.{
  ExactHistoriesAgree,
  ExactRunsAreReordered,
  HistoriesAreOld,
};

/// Where two programs have the same runs, up to exchanges that the grid allows, each history of the
/// new program is one of the old program. Where they have exactly the same runs and declarations,
/// each history of either is one of the other.
pub fn histories_are_old<C, F, M, N, A>()
    ensures old { HistoriesAreOld C F M N A }
    ensures exact { ExactRunsAreReordered C F M N A }
    ensures both { ExactHistoriesAgree C F M N A }
{}
