//! The laws on held locals, each the contract of a function that does nothing. `C`, `F`, `M` and
//! `N` are the keys of classes, fields, methods and constructors, and `A` the places of nodes.
ghost use Rattle.jr_runs_held.specs.Laws.{HeldLocalsGo, HeldLocalsKeepRuns};

/// Programs of which the one has a local for an expression that reads locals alone have the same
/// runs, bounded ones too, wherever the local is read.
pub fn held_locals_keep_runs<C, F, M, N, A>()
    ensures made { HeldLocalsKeepRuns C F M N A }
    ensures gone { HeldLocalsGo C F M N A }
{}
