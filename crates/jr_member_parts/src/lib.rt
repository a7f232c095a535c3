//! What refactorings of members and methods share: definitions, and a lemma. It has no function.
//!
//! `specs/HeldLists`: where the rest of a list of statements stands in a body. `Receivers`: code in a
//! place where a local stands for `this`. `ClassRows`: the rows of a class's body, and one that comes
//! behind them. `InTheWay`: a class that is named, and what there is in a member's way. `Heads`: a made
//! method and its head's text. `MadeCalls`: a made part of a tree beside its text, a class in front of a
//! made call. `TwoPlaces`: spots where a member goes and comes.
#![tactic(auto)]
