//! The laws on runs of programs, each the contract of a function that does nothing. `C`, `F`, `M`
//! and `N` are the keys of classes, fields, methods and constructors, and `A` the places of nodes.
ghost use Rattle.jr_runs.specs.Budgets.{FuelReadingsAgree};
ghost use Rattle.jr_runs.specs.OldKeys.{ImagesByNames, KindsExtend, MapsExtend};
ghost use Rattle.jr_runs.specs.Pieces.{PiecesChangePlaces, ReorderingsJoin};
ghost use Rattle.jr_runs.specs.TypedImages.{TypedImagesAreAlike};
ghost use Rattle.jr_runs.specs.Laws.{CallsAreMadeWell, EndsFit, RenamedProgramsAreAlike};

/// A program and its image under a map of keys have the same runs, both ways, and bounded runs too.
pub fn renamed_programs_are_alike<C, F, M, N, A>()
    ensures { RenamedProgramsAreAlike C F M N A }
{}

/// A well-typed program and another that is its image have the same runs, where methods may have
/// gone up to superclasses, and dispatch is kept for each method's class and those below.
pub fn typed_images_are_alike<C, F, M, N, A>()
    ensures { TypedImagesAreAlike C F M N A }
{}

/// In a well-typed program each call and each constructor run that a well-made one makes is well
/// made: on a receiver of its class or a subclass, and with arguments of its types. A run that
/// ended has a value of the result's type.
pub fn types_are_kept<C, F, M, N, A>()
    ensures calls { CallsAreMadeWell C F M N A }
    ensures ends { EndsFit C F M N A }
{}

/// What the reordering grid allows of two traces it allows of them joined, and pieces of which all
/// pairs are free change places, whatever stands around them.
pub fn reorderings_join<C, F, M, N, A>()
    ensures joins { ReorderingsJoin C F M N A }
    ensures pieces { PiecesChangePlaces C F M N A }
{}

/// A program has the same whole and the same bounded runs, whether fuel is a depth or a budget of
/// which each call, each constructor run and each turn of a loop takes a unit, and hands on the
/// rest.
pub fn fuel_readings_agree<C, F, M, N, A>()
    ensures { FuelReadingsAgree C F M N A }
{}

/// A map that is one to one on a program's keys of one kind, `X`, is there one that is one to one
/// on all keys. What it keeps of the program's keys, `B`, that one keeps of all.
pub fn maps_of_old_keys_extend<X, B>()
    ensures maps { MapsExtend X }
    ensures kinds { KindsExtend X B }
{}

/// The image of a trace depends on the classes and fields alone that it names.
pub fn images_go_by_names<C, F, M, N, A>()
    ensures { ImagesByNames C F M N A }
{}
