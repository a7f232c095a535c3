//! The law of flags. `C`, `F`, `M` and `N` are keys of classes, fields, methods and constructors,
//! `L` places, `A` marks.
ghost use Rattle.jr_never_null.specs.Flags.{FlagsTellNeverNull};

/// By the flags of locals, which are made in the order of their numbers by the flags before them,
/// exactly those expressions are never null that the rules say.
pub fn flags_tell_never_null<C, F, M, N, L, A>()
    ensures { FlagsTellNeverNull C F M N L A }
{}
