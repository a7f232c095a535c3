//! What holds behind the declaration of a local.
ghost use Rattle.jr_local_reads.specs.BehindLaws.{BodiesBeginBelow, LocalsHaveTheirNames, WaysGoOn};

/// A way from the list behind the nearest element of an expression is one of the list around it,
/// at the same place.
pub fn ways_go_on()
    ensures { WaysGoOn }
{}

/// Where a body begins, the numbers of parameters are below that of the next local (JLS 8.4.1).
pub fn bodies_begin_below()
    ensures { BodiesBeginBelow }
{}

/// A name behind a declaration of a local that finds the local is the declared one (JLS 6.3).
pub fn locals_have_their_names()
    ensures { LocalsHaveTheirNames }
{}
