//! Laws that no call's clause can carry.
ghost use Rattle.jr_lines.specs.LineLaws.{OneInOrder};

/// Lines stand in one order: two lists in order that have the same lines are one.
pub fn lines_are_told()
    ensures { OneInOrder }
{}
