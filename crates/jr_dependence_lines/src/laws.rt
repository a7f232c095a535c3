//! Laws that no call's clause can carry.
ghost use Rattle.jr_dependence_lines.specs.LineLaws.{LargeIsOne, LinesAreOne, NeverBoth};

/// Written members have one list of lines, or one first member with too many sites, and never both.
pub fn lines_are_one()
    ensures lines { LinesAreOne }
    ensures large { LargeIsOne }
    ensures never_both { NeverBoth }
{}
