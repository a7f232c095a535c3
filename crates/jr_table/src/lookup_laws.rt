//! Laws of lookup that no call's clause can carry.
ghost use Rattle.jr_table.specs.LookupLaws.{NumbersFound, KeysFound, OneAnswer};

/// Of the rows of a program, each relation of lookup holds of exactly what its function gives, by
/// numbers and by keys, and each question has one answer.
pub fn lookups_are_exact()
    ensures numbers { NumbersFound }
    ensures keys { KeysFound }
    ensures one { OneAnswer }
{}
