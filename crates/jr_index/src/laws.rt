//! Laws that no call's clause can carry.
ghost use Rattle.std.specs.Prelude.{ℕ, List, Option};
ghost use Rattle.jr_index.specs.Parents.{AreWithin, ComesEarly};

/// What a way upwards ever comes to, it comes to in fewer steps than there are numbers.
pub fn ways_come_early()
    ensures { (parents : List (Option ℕ)) (n : ℕ) → AreWithin parents n → ComesEarly parents n }
{}
