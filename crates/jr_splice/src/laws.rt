//! What holds of texts that are made of parts.
ghost use Rattle.jr_splice.specs.Parts.{PartsSpell};

/// Parts of texts that may meet spell what they spelled, one behind the other.
pub fn parts_spell()
    ensures { PartsSpell }
{}
