//! Laws on scripts.

ghost use Rattle.jr_script.specs.ScriptLaws.{MeansOneList, ScriptHasNoFault, HasOneFault};

/// Bytes have one answer at most beside want of memory: one list of steps, or one fault, and never
/// both.
pub fn script_has_one_answer()
    ensures one_list { MeansOneList }
    ensures no_fault { ScriptHasNoFault }
    ensures one_fault { HasOneFault }
{}
