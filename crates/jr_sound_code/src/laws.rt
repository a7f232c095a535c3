//! The laws, each the contract of a function that does nothing.
ghost use Rattle.jr_sound_code.specs.Laws.{
  ProgramsHaveCode,
  CodeOfProgramsIsOne,
  SoundProgramsAreWellTyped,
  SoundRunsFit,
};

use jr_code::code_is_one;
use jr_members::members_are_written;
use jr_program_laws::parts_are_placed;
use jr_table::lookups_are_exact;
use jr_text::Span;

/// Each program without faults and without members that break a rule has resolved code: what breaks
/// no rule is bound, what is found is of its sort, and operators are ones that there are. It has
/// just one.
pub fn programs_have_code()
    ensures code { ProgramsHaveCode }
    ensures one { CodeOfProgramsIsOne }
{
    code_is_one::<Span>();
    members_are_written::<Span>();
    parts_are_placed();
    lookups_are_exact();
}

/// Any code of such a program is well typed: each call and constructor run is made on a receiver of
/// its class and arguments of its types, each local that is read has been set, what is returned is
/// of the result's type, and a member with a result doesn't complete without one.
pub fn sound_programs_are_well_typed()
    ensures { SoundProgramsAreWellTyped }
{
    members_are_written::<Span>();
    parts_are_placed();
    lookups_are_exact();
}

/// Runs of such a program's code fit: calls are made on receivers and arguments that fit, and their
/// answers fit. No run is cut as ill typed but by an answer from outside that doesn't fit what is
/// asked for; with one that fits it would go on.
pub fn sound_runs_fit()
    ensures { SoundRunsFit }
{
    sound_programs_are_well_typed();
}
