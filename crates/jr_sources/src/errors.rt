//! What is wrong with analysed sources: the first rule that a member breaks.
ghost use Rattle.std.specs.Prelude.{MatchOption};
ghost use Rattle.jr_sources.specs.Analysed.{IsAnalysis, IsSourceWrong};
ghost use Rattle.jr_sources.specs.BindingErrors.{AreSound, IsFirst};
ghost use Rattle.jr_sources.specs.Broken.{SomeErrs};

use crate::analyses::{Analysis, SourceFault};
use crate::broken::{Broken, first_broken};
use crate::reading_laws::text_has_one_reading;
use crate::sources::Sources;
use jr_lex::{items_are_placed, one_answer};

// The first of all as a fault, with its rule's name.
fn fault_of_first(sources: &Sources, analysis: &Analysis, broken: Broken) -> SourceFault
    requires analysis { IsAnalysis sources.now analysis.now }
    requires first { IsFirst (SomeErrs analysis.now.members.items) broken.file broken.at
        broken.rule }
    ensures { IsSourceWrong sources.now result }
{
    text_has_one_reading();
    one_answer();
    items_are_placed();
    let _len = sources.text(broken.file).len();
    SourceFault {
        file: broken.file,
        at: broken.at as u32,
        kind: broken.rule.name(),
    }
}

/// The first rule that a member of analysed sources breaks, by file, place and rule, with the
/// rule's name (JLS 6, 8, 14, 15).
pub fn first_error(sources: &Sources, analysis: &Analysis) -> Option<SourceFault>
    requires { IsAnalysis sources.now analysis.now }
    ensures { MatchOption result (AreSound sources.now) (IsSourceWrong sources.now) }
{
    text_has_one_reading();
    one_answer();
    match first_broken(analysis.members.as_slice()) {
        None => None,
        Some(broken) => Some(fault_of_first(sources, analysis, broken)),
    }
}
