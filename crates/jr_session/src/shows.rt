//! What is shown of a file.
ghost use Rattle.std.specs.Prelude.{◌≡◌, ℕ, ◌+◌, ◌<◌, List, length, IfOk, IfSome, OnErr};
ghost use Rattle.jr_names.specs.ReplyView.{reply_of};
ghost use Rattle.jr_names.specs.Replies.{refused};
ghost use Rattle.jr_names.specs.Refusals as refusals;
ghost use Rattle.jr_names.specs.declared.steps.Step.TheVariants.{Show};
ghost use Rattle.jr_names.specs.declared.steps.What.TheVariants.{Bindings};
ghost use Rattle.jr_lines.specs.Lines.{bytes_of};
ghost use Rattle.jr_sources.specs.Analysed.{IsKeptAnalysis, IsFilled};
ghost use Rattle.jr_session.specs.Lines.{AreLineTexts};
ghost use Rattle.jr_session.specs.Shows.{shown_limit};
ghost use Rattle.jr_sources.specs.KeptReadings.{AreReadings};
ghost use Rattle.jr_sources.specs.Sources.{AreSources, HasName, texts_of};
ghost use Rattle.jr_session.specs.Stepping as pure;
ghost use Rattle.jr_session.specs.Work.{IsWithinWork};

use crate::edits::no_such_file;
use crate::laws::step_has_one_answer;
use crate::sessions::Session;
use jr_ast::Name;
use jr_lex::one_answer;
use jr_lines::file_lines;
use jr_names::{Lines, Refusal, Reply};
use jr_program::members_of_file;
use jr_sources::{Analysis, Readings, SourceFault, Sources, keep_analysis, text_has_one_reading};
use jr_steps::Steps;
use std::alloc::{AllocError, Global};
use std::sync::ledger::Ledger;

/// How many bytes of lines a session shows at most.
pub const MAX_SHOWN_LEN: u64 = 8_388_608;

/// The refusal of a step because of what is wrong with the sources.
pub(crate) fn source_error(
    alloc: Global,
    sources: &Sources,
    fault: SourceFault,
) -> Result<Reply, AllocError>
    requires { fault.file < length sources.now }
    ensures { IfOk result (λ reply. (name : List ℕ) × HasName sources.now fault.file name
        × (reply_of reply ≡ refused (refusals.source_error name fault.at fault.kind.now))) }
{
    let file = Name::new(alloc, sources.name(fault.file).unwrap())?;
    let kind = Name::new(alloc, fault.kind)?;
    Ok(Reply::Refused(Refusal::SourceError {
        file,
        at: fault.at,
        kind,
    }))
}

// The lines of a file, by its tokens and what was analysed.
fn lines_of(
    alloc: Global,
    sources: &Sources,
    readings: &Readings,
    kept: &Option<Analysis>,
    number: u32,
) -> Result<Vec<Name>, AllocError>
    requires readings { AreReadings (texts_of sources.now) readings.now }
    requires kept { IsKeptAnalysis sources.now kept.now }
    requires filled { IsFilled kept.now }
    requires number { number < length sources.now }
    ensures { IfOk result (λ lines. AreLineTexts sources.now number lines.items) }
{
    text_has_one_reading();
    one_answer();
    match kept {
        None => unreachable!(),
        Some(analysis) => {
            let tokens = &readings.tokens[number as usize];
            let members = members_of_file(analysis.members.as_slice(), number);
            file_lines(alloc, sources.text(number), tokens, number, members)
        }
    }
}

// How many bytes were shown with these lines, if they can be counted: more are more than memory
// holds.
fn shown_with(shown: u64, lines: &[Name]) -> Option<u64>
    ensures { IfSome result (λ len. len ≡ shown + bytes_of lines.now) }
{
    let mut len = shown;
    for line in lines {
        len = len.checked_add(line.as_str().len() as u64)?;
    }
    Some(len)
}

impl Session {
    /// The lines of the file's bindings: each reference that is bound, with its declaration, and
    /// each rule that is broken, by place.
    ///
    /// Want of memory leaves the session as it was, and so does a refusal.
    pub(crate) fn show<L: Ledger>(
        &mut self,
        alloc: Global,
        file: &Name,
        steps: &mut Steps<L>,
    ) -> Result<Reply, AllocError>
        ensures step { IfOk result (λ reply.
            pure.Steps self.old (Show file.now Bindings) (reply_of reply) self.new) }
        ensures err { OnErr result (self.new ≡ self.old) }
        ensures work { IsWithinWork self.old (Show file.now Bindings) steps.old steps.new }
    {
        text_has_one_reading();
        step_has_one_answer();
        let Some(number) = self.sources.find(file.as_str()) else {
            return no_such_file(alloc, file);
        };
        let found = keep_analysis(
            alloc,
            &self.sources,
            &self.readings,
            &mut self.analysed,
            steps,
        )?;
        if let Some(fault) = found {
            return source_error(alloc, &self.sources, fault);
        }
        let lines = lines_of(alloc, &self.sources, &self.readings, &self.analysed, number)?;
        let Some(len) = shown_with(self.shown, lines.as_slice()) else {
            return Err(AllocError);
        };
        if len > MAX_SHOWN_LEN {
            return Ok(Reply::Refused(Refusal::ReportFull { len }));
        }
        self.shown = len;
        Ok(Reply::Shown(Lines::from_vec(lines)))
    }
}
