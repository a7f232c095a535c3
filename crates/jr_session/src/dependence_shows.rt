//! What is shown of the dependences in a file.
ghost use Rattle.std.specs.Prelude.{◌≡◌, ◌<◌, length, IfOk, OnErr};
ghost use Rattle.jr_names.specs.ReplyView.{reply_of};
ghost use Rattle.jr_names.specs.declared.steps.Step.TheVariants.{Show};
ghost use Rattle.jr_names.specs.declared.steps.What.TheVariants.{Dependences};
ghost use Rattle.jr_sources.specs.Analysed.{IsAnalysis, IsFilled, IsKeptAnalysis};
ghost use Rattle.jr_sources.specs.KeptReadings.{AreReadings};
ghost use Rattle.jr_sources.specs.Sources.{AreSources, texts_of};
ghost use Rattle.jr_session.specs.Shows.{IsDependenceShow, shown_limit};
ghost use Rattle.jr_session.specs.Stepping as pure;
ghost use Rattle.jr_session.specs.Work.{IsWithinWork};

use crate::edits::no_such_file;
use crate::laws::step_has_one_answer;
use crate::sessions::Session;
use crate::shows::{MAX_SHOWN_LEN, source_error};
use jr_ast::Name;
use jr_dependence_lines::{Shown, dependence_lines};
use jr_lex::one_answer;
use jr_members::{WrittenMember, members_are_written, written_members};
use jr_names::{Lines, Refusal, Reply};
use jr_sources::{Analysis, Readings, Sources, keep_analysis, text_has_one_reading};
use jr_steps::Steps;
use jr_text::Span;
use std::alloc::{AllocError, Global};
use std::sync::ledger::Ledger;

fn forget_written(_written: Vec<WrittenMember<'_, Span>>) {}

// What comes of a show, by what was analysed, with so many bytes shown before it.
fn analysed_dependences(
    alloc: Global,
    sources: &Sources,
    readings: &Readings,
    analysis: &Analysis,
    number: u32,
    before: u64,
) -> Result<Shown, AllocError>
    requires valid { AreSources sources.now }
    requires readings { AreReadings (texts_of sources.now) readings.now }
    requires analysis { IsAnalysis sources.now analysis.now }
    requires number { number < length sources.now }
    ensures { IfOk result (IsDependenceShow sources.now number before) }
{
    text_has_one_reading();
    one_answer();
    members_are_written::<Span>();
    analysis.table.keeps_rows();
    let written = written_members(alloc, &analysis.table, readings.units.as_slice())?;
    let bounds = analysis.members.as_slice();
    let shown = dependence_lines(
        alloc,
        &analysis.table,
        number,
        &written,
        bounds,
        before,
        MAX_SHOWN_LEN,
    );
    forget_written(written);
    shown
}

// The same, by what was kept.
fn dependences_of(
    alloc: Global,
    sources: &Sources,
    readings: &Readings,
    kept: &Option<Analysis>,
    number: u32,
    before: u64,
) -> Result<Shown, AllocError>
    requires valid { AreSources sources.now }
    requires readings { AreReadings (texts_of sources.now) readings.now }
    requires kept { IsKeptAnalysis sources.now kept.now }
    requires filled { IsFilled kept.now }
    requires number { number < length sources.now }
    ensures { IfOk result (IsDependenceShow sources.now number before) }
{
    match kept {
        None => unreachable!(),
        Some(analysis) => {
            analysed_dependences(alloc, sources, readings, analysis, number, before)
        }
    }
}

impl Session {
    /// The lines of the dependences in the file: of each member in text order which of its sites
    /// depend on which.
    ///
    /// Nothing is kept of it but how many bytes were shown. Want of memory leaves the session as it
    /// was, and so does a refusal.
    pub(crate) fn show_dependences<L: Ledger>(
        &mut self,
        alloc: Global,
        file: &Name,
        steps: &mut Steps<L>,
    ) -> Result<Reply, AllocError>
        ensures step { IfOk result (λ reply.
            pure.Steps self.old (Show file.now Dependences) (reply_of reply) self.new) }
        ensures err { OnErr result (self.new ≡ self.old) }
        ensures work { IsWithinWork self.old (Show file.now Dependences) steps.old steps.new }
    {
        text_has_one_reading();
        step_has_one_answer();
        let Some(number) = self.sources.find(file.as_str()) else {
            return no_such_file(alloc, file);
        };
        let found = keep_analysis(
            alloc,
            &self.sources,
            &self.readings,
            &mut self.analysed,
            steps,
        )?;
        if let Some(fault) = found {
            return source_error(alloc, &self.sources, fault);
        }
        let before = self.shown;
        let shown = dependences_of(
            alloc,
            &self.sources,
            &self.readings,
            &self.analysed,
            number,
            before,
        )?;
        match shown {
            Shown::TooManySites { member, count } => {
                Ok(Reply::Refused(Refusal::TooManySites { member, count }))
            }
            Shown::Lines { texts, len } => {
                if len > MAX_SHOWN_LEN {
                    return Ok(Reply::Refused(Refusal::ReportFull { len }));
                }
                self.shown = len;
                Ok(Reply::Shown(Lines::from_vec(texts)))
            }
        }
    }
}
