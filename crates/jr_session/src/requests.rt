//! A refactoring that can be asked for: planned, made, and bound again.
ghost use Rattle.std.specs.Prelude.{◌≡◌, IfOk, OnErr};
ghost use Rattle.jr_names.specs.ReplyView.{reply_of};
ghost use Rattle.jr_rename.specs.declared.afters.After.TheVariants.{Unknown};
ghost use Rattle.jr_session.specs.RequestView.{AsksFor, step_of};
ghost use Rattle.jr_session.specs.Stepping as pure;
ghost use Rattle.jr_session.specs.Work.{IsWithinWork};

use crate::laws::plans_read;
use crate::plans::{Planned, RefactoringRequest, plan_refactoring};
use crate::refactorings::PlannedEdits;
use crate::sessions::Session;
use crate::shows::source_error;
use jr_names::{DepPair, Reply};
use jr_rename::After;
use jr_sources::{Analysis, forget_known, text_has_one_reading};
use jr_steps::Steps;
use std::alloc::{AllocError, Global};
use std::sync::ledger::Ledger;

// Lets go what isn't taken.
fn forget(after: After) {
    match after {
        After::Unknown => {}
        After::Same => {}
        After::Images(table) => forget_known(Some(table)),
        After::Maybe(table) => forget_known(Some(table)),
    }
}

fn forget_analysis(_analysed: Option<Analysis>) {}

fn forget_pair(_lost: Option<DepPair>) {}

impl Session {
    /// A refactoring is done, where the file is there, the offsets can stand in it, and the name is
    /// an identifier.
    ///
    /// Want of memory leaves the session as it was, and so does a refusal.
    pub(crate) fn refactor_asked<L: Ledger>(
        &mut self,
        alloc: Global,
        request: &RefactoringRequest<'_>,
        steps: &mut Steps<L>,
    ) -> Result<Reply, AllocError>
        requires { AsksFor self.old request.now }
        ensures step { IfOk result (λ reply. pure.Steps self.old (step_of request.now)
            (reply_of reply) self.new) }
        ensures err { OnErr result (self.new ≡ self.old) }
        ensures work { IsWithinWork self.old (step_of request.now) steps.old steps.new }
    {
        let mut after = After::Unknown;
        let reply = self.refactor_by(alloc, request, &mut after, steps);
        forget(after);
        reply
    }

    // The same. To `after` goes what the plan knows of the new sources' table.
    fn refactor_by<L: Ledger>(
        &mut self,
        alloc: Global,
        request: &RefactoringRequest<'_>,
        after: &mut After,
        steps: &mut Steps<L>,
    ) -> Result<Reply, AllocError>
        requires asks { AsksFor self.old request.now }
        requires blank { after.old ≡ Unknown }
        ensures step { IfOk result (λ reply. pure.Steps self.old (step_of request.now)
            (reply_of reply) self.new) }
        ensures err { OnErr result (self.new ≡ self.old) }
        ensures work { IsWithinWork self.old (step_of request.now) steps.old steps.new }
    {
        text_has_one_reading();
        plans_read();
        let _count = self.sources.count();
        let planned = plan_refactoring(
            alloc,
            &self.sources,
            &self.readings,
            &mut self.analysed,
            request,
            after,
            steps,
        )?;
        match planned {
            Planned::Wrong(fault) => source_error(alloc, &self.sources, fault),
            Planned::Refused(refusal) => Ok(Reply::Refused(refusal)),
            Planned::Edits {
                edits,
                respelled,
                lost,
            } => {
                let mut analysed = self.analysed.take();
                let mut lost = lost;
                let made = &PlannedEdits {
                    edits: &edits,
                    respelled,
                };
                let reply = self.refactor(alloc, made, &mut lost, after, &mut analysed, steps);
                forget_analysis(analysed);
                forget_pair(lost);
                reply
            }
        }
    }
}
