//! A rename: whether it can be asked for.
ghost use Rattle.std.specs.Prelude.{◌≡◌, IfOk, OnErr};
ghost use Rattle.jr_names.specs.ReplyView.{reply_of};
ghost use Rattle.jr_names.specs.declared.steps.Step.TheVariants.{Rename};
ghost use Rattle.jr_session.specs.Stepping as pure;
ghost use Rattle.jr_session.specs.Work.{IsWithinWork};

use crate::edits::no_such_file;
use crate::plans::{Asked, RefactoringRequest};
use crate::sessions::Session;
use jr_ast::Name;
use jr_names::Reply;
use jr_sources::refusal_of_request;
use jr_steps::Steps;
use std::alloc::{AllocError, Global};
use std::sync::ledger::Ledger;

impl Session {
    /// What the identifier at the byte of the file declares or is bound to gets the name, wherever
    /// it stands (JLS 6).
    ///
    /// Want of memory leaves the session as it was, and so does a refusal.
    pub(crate) fn rename<L: Ledger>(
        &mut self,
        alloc: Global,
        file: &Name,
        at: u32,
        new: &Name,
        steps: &mut Steps<L>,
    ) -> Result<Reply, AllocError>
        ensures step { IfOk result (λ reply. pure.Steps self.old (Rename file.now at new.now)
            (reply_of reply) self.new) }
        ensures err { OnErr result (self.new ≡ self.old) }
        ensures work { IsWithinWork self.old (Rename file.now at new.now) steps.old steps.new }
    {
        let Some(number) = self.sources.find(file.as_str()) else {
            return no_such_file(alloc, file);
        };
        match refusal_of_request(alloc, file, self.sources.text(number), at, new) {
            Err(error) => Err(error),
            Ok(refusal) => match refusal {
                Some(refusal) => Ok(Reply::Refused(refusal)),
                None => {
                    let asked = Asked::Rename { at, new };
                    let request = &RefactoringRequest {
                        file,
                        number,
                        asked,
                    };
                    self.refactor_asked(alloc, request, steps)
                }
            },
        }
    }
}
