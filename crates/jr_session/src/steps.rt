//! A step of a session goes to the call that answers it.
ghost use Rattle.std.specs.Prelude.{◌≡◌, IfOk, OnErr, IsOk};
ghost use Rattle.jr_names.specs.Refusals.{Refusal};
ghost use Rattle.jr_names.specs.ReplyView.{reply_of};
ghost use Rattle.jr_session.specs.Promises.{Promises};
ghost use Rattle.jr_session.specs.Refusing.{IsFirstRefusal};
ghost use Rattle.jr_session.specs.Serving.{IsServed, WantsNoMemory};
ghost use Rattle.jr_session.specs.Stepping as pure;
ghost use Rattle.jr_session.specs.Work.{IsWithinWork};

use crate::laws::accepted_refactorings_keep_programs;
use crate::sessions::Session;
use jr_names::{Reply, Step, What};
use jr_steps::Steps;
use std::alloc::{AllocError, Global};
use std::sync::ledger::Ledger;

impl Session {
    /// What the session answers to a step, and is behind it.
    ///
    /// A refusal leaves the session as it was, and so does want of memory. `steps` counts the
    /// members that are bound.
    pub fn step<L: Ledger>(
        &mut self,
        alloc: Global,
        of: &Step,
        steps: &mut Steps<L>,
    ) -> Result<Reply, AllocError>
        requires { IsServed of.now }
        ensures step { IfOk result (λ reply. pure.Steps self.old of.now (reply_of reply) self.new) }
        // A refactoring that isn't refused leaves a program again, and keeps of the one before what
        // it promises.
        ensures promises { IfOk result (λ reply.
            Promises self.old of.now (reply_of reply) self.new) }
        ensures err { OnErr result (self.new ≡ self.old) }
        // A span that can't be cut, and that nothing can be undone or redone, is told without
        // memory.
        ensures without_memory { (refusal : Refusal) → WantsNoMemory refusal
            → IsFirstRefusal self.old of.now refusal → IsOk result }
        ensures work { IsWithinWork self.old of.now steps.old steps.new }
    {
        accepted_refactorings_keep_programs();
        self.answer(alloc, of, steps)
    }

    // The same, but for what is promised of the program.
    fn answer<L: Ledger>(
        &mut self,
        alloc: Global,
        of: &Step,
        steps: &mut Steps<L>,
    ) -> Result<Reply, AllocError>
        requires { IsServed of.now }
        ensures step { IfOk result (λ reply. pure.Steps self.old of.now (reply_of reply) self.new) }
        ensures err { OnErr result (self.new ≡ self.old) }
        ensures without_memory { (refusal : Refusal) → WantsNoMemory refusal
            → IsFirstRefusal self.old of.now refusal → IsOk result }
        ensures work { IsWithinWork self.old of.now steps.old steps.new }
    {
        match of {
            Step::Edit {
                file,
                from,
                to,
                text,
            } => self.edit(alloc, file, *from, *to, text),
            Step::Undo => self.undo(alloc),
            Step::Redo => self.redo(alloc),
            Step::Show { file, what } => match what {
                What::Bindings => self.show(alloc, file, steps),
                What::Dependences => self.show_dependences(alloc, file, steps),
            },
            Step::Rename { file, at, name } => self.rename(alloc, file, *at, name, steps),
            Step::ExtractLocal {
                file,
                from,
                to,
                name,
            } => self.extract_local(alloc, file, *from, *to, name, steps),
            Step::ExtractMethod { .. } => unreachable!(),
            Step::InlineLocal { .. } => unreachable!(),
            Step::InlineMethod { .. } => unreachable!(),
            Step::PullUp { .. } => unreachable!(),
            Step::MoveStatic { .. } => unreachable!(),
            Step::MoveInstance { .. } => unreachable!(),
        }
    }
}
