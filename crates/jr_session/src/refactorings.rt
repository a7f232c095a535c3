//! The edits of a refactoring are made, and what they make is bound again.
ghost use Rattle.std.specs.Prelude.{◌≡◌, length, option_map, IfOk, OnErr};
ghost use Rattle.jr_names.specs.ReplyView.{reply_of};
ghost use Rattle.jr_names.specs.Refusals as refusals;
ghost use Rattle.jr_names.specs.Replies.{refused};
ghost use Rattle.jr_names.specs.SiteView.{pair_of};
ghost use Rattle.jr_sources.specs.Analysed.{CostsBinding, IsKeptAnalysis};
ghost use Rattle.jr_session.specs.Changes.{put_back, AreOfFiles};
ghost use Rattle.jr_session.specs.Making.{Fit};
ghost use Rattle.jr_session.specs.TableTells.{TellsTable};
ghost use Rattle.jr_session.specs.NewTexts.{with_edits};
ghost use Rattle.jr_session.specs.Refactoring.{IsChangedBy, IsTriedBy, IsRefactoredBy};
ghost use Rattle.jr_session.specs.Refactoring.{CostsRefactoring, loses};

use crate::changes::{Change, Earlier};
use crate::made::{Made, new_texts};
use crate::sessions::Session;
use crate::tries::{NewTexts, Tried, sources_are_program, try_texts};
use jr_ast::Name;
use jr_names::{DepPair, EditLists, Names, Refusal, Reply};
use jr_rename::After;
use jr_sources::{Analysis, SourceFault, text_has_one_reading};
use jr_steps::Steps;
use jr_text::Place;
use std::alloc::{AllocError, Global};
use std::sync::ledger::Ledger;

// The refusal of a refactoring because of what is first wrong with the new sources.
fn would_not_compile(alloc: Global, fault: SourceFault) -> Result<Reply, AllocError>
    ensures { IfOk result (λ reply. reply_of reply ≡ refused (refusals.would_not_compile
        (record { file = fault.file; at = fault.at }) fault.kind.now)) }
{
    let rule = Name::new(alloc, fault.kind)?;
    let at = Place {
        file: fault.file,
        at: fault.at,
    };
    Ok(Reply::Refused(Refusal::WouldNotCompile { at, rule }))
}

// The refusal of a refactoring because of the dependence that is lost.
fn lost_dependence(lost: DepPair) -> Reply
    ensures { reply_of result ≡ refused (loses (pair_of lost)) }
{
    let DepPair {
        kind,
        first,
        second,
    } = lost;
    Reply::Refused(Refusal::LostDependence {
        kind,
        first,
        second,
    })
}

/// Edits of each file, and how many references are respelled by them.
#[derive(Clone, Copy, Drop)]
pub(crate) struct PlannedEdits<'a> {
    pub edits: &'a EditLists,
    pub respelled: u32,
}

/// Texts that files of these names get, and how many references are respelled in them.
#[derive(Drop)]
pub(crate) struct NamedTexts {
    pub changes: Vec<Change>,
    pub names: Vec<Name>,
    pub respelled: u32,
}

/// What comes of texts that files get.
#[derive(Drop)]
pub(crate) enum Changed {
    /// This is first wrong with the sources that have them, and nothing changes.
    Wrong(SourceFault),
    /// They may not stay, and nothing changes.
    Crossed,
    /// The sources have them.
    Done,
}

impl Session {
    // Files get other texts in one step, unless something is wrong with the sources that have them,
    // or they may not stay.
    fn change_all<L: Ledger>(
        &mut self,
        alloc: Global,
        texts: NewTexts,
        after: &mut After,
        analysed: &mut Option<Analysis>,
        steps: &mut Steps<L>,
    ) -> Result<Changed, AllocError>
        requires files { AreOfFiles (length self.old.files) texts.changes.items }
        requires analysed { IsKeptAnalysis self.old.files analysed.old }
        requires told { TellsTable (put_back self.old.files texts.changes.items) analysed.old
            after.old }
        ensures step { IfOk result (λ changed. IsChangedBy self.old
            (put_back self.old.files texts.changes.items) texts.may_stay changed self.new) }
        ensures err { OnErr result (self.new ≡ self.old) }
        ensures work { CostsBinding (put_back self.old.files texts.changes.items) steps.old
            steps.new }
    {
        text_has_one_reading();
        self.undo.reserve(1)?;
        match try_texts(
            alloc,
            &mut self.sources,
            &mut self.readings,
            analysed,
            texts,
            after,
            steps,
        )? {
            Tried::Wrong(fault) => {
                self.analysed = analysed.take();
                Ok(Changed::Wrong(fault))
            }
            Tried::Crossed => {
                self.analysed = analysed.take();
                Ok(Changed::Crossed)
            }
            Tried::Sound { analysis, had } => {
                sources_are_program(&self.sources, &self.readings, &analysis);
                self.analysed = Some(analysis);
                self.undo.push_reserved(Earlier { changes: had });
                self.redo.clear();
                Ok(Changed::Done)
            }
        }
    }

    // Files of these names get other texts, unless something is wrong with the sources that have
    // them, or a dependence is lost.
    fn change_named<L: Ledger>(
        &mut self,
        alloc: Global,
        made: NamedTexts,
        lost: &mut Option<DepPair>,
        after: &mut After,
        analysed: &mut Option<Analysis>,
        steps: &mut Steps<L>,
    ) -> Result<Reply, AllocError>
        requires files { AreOfFiles (length self.old.files) made.changes.items }
        requires analysed { IsKeptAnalysis self.old.files analysed.old }
        requires told { TellsTable (put_back self.old.files made.changes.items) analysed.old
            after.old }
        ensures step { IfOk result (λ reply. IsTriedBy self.old
            (put_back self.old.files made.changes.items) made.names.items made.respelled
            (option_map pair_of lost.old) (reply_of reply) self.new) }
        ensures err { OnErr result (self.new ≡ self.old) }
        ensures work { CostsBinding (put_back self.old.files made.changes.items) steps.old
            steps.new }
    {
        let NamedTexts {
            changes,
            names,
            respelled,
        } = made;
        let may_stay = lost.is_none();
        let texts = NewTexts { changes, may_stay };
        match self.change_all(alloc, texts, after, analysed, steps)? {
            Changed::Wrong(fault) => would_not_compile(alloc, fault),
            Changed::Crossed => match lost.take() {
                Some(pair) => Ok(lost_dependence(pair)),
                None => unreachable!(),
            },
            Changed::Done => Ok(Reply::Refactored {
                files: Names::from_vec(names),
                respelled,
            }),
        }
    }

    /// The edits of each file are made, unless a text would be too long, something is wrong with
    /// the sources that have the new texts, or the plan loses a dependence (18, behind 20 and 17).
    ///
    /// `after` tells of the table of the sources that have the new texts, and `analysed` is what
    /// was analysed of the old ones: it is kept again behind a refusal, and of no use then.
    ///
    /// Want of memory leaves the session as it was, and so does a refusal.
    pub(crate) fn refactor<L: Ledger>(
        &mut self,
        alloc: Global,
        planned: &PlannedEdits<'_>,
        lost: &mut Option<DepPair>,
        after: &mut After,
        analysed: &mut Option<Analysis>,
        steps: &mut Steps<L>,
    ) -> Result<Reply, AllocError>
        requires fit { Fit self.old.files planned.now.edits.now }
        requires analysed { IsKeptAnalysis self.old.files analysed.old }
        requires told { TellsTable (with_edits self.old.files planned.now.edits.now) analysed.old
            after.old }
        ensures step { IfOk result (λ reply.
            IsRefactoredBy self.old planned.now.edits.now planned.now.respelled
            (option_map pair_of lost.old) (reply_of reply) self.new) }
        ensures err { OnErr result (self.new ≡ self.old) }
        ensures work { CostsRefactoring self.old.files planned.now.edits.now steps.old steps.new }
    {
        match new_texts(alloc, &self.sources, planned.edits.as_slice())? {
            Made::TooLong { len } => {
                self.analysed = analysed.take();
                Ok(Reply::Refused(Refusal::TooLong { len }))
            }
            Made::Changes { changes, names } => {
                let made = NamedTexts {
                    changes,
                    names,
                    respelled: planned.respelled,
                };
                self.change_named(alloc, made, lost, after, analysed, steps)
            }
        }
    }
}
