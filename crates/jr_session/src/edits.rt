//! Edits of a file, undoing and redoing.
ghost use Rattle.std.specs.Prelude.{◌≡◌, IfOk, OnErr, IsOk, [], ◌∷◌};
ghost use Rattle.jr_names.specs.ReplyView.{reply_of};
ghost use Rattle.jr_names.specs.Replies.{refused};
ghost use Rattle.jr_names.specs.Refusals.{no_such_file as missing};
ghost use Rattle.jr_names.specs.declared.steps.Step.TheVariants.{Edit, Undo, Redo};
ghost use Rattle.jr_session.specs.Refusing.{CutsBadly};
ghost use Rattle.jr_session.specs.Stepping.{Steps};

use crate::changes::Change;
use crate::sessions::Session;
use crate::splices::{Spliced, splice};
use crate::turns::{change, turn_back};
use jr_ast::Name;
use jr_names::{Refusal, Reply};
use jr_text::{Span, Text};
use std::alloc::{AllocError, Global};

/// The refusal of a step of a file that isn't there.
pub(crate) fn no_such_file(alloc: Global, file: &Name) -> Result<Reply, AllocError>
    ensures { IfOk result (λ reply. reply_of reply ≡ refused (missing file.now)) }
{
    let name = Name::new(alloc, file.as_str())?;
    Ok(Reply::Refused(Refusal::NoSuchFile { name }))
}

// The change of one file.
fn single(alloc: Global, file: u32, text: Text) -> Result<Vec<Change>, AllocError>
    ensures { IfOk result (λ changes. changes.items
        ≡ record { file = file; text = text } ∷ []) }
{
    let mut changes = Vec::new(alloc);
    changes.push(Change { file, text })?;
    Ok(changes)
}

impl Session {
    /// The bytes of the file at `from` up to and without `to` become the text.
    ///
    /// Want of memory leaves the session as it was, and so does a refusal.
    pub fn edit(
        &mut self,
        alloc: Global,
        file: &Name,
        from: u32,
        to: u32,
        text: &Name,
    ) -> Result<Reply, AllocError>
        ensures step { IfOk result (λ reply.
            Steps self.old (Edit file.now from to text.now) (reply_of reply) self.new) }
        ensures err { OnErr result (self.new ≡ self.old) }
        // A span that can't be cut is refused without memory.
        ensures bad_span { CutsBadly self.old (Edit file.now from to text.now) from to
            → IsOk result }
    {
        match self.sources.find(file.as_str()) {
            None => no_such_file(alloc, file),
            Some(number) => {
                let span = Span { from, to };
                match splice(alloc, &self.sources, number, span, text.as_str())? {
                    Spliced::BadSpan => Ok(Reply::Refused(Refusal::BadSpan { from, to })),
                    Spliced::TooLong { len } => Ok(Reply::Refused(Refusal::TooLong { len })),
                    Spliced::Text(new) => {
                        let changes = single(alloc, number, new)?;
                        change(
                            alloc,
                            &mut self.sources,
                            &mut self.readings,
                            &mut self.undo,
                            &mut self.redo,
                            changes,
                        )?;
                        self.analysed = None;
                        Ok(Reply::Edited)
                    }
                }
            }
        }
    }

    /// The texts are again those before the last change.
    ///
    /// Want of memory leaves the session as it was, and so does a refusal.
    pub fn undo(&mut self, alloc: Global) -> Result<Reply, AllocError>
        ensures step { IfOk result (λ reply. Steps self.old Undo (reply_of reply) self.new) }
        ensures err { OnErr result (self.new ≡ self.old) }
        // Where nothing can be undone no memory is wanted.
        ensures nothing { self.old.undo ≡ [] → IsOk result }
    {
        let turned = turn_back(
            alloc,
            &mut self.sources,
            &mut self.readings,
            &mut self.undo,
            &mut self.redo,
        )?;
        if !turned {
            return Ok(Reply::Refused(Refusal::NothingToUndo));
        }
        self.analysed = None;
        Ok(Reply::Undone)
    }

    /// The texts are again those before the last undoing.
    ///
    /// Want of memory leaves the session as it was, and so does a refusal.
    pub fn redo(&mut self, alloc: Global) -> Result<Reply, AllocError>
        ensures step { IfOk result (λ reply. Steps self.old Redo (reply_of reply) self.new) }
        ensures err { OnErr result (self.new ≡ self.old) }
        // Where nothing can be redone no memory is wanted.
        ensures nothing { self.old.redo ≡ [] → IsOk result }
    {
        let turned = turn_back(
            alloc,
            &mut self.sources,
            &mut self.readings,
            &mut self.redo,
            &mut self.undo,
        )?;
        if !turned {
            return Ok(Reply::Refused(Refusal::NothingToRedo));
        }
        self.analysed = None;
        Ok(Reply::Redone)
    }
}
