//! Extract local: whether it can be asked for.
ghost use Rattle.std.specs.Prelude.{◌≡◌, ◌↔◌, [], ◌∷◌, IfOk, IsTrue, MatchOption, OnErr, Some};
ghost use Rattle.jr_lex.specs.Replacing.{IsName};
ghost use Rattle.jr_names.specs.Refusals as refusals;
ghost use Rattle.jr_names.specs.RefusalView.{refusal_of};
ghost use Rattle.jr_names.specs.ReplyView.{reply_of};
ghost use Rattle.jr_names.specs.declared.steps.Step.TheVariants.{ExtractLocal};
ghost use Rattle.jr_sources.specs.Asking.{CanStand};
ghost use Rattle.jr_session.specs.Requests.{AreGoodPlaces, CannotBeAsked};
ghost use Rattle.jr_session.specs.Stepping as pure;
ghost use Rattle.jr_session.specs.Work.{IsWithinWork};

use crate::edits::no_such_file;
use crate::plans::{Asked, RefactoringRequest};
use crate::sessions::Session;
use jr_ast::Name;
use jr_names::{Refusal, Reply};
use jr_sources::refusal_of_request;
use jr_steps::Steps;
use jr_text::{Span, Text};
use std::alloc::{AllocError, Global};
use std::sync::ledger::Ledger;

// Whether a character begins there, or the text ends.
fn can_stand(text: &Text, at: u32) -> bool
    ensures { IsTrue result ↔ CanStand text.now at }
{
    text.can_cut(Span { from: at, to: at })
}

// An offset is bad.
fn bad_place(alloc: Global, file: &Name, at: u32) -> Result<Option<Refusal>, AllocError>
    ensures { IfOk result
        (λ found. MatchOption found ⊥ (λ r. refusal_of r ≡ refusals.bad_place file.now at)) }
{
    let file = Name::new(alloc, file.as_str())?;
    Ok(Some(Refusal::BadPlace { file, at }))
}

/// Why a refactoring of a span of a file is refused before its sources are analysed: an offset is
/// past the text's end or inside a character, the first such, or else the second is before the
/// first, which is told (`BadPlace`); or else the new name is no identifier (`BadName`) (JLS 3.8).
fn refusal_of_span(
    alloc: Global,
    file: &Name,
    text: &Text,
    from: u32,
    to: u32,
    new: &Name,
) -> Result<Option<Refusal>, AllocError>
    ensures { IfOk result (λ found. MatchOption found
        (AreGoodPlaces text.now (from ∷ to ∷ []) × IsName new.now)
        (λ r. CannotBeAsked file.now text.now (from ∷ to ∷ []) (Some new.now) (refusal_of r))) }
{
    if !can_stand(text, from) {
        return bad_place(alloc, file, from);
    }
    if from <= to {
        return refusal_of_request(alloc, file, text, to, new);
    }
    if can_stand(text, to) {
        return bad_place(alloc, file, from);
    }
    refusal_of_request(alloc, file, text, to, new)
}

impl Session {
    /// The expression of exactly these bytes of the file becomes the initializer of a local of the
    /// name, declared in front of the nearest statement of a list that holds it (JLS 14.4).
    ///
    /// Want of memory leaves the session as it was, and so does a refusal.
    pub(crate) fn extract_local<L: Ledger>(
        &mut self,
        alloc: Global,
        file: &Name,
        from: u32,
        to: u32,
        name: &Name,
        steps: &mut Steps<L>,
    ) -> Result<Reply, AllocError>
        ensures step { IfOk result (λ reply. pure.Steps self.old
            (ExtractLocal file.now from to name.now) (reply_of reply) self.new) }
        ensures err { OnErr result (self.new ≡ self.old) }
        ensures work { IsWithinWork self.old (ExtractLocal file.now from to name.now) steps.old
            steps.new }
    {
        let Some(number) = self.sources.find(file.as_str()) else {
            return no_such_file(alloc, file);
        };
        match refusal_of_span(alloc, file, self.sources.text(number), from, to, name) {
            Err(error) => Err(error),
            Ok(refusal) => match refusal {
                Some(refusal) => Ok(Reply::Refused(refusal)),
                None => {
                    let asked = Asked::ExtractLocal { from, to, name };
                    let request = &RefactoringRequest {
                        file,
                        number,
                        asked,
                    };
                    self.refactor_asked(alloc, request, steps)
                }
            },
        }
    }
}
