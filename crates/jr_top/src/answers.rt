//! What a rename in a file puts: the session of the one file takes the one step.
ghost use Rattle.std.specs.Prelude.{◌≡◌, [], ◌∷◌, true, false, Ok, IfOk, string_bytes};
ghost use Rattle.jr_names.specs.RefusalView.{refusal_of};
ghost use Rattle.jr_names.specs.ReplyView.{reply_of};
ghost use Rattle.jr_script.specs.RefusalTexts.{ArePlacesIn, places_of};
ghost use Rattle.jr_script.specs.Reports.{reply_places};
ghost use Rattle.jr_sources.specs.Sources.{IsFile, names_of};
ghost use Rattle.jr_sources.specs.SourceView.{sources_of};
ghost use Rattle.jr_session.specs.Promises.{Promises};
ghost use Rattle.jr_session.specs.Stepping.{Steps};
ghost use Rattle.jr_top.specs.Lines.{refusal_line as line_of};
ghost use Rattle.jr_top.specs.Renames.{IsAnswered, IsPutFor, opened};

use crate::lines::refusal_line;
use crate::replies::{kept, take_step};
use jr_ast::Name;
use jr_names::{Refusal, Reply, Step};
use jr_session::Session;
use jr_text::Text;
use std::alloc::{AllocError, Global};

/// What a rename puts, and whether it is the line of a refusal.
#[derive(Drop)]
pub(crate) struct Answer {
    pub refused: bool,
    pub output: String,
}

/// The new text of the file, or the line of the refusal.
pub(crate) fn answer_of(
    alloc: Global,
    file: &str,
    source: Text,
    at: u32,
    name: &str,
) -> Result<Answer, AllocError>
    ensures { IfOk result (λ answer. IsAnswered file.now source at name.now answer.refused
        (string_bytes answer.output)) }
{
    let mut session = begin_with(alloc, file, source)?;
    let reply = rename_in(alloc, &mut session, file, at, name)?;
    let answer = answer_to(alloc, file, &session, &reply);
    kept(answer, reply)
}

// The one file, under its name.
fn one_file(alloc: Global, file: &str, source: Text) -> Result<Vec<(String, Text)>, AllocError>
    ensures { IfOk result (λ files. sources_of files.items
        ≡ record { name = file.now; text = source } ∷ []) }
{
    let name = String::from_str(alloc, file)?;
    let mut files = Vec::with_capacity(alloc, 1)?;
    files.push_reserved((name, source));
    Ok(files)
}

// The session of the one file.
fn begin_with(alloc: Global, file: &str, source: Text) -> Result<Session, AllocError>
    ensures { IfOk result (λ session. session ≡ opened file.now source) }
{
    let files = one_file(alloc, file, source)?;
    // It is one file, of no more bytes than a text has: what is left is want of memory.
    or_memory(Session::begin(alloc, files))
}

// Any fault is told as want of memory.
fn or_memory<T, E: Drop>(made: Result<T, E>) -> Result<T, AllocError>
    ensures { IfOk result (λ value. made ≡ Ok value) }
{
    match made {
        Ok(value) => Ok(value),
        Err(fault) => {
            drop(fault);
            Err(AllocError)
        }
    }
}

// What the session answers to the one step.
fn rename_in(
    alloc: Global,
    session: &mut Session,
    file: &str,
    at: u32,
    name: &str,
) -> Result<Reply, AllocError>
    ensures step { IfOk result (λ reply.
        Steps session.old (Step.Rename file.now at name.now) (reply_of reply) session.new) }
    ensures promises { IfOk result (λ reply.
        Promises session.old (Step.Rename file.now at name.now) (reply_of reply) session.new) }
{
    match rename_step(alloc, file, at, name) {
        Err(error) => Err(error),
        Ok(step) => {
            let reply = take_step(alloc, session, &step);
            kept(reply, step)
        }
    }
}

fn rename_step(alloc: Global, file: &str, at: u32, name: &str) -> Result<Step, AllocError>
    ensures { IfOk result (λ step. step ≡ Step.Rename file.now at name.now) }
{
    let file = Name::new(alloc, file)?;
    let name = Name::new(alloc, name)?;
    Ok(Step::Rename { file, at, name })
}

// What is put for the reply.
fn answer_to(
    alloc: Global,
    file: &str,
    session: &Session,
    reply: &Reply,
) -> Result<Answer, AllocError>
    requires names { names_of session.now.files ≡ file.now ∷ [] }
    requires places { ArePlacesIn (file.now ∷ []) (reply_places (reply_of reply.now)) }
    ensures { IfOk result (λ answer. IsPutFor session.now file.now (reply_of reply.now)
        answer.refused (string_bytes answer.output)) }
{
    match reply {
        Reply::Refused(refusal) => line_answer(alloc, file, refusal),
        _ => text_answer(alloc, file, session),
    }
}

fn line_answer(alloc: Global, file: &str, refusal: &Refusal) -> Result<Answer, AllocError>
    requires { ArePlacesIn (file.now ∷ []) (places_of (refusal_of refusal.now)) }
    ensures { IfOk result (λ answer. (answer.refused ≡ true)
        × (string_bytes answer.output ≡ line_of (file.now ∷ []) (refusal_of refusal.now))) }
{
    let name = Name::new(alloc, file)?;
    let mut files = Vec::with_capacity(alloc, 1)?;
    files.push_reserved(name);
    let output = refusal_line(alloc, files.as_slice(), refusal)?;
    Ok(Answer {
        refused: true,
        output,
    })
}

fn text_answer(alloc: Global, file: &str, session: &Session) -> Result<Answer, AllocError>
    requires { names_of session.now.files ≡ file.now ∷ [] }
    ensures { IfOk result (λ answer. (answer.refused ≡ false)
        × IsFile session.now.files 0 file.now (string_bytes answer.output)) }
{
    match session.text(file) {
        None => unreachable!(),
        Some(text) => {
            let output = String::from_str(alloc, text)?;
            Ok(Answer {
                refused: false,
                output,
            })
        }
    }
}
