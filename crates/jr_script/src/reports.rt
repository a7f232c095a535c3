//! From replies to the bytes of a report.

ghost use Rattle.std.specs.Prelude.{◌≡◌, map, IfOk, string_bytes};
ghost use Rattle.serde_json.specs.View.{view};
ghost use Rattle.jr_names.specs.RefusalView.{refusal_of};
ghost use Rattle.jr_names.specs.Replies.{refused};
ghost use Rattle.jr_names.specs.ReplyView.{reply_of};
ghost use Rattle.jr_script.specs.RefusalTexts.{ArePlacesIn, places_of};
ghost use Rattle.jr_script.specs.Reports as reports;

use crate::refusals::refusal_text;
use jr_ast::Name;
use jr_names::{Refusal, Reply};
use serde_json::{Value, json};
use std::alloc::{AllocError, Global};

/// The text of a report: a JSON array with an object a reply, without spaces, and a line end.
pub fn report_text(alloc: Global, files: &[Name], replies: &[Reply]) -> Result<String, AllocError>
    requires { reports.AreRepliesIn files.now (map reply_of replies.now) }
    ensures { IfOk result (λ text. string_bytes text
        ≡ reports.report_text files.now (map reply_of replies.now)) }
{
    let objects = reply_values(alloc, files, replies)?;
    let mut text = Value::Array(objects).to_string(alloc)?;
    text.push_str("\n")?;
    Ok(text)
}

fn reply_values(alloc: Global, files: &[Name], replies: &[Reply]) -> Result<Vec<Value>, AllocError>
    requires { reports.AreRepliesIn files.now (map reply_of replies.now) }
    ensures { IfOk result (λ values. map view values.items
        ≡ map (reports.object_of files.now) (map reply_of replies.now)) }
{
    let mut values = Vec::with_capacity(alloc, replies.len())?;
    for reply in replies {
        let value = reply_value(alloc, files, reply)?;
        values.push(value)?;
    }
    Ok(values)
}

// The object of a reply.
fn reply_value(alloc: Global, files: &[Name], reply: &Reply) -> Result<Value, AllocError>
    requires { ArePlacesIn files.now (reports.reply_places (reply_of reply.now)) }
    ensures { IfOk result (λ v. view v ≡ reports.object_of files.now (reply_of reply.now)) }
{
    match reply {
        Reply::Edited => word_value(alloc, "edited"),
        Reply::Refactored { files, respelled } => {
            refactored_value(alloc, files.as_slice(), *respelled)
        }
        Reply::Shown(lines) => shown_value(alloc, lines.as_slice()),
        Reply::Undone => word_value(alloc, "undone"),
        Reply::Redone => word_value(alloc, "redone"),
        Reply::Refused(refusal) => refused_value(alloc, files, refusal),
    }
}

fn word_value(alloc: Global, word: &str) -> Result<Value, AllocError>
    ensures { IfOk result (λ v. view v ≡ reports.word_object word.now) }
{
    json!(in alloc; {"reply": word})
}

fn refactored_value(alloc: Global, changed: &[Name], respelled: u32) -> Result<Value, AllocError>
    ensures { IfOk result (λ v. view v ≡ reports.refactored_object changed.now respelled) }
{
    let files = strings_value(alloc, changed)?;
    json!(in alloc; {"files": files, "reply": "refactored", "respelled": respelled})
}

fn shown_value(alloc: Global, lines: &[Name]) -> Result<Value, AllocError>
    ensures { IfOk result (λ v. view v ≡ reports.shown_object lines.now) }
{
    let lines = strings_value(alloc, lines)?;
    json!(in alloc; {"lines": lines, "reply": "shown"})
}

fn refused_value(alloc: Global, files: &[Name], refusal: &Refusal) -> Result<Value, AllocError>
    requires { ArePlacesIn files.now (places_of (refusal_of refusal.now)) }
    ensures { IfOk result (λ v. view v
        ≡ reports.object_of files.now (refused (refusal_of refusal.now))) }
{
    let text = refusal_text(alloc, files, refusal)?;
    let number = refusal.number();
    json!(in alloc; {"number": number, "refusal": text, "reply": "refused"})
}

// An array of strings.
fn strings_value(alloc: Global, texts: &[Name]) -> Result<Value, AllocError>
    ensures { IfOk result (λ v. view v ≡ reports.strings texts.now) }
{
    let mut values = Vec::with_capacity(alloc, texts.len())?;
    for text in texts {
        let copy = String::from_str(alloc, text.as_str())?;
        values.push(Value::String(copy))?;
    }
    Ok(Value::Array(values))
}
