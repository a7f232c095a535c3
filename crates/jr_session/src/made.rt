//! What a plan's edits make of the sources.
ghost use Rattle.std.specs.Prelude.{◌≡◌, ℕ, ◌<◌, ◌≤◌, ◌↔◌, List, length, IfOk, IfErr, OnOk};
ghost use Rattle.std.specs.Prelude.{IsTrue};
ghost use Rattle.jr_text.specs.Texts.{text_limit};
ghost use Rattle.jr_session.specs.Making.{Fit, IsMade, IsPushed};
ghost use Rattle.jr_session.specs.NewTexts.{with_edits};
ghost use Rattle.jr_session.specs.Splicing.{HasText};

use crate::changes::Change;
use jr_ast::Name;
use jr_sources::{MAX_TOTAL_LEN, Sources};
use jr_text::{ApplyFault, EditList, Text};
use std::alloc::{AllocError, Global};

/// What edits make of all files.
#[derive(Drop)]
pub(crate) enum Made {
    /// The texts of those files that are changed, in their order, and the files' names.
    Changes {
        changes: Vec<Change>,
        names: Vec<Name>,
    },
    /// Nothing, since a file, or all together, would have `len` bytes, which are too many.
    TooLong {
        len: u64,
    },
}

// The text that the edits make of a file's.
fn new_text(
    alloc: Global,
    sources: &Sources,
    edits: &[EditList],
    number: u32,
) -> Result<Text, ApplyFault>
    requires number { number < length sources.now }
    requires fit { Fit sources.now edits.now }
    ensures ok { IfOk result (HasText (with_edits sources.now edits.now) number) }
    ensures within { IfOk result (λ text. length text ≤ text_limit) }
    ensures fault { IfErr result (λ fault. (len : ℕ) → fault ≡ ApplyFault.TooLong len
        → (text : List ℕ) × HasText (with_edits sources.now edits.now) number text
        × (text_limit < length text) × (len ≡ length text)) }
{
    edits[number as usize].apply(alloc, sources.text(number))
}

// Whether a file has this text.
fn has_text(sources: &Sources, number: u32, text: &Text) -> bool
    requires { number < length sources.now }
    ensures { IsTrue result ↔ HasText sources.now number text.now }
{
    sources.text(number).as_str() == text.as_str()
}

// Puts a file's new text behind the others, and its name, if it is another one.
fn push_change(
    alloc: Global,
    sources: &Sources,
    number: u32,
    text: Text,
    changes: &mut Vec<Change>,
    names: &mut Vec<Name>,
) -> Result<(), AllocError>
    requires { number < length sources.now }
    ensures { OnOk result (IsPushed sources.now number text changes.old.items names.old.items
        changes.new.items names.new.items) }
{
    if has_text(sources, number, &text) {
        return Ok(());
    }
    let name = Name::new(alloc, sources.name(number).unwrap())?;
    changes.push(Change { file: number, text })?;
    names.push(name)?;
    Ok(())
}

/// What the edits of each file make of it. Files whose text stays are no changes. A file that would
/// be too long is told before all together.
pub(crate) fn new_texts(
    alloc: Global,
    sources: &Sources,
    edits: &[EditList],
) -> Result<Made, AllocError>
    requires { Fit sources.now edits.now }
    ensures { IfOk result (IsMade sources.now edits.now) }
{
    let mut changes = Vec::new(alloc);
    let mut names = Vec::new(alloc);
    let mut total = 0;
    for number in 0..sources.count() {
        match new_text(alloc, sources, edits, number) {
            Ok(text) => {
                total += u64::from(text.len());
                push_change(alloc, sources, number, text, &mut changes, &mut names)?;
            }
            Err(ApplyFault::TooLong { len }) => return Ok(Made::TooLong { len }),
            Err(ApplyFault::Memory) => return Err(AllocError),
        }
    }
    if total > MAX_TOTAL_LEN {
        return Ok(Made::TooLong { len: total });
    }
    Ok(Made::Changes { changes, names })
}
