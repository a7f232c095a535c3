//! What an edit would make of a file.
ghost use Rattle.std.specs.Prelude.{◌≡◌, ℕ, ◌<◌, ◌≤◌, length, IfOk, IfErr, IsOk};
ghost use Rattle.jr_text.specs.Spans.{CanCut};
ghost use Rattle.jr_text.specs.Splices as pure;
ghost use Rattle.jr_text.specs.Texts.{text_limit};
ghost use Rattle.jr_session.specs.Splicing.{IsSpliced, CanNotCut};

use jr_sources::{MAX_TOTAL_LEN, Sources};
use jr_text::{ApplyFault, EditList, Span, Text};
use std::alloc::{AllocError, Global};

/// What an edit would make of a file.
#[derive(Drop)]
pub(crate) enum Spliced {
    /// This text.
    Text(Text),
    /// Nothing, since the span can't be cut out of it.
    BadSpan,
    /// Nothing, since it, or all files together, would have `len` bytes, which are too many.
    TooLong { len: u64 },
}

// The text in which another stands in the place of the span.
fn replace_span(alloc: Global, old: &Text, span: Span, text: &str) -> Result<Text, ApplyFault>
    requires { CanCut old.now span }
    ensures ok { IfOk result (λ new. new ≡ pure.replaced old.now span text.now) }
    ensures within { IfOk result (λ new. length new ≤ text_limit) }
    ensures fault { IfErr result (λ fault. (len : ℕ) → fault ≡ ApplyFault.TooLong len
        → (text_limit < length (pure.replaced old.now span text.now))
        × (len ≡ length (pure.replaced old.now span text.now))) }
{
    let mut edits = EditList::new(alloc);
    match edits.push(span, text) {
        Ok(()) => edits.apply(alloc, old),
        Err(_) => Err(ApplyFault::Memory),
    }
}

/// What the file of the number becomes where the text stands in the place of the span.
pub(crate) fn splice(
    alloc: Global,
    sources: &Sources,
    number: u32,
    span: Span,
    text: &str,
) -> Result<Spliced, AllocError>
    requires { number < length sources.now }
    ensures ok { IfOk result (IsSpliced sources.now number span text.now) }
    ensures bad_span { CanNotCut sources.now number span → IsOk result }
{
    let old = sources.text(number);
    if !old.can_cut(span) {
        return Ok(Spliced::BadSpan);
    }
    let total = sources.total();
    match replace_span(alloc, old, span, text) {
        Ok(new) => {
            let len = total - u64::from(old.len()) + u64::from(new.len());
            if len > MAX_TOTAL_LEN {
                return Ok(Spliced::TooLong { len });
            }
            Ok(Spliced::Text(new))
        }
        Err(ApplyFault::TooLong { len }) => Ok(Spliced::TooLong { len }),
        Err(ApplyFault::Memory) => Err(AllocError),
    }
}
