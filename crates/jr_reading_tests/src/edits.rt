//! Parts of texts, and lists of edits: what they make of a text, and what gives it back.
ghost use Rattle.std.specs.Prelude.{◌≤◌};
ghost use Rattle.jr_text.specs.Edits.{FitsIn};

use crate::reading::{repeat, text_of};
use crate::rows::{assert_same, cut_at, number};
use jr_text::{
    ApplyFault, EditFault, EditList, Mark, Span, Text, TextFault, Widths, entry_has_one_place,
    splice_has_length, splice_is_join, untouched_bytes_move,
};
use std::alloc::Global;
use std::process::Abort;

/// Texts with edits in the order of pushing: from which byte to which, and what is put there. What
/// is expected is the new text, and in front of it each edit that isn't taken. A Greek letter has
/// two bytes.
pub(crate) const ROWS: &'static str = "
~part aλb@1-3 => λ of 4 bytes of aλb
~part aλb@4-4 =>  of 4 bytes of aλb
~part aλb@2-3 => none
~part aλb@1-2 => none
~part aλb@3-1 => none
~part aλb@4-5 => none
~edits class A{static int f;static void m(){int a=1;f=a;}}@47-48 b@41-42 b => \
    class A{static int f;static void m(){int b=1;f=b;}}
~# Edits that touch each other, in another order than that of their places.
~edits 0123456789@5-8 X@5-5 a@8-8 c@5-5 b@0-0 <@10-10 >@2-5 => <01abXc89>
~edits 012λ56789@6-8 X@6-6 a@6-6 λλ@0-1 <@10-10 >@1-3 @5-6 => <λaλλX89>
~# Two overlap the edit at 3: the one that was pushed first is told.
~edits 0123456789@6-9 @1-4 @4-4 @3-7 @2-2 @4-6 => \
    the span overlaps 6..9, the span overlaps 1..4, 09
~edits 01234567@6-9 => the edits don't fit
";

/// The span between two bytes.
fn span_of(rt: &impl Abort, text: &str) -> Span {
    let (from, to) = cut_at(text, "-");
    let from = number(rt, from);
    let to = number(rt, to);
    Span { from, to }
}

/// The part of a text at a span.
pub(crate) fn cut(rt: &impl Abort, alloc: Global, asked: &str) -> String {
    let (text, span) = cut_at(asked, "@");
    let text = text_of(rt, alloc, text);
    let span = span_of(rt, span);
    let mut told = String::new(alloc);
    if text.can_cut(span) {
        let (part, len, whole) = (text.part(span), text.len(), text.as_str());
        write!(&mut told, "{part} of {len} bytes of {whole}").expect(rt, "memory");
    } else {
        told.push_str("none").expect(rt, "memory");
    }
    told
}

/// Pushes an edit, and tells why it isn't taken.
fn push_edit(rt: &impl Abort, told: &mut String, edits: &mut EditList, span: Span, new: &str)
    requires { span.from ≤ span.to }
{
    if let Err(fault) = edits.push(span, new) {
        write!(told, "{fault}, ").expect(rt, "memory");
    }
}

/// The new text, of which the inverse edits make the old one again.
fn splice(alloc: Global, edits: &EditList, text: &Text) -> Result<Text, ApplyFault>
    requires { FitsIn text.now edits.now }
{
    let new = edits.apply(alloc, text)?;
    let back = edits.inverse(alloc, text)?;
    let old = back.apply(alloc, &new)?;
    if back.fits(&new) & (old.as_str() == text.as_str()) {
        Ok(new)
    } else {
        Err(ApplyFault::Memory)
    }
}

/// What edits make of a text.
pub(crate) fn edit(rt: &impl Abort, alloc: Global, asked: &str) -> String {
    let (text, rows) = cut_at(asked, "@");
    let text = text_of(rt, alloc, text);
    let mut edits = EditList::new(alloc);
    let mut told = String::new(alloc);
    for row in rows.split('@') {
        let (span, new) = cut_at(row, " ");
        let span = span_of(rt, span);
        if span.from <= span.to {
            push_edit(rt, &mut told, &mut edits, span, new);
        }
    }
    if edits.fits(&text) {
        let new = splice(alloc, &edits, &text).expect(rt, "a text that is given back");
        told.push_str(new.as_str()).expect(rt, "memory");
    } else {
        told.push_str("the edits don't fit").expect(rt, "memory");
    }
    told
}

/// Whether one edit puts a text of so many bytes in its own place.
fn is_put(rt: &impl Abort, alloc: Global, len: u32) -> bool {
    let text = repeat(rt, alloc, "a", len, "");
    let mut edits = EditList::new(alloc);
    let to = text.len();
    edits
        .push(Span { from: 0, to }, text.as_str())
        .expect(rt, "memory");
    let is_whole = (to == len) & edits.fits(&text);
    if edits.fits(&text) {
        let new = edits.apply(alloc, &text).expect(rt, "memory");
        is_whole & (new.as_str() == text.as_str())
    } else {
        false
    }
}

/// Whether as many edits as the text has bytes double each byte.
fn is_doubled(rt: &impl Abort, alloc: Global, len: u32) -> bool {
    let text = repeat(rt, alloc, "a", len, "");
    let mut edits = EditList::new(alloc);
    for from in 0..len {
        let to = from.saturating_add(1);
        edits.push(Span { from, to }, "aa").expect(rt, "memory");
    }
    let doubled = repeat(rt, alloc, "aa", len, "");
    if edits.fits(&text) {
        let new = edits.apply(alloc, &text).expect(rt, "memory");
        new.as_str() == doubled.as_str()
    } else {
        false
    }
}

/// Whether an edit that puts one byte more into a text of the most bytes has its fault.
fn is_too_long(rt: &impl Abort, alloc: Global) -> bool {
    let text = repeat(rt, alloc, "a", 1_048_576, "");
    let mut edits = EditList::new(alloc);
    let span = Span { from: 7, to: 8 };
    edits.push(span, "bc").expect(rt, "memory");
    if edits.fits(&text) {
        let new = edits.apply(alloc, &text);
        matches!(new, Err(ApplyFault::TooLong { len: 1_048_577 }))
    } else {
        false
    }
}

/// Whether bytes are refused as no text behind so many.
fn is_no_text(alloc: Global, bytes: &[u8], len: u32) -> bool {
    match Text::new(alloc, bytes) {
        Err(TextFault::NotUtf8 { valid }) => valid == len,
        _ => false,
    }
}

/// Whether a byte more than a text may have is told, before what is no text.
fn is_told(rt: &impl Abort, alloc: Global) -> bool {
    let text = repeat(rt, alloc, "a", 1_048_576, "");
    let mut bytes = text.as_str().as_bytes().to_vec(alloc).expect(rt, "memory");
    bytes.push(0xff).expect(rt, "memory");
    let long = Text::new(alloc, bytes.as_slice());
    matches!(long, Err(TextFault::TooLong { len: 1_048_577 }))
}

/// Edits of each size up to the limit, more of them than sixteen bits count, and bytes that are no
/// text.
fn assert_limits(rt: &impl Abort, alloc: Global) {
    for len in [
        0, 1, 255, 256, 65_535, 65_536, 100_001, 524_288, 1_048_575, 1_048_576,
    ] {
        assert!(rt; is_put(rt, alloc, len));
    }
    assert!(rt; is_doubled(rt, alloc, 65_537));
    assert!(rt; is_too_long(rt, alloc) & is_told(rt, alloc));
    // 0xce begins a letter of two bytes, and 0xff none.
    assert!(rt; is_no_text(alloc, b"ab\xce", 2) & is_no_text(alloc, b"ab\xff", 2));
}

fn assert_text(rt: &impl Abort, alloc: Global, fault: TextFault, expected: &str) {
    let told = fault.to_string(alloc).expect(rt, "memory");
    assert_same(rt, told.as_str(), expected);
}

fn assert_splice(rt: &impl Abort, alloc: Global, fault: ApplyFault, expected: &str) {
    let told = fault.to_string(alloc).expect(rt, "memory");
    assert_same(rt, told.as_str(), expected);
}

/// The texts of faults.
pub(crate) fn assert_faults(rt: &impl Abort, alloc: Global) {
    let long = TextFault::TooLong { len: 1_048_577 };
    assert_text(rt, alloc, long, "1048577 bytes are too many");
    let bytes = TextFault::NotUtf8 { valid: 2 };
    assert_text(rt, alloc, bytes, "no UTF-8 after byte 2");
    assert_text(rt, alloc, TextFault::Memory, "out of memory");
    let long = ApplyFault::TooLong { len: 1_048_577 };
    assert_splice(rt, alloc, long, "1048577 bytes are too many");
    assert_splice(rt, alloc, ApplyFault::Memory, "out of memory");
    let told = EditFault::Memory.to_string(alloc).expect(rt, "memory");
    assert_same(rt, told.as_str(), "out of memory");
}

/// Where marks lie, and that the laws of splices can be called.
fn assert_marks(rt: &impl Abort) {
    let span = Span { from: 3, to: 5 };
    let widths = Widths { before: 3, len: 2 };
    assert!(rt; (span.span(10) == span) & (widths.span(10) == Span { from: 13, to: 15 }));
    splice_is_join();
    untouched_bytes_move();
    splice_has_length();
    entry_has_one_place();
}

#[test]
fn edits_up_to_the_limit(rt: HostRuntime) {
    assert_limits(&rt, rt.alloc());
    assert_marks(&rt);
}
