ghost use Rattle.std.specs.Prelude.{◌≤◌, ℕ, ◌<◌, ◌↔◌, IsTrue, length};
ghost use Rattle.jr_text.specs.Spans.{CanCut};
ghost use Rattle.jr_layout.specs.Layouts.{IsRemoval, IsBlankByte, IsWithBlank};

use crate::lines::{has_byte, indent_at, rest_end};
use jr_text::{Span, Text};

/// What goes when a statement or a member is removed that has this span: its whole lines, with the
/// line end of the last, where only spaces and tabs stand beside it on them; else the span alone.
pub fn removal(text: &Text, span: Span) -> Span
    requires { CanCut text.now span }
    ensures removes { IsRemoval text.now span result }
    ensures cut { CanCut text.now result }
{
    let Some(indent) = indent_at(text, span.from) else {
        return span;
    };
    let Some(stop) = rest_end(text.as_str().as_bytes(), span.to as usize) else {
        return span;
    };
    Span {
        from: indent.from,
        to: stop as u32,
    }
}

/// The span with the blank directly behind it: what goes when a modifier is dropped.
pub fn with_blank(text: &Text, span: Span) -> Span
    requires { CanCut text.now span }
    ensures takes { IsWithBlank text.now span result }
    ensures cut { CanCut text.now result }
{
    let bytes = text.as_str().as_bytes();
    Span {
        from: span.from,
        to: blank_end(bytes, span.to as usize) as u32,
    }
}

// Where the blank ends that stands at the place.
fn blank_end(bytes: &[u8], at: usize) -> usize
    requires { at ≤ length bytes.now }
    ensures from { at ≤ result }
    ensures within { result ≤ length bytes.now }
    ensures run { (k : ℕ) → at ≤ k → k < result → IsBlankByte bytes.now k }
    ensures whole { ¬ IsBlankByte bytes.now result }
{
    let mut end = at;
    while end < bytes.len() && is_blank_byte(bytes, end) {
        end += 1;
    }
    end
}

fn is_blank_byte(bytes: &[u8], at: usize) -> bool
    ensures { IsTrue result ↔ IsBlankByte bytes.now at }
{
    let space = has_byte(bytes, at, b' ');
    let tab = has_byte(bytes, at, b'\t');
    let form_feed = has_byte(bytes, at, b'\x0c');
    let lf = has_byte(bytes, at, b'\n');
    let cr = has_byte(bytes, at, b'\r');
    space | (tab | (form_feed | (lf | cr)))
}
