ghost use Rattle.std.specs.Prelude.{◌≡◌, ℕ, ◌+◌, ◌-◌, ◌<◌, ◌≤◌, ◌↔◌, length, IsTrue, IfNone, IfSome};
ghost use Rattle.jr_text.specs.Spans.{CanCut};
ghost use Rattle.jr_layout.specs.Lines.{HasByte, line_end_bytes, StandsAt, IsInLine, IsLineEndOf};
ghost use Rattle.jr_layout.specs.Lines.{IsLineStart, IsSpaceOrTab, AreSpacesAndTabs, IsIndent};
ghost use Rattle.jr_layout.specs.Lines.{IsFirstOnLine, IsLastOnLine};

use jr_text::{Span, Text};

/// What ends a line.
#[derive(Clone, Copy, PartialEq, Eq, Debug)]
pub enum LineEnd {
    Lf,
    Cr,
    CrLf,
}

impl LineEnd {
    /// Its bytes.
    pub fn as_str(self) -> &'static str
        ensures { result.now ≡ line_end_bytes self }
    {
        match self {
            LineEnd::Lf => "\n",
            LineEnd::Cr => "\r",
            LineEnd::CrLf => "\r\n",
        }
    }
}

/// The first line end of the text, in comments too, or LF where there is none.
pub fn line_end(text: &Text) -> LineEnd
    ensures { IsLineEndOf text.now result }
{
    first_line_end(text.as_str().as_bytes())
}

/// The indent of what stands at the place, if that is first on its line: the spaces and tabs from
/// the line's start up to the place.
pub fn indent_at(text: &Text, at: u32) -> Option<Span>
    requires { at ≤ length text.now }
    ensures some { IfSome result (IsIndent text.now at) }
    ensures cut { IfSome result (CanCut text.now) }
    ensures none { IfNone result (¬ IsFirstOnLine text.now at) }
{
    let bytes = text.as_str().as_bytes();
    let from = run_start(bytes, at as usize);
    if is_line_start(bytes, from) {
        Some(Span {
            from: from as u32,
            to: at,
        })
    } else {
        None
    }
}

// Where the line ends, with its line end, if only spaces and tabs stand from the place on.
pub(crate) fn rest_end(bytes: &[u8], at: usize) -> Option<usize>
    requires { at ≤ length bytes.now }
    ensures some { IfSome result (IsLastOnLine bytes.now at) }
    ensures within { IfSome result (λ stop. stop ≤ length bytes.now) }
    ensures none { IfNone result ((stop : ℕ) → ¬ IsLastOnLine bytes.now at stop) }
{
    let middle = run_end(bytes, at);
    if middle == bytes.len() {
        return Some(middle);
    }
    match line_end_at(bytes, middle) {
        Some(end) => Some(middle + end.as_str().len()),
        None => None,
    }
}

fn first_line_end(bytes: &[u8]) -> LineEnd
    ensures { IsLineEndOf bytes.now result }
{
    for at in 0..bytes.len() {
        if let Some(end) = line_end_at(bytes, at) {
            return end;
        }
    }
    LineEnd::Lf
}

// The line end that stands at the place.
fn line_end_at(bytes: &[u8], at: usize) -> Option<LineEnd>
    requires { at < length bytes.now }
    ensures some { IfSome result (StandsAt bytes.now at) }
    ensures within { IfSome result (λ e. at + length (line_end_bytes e) ≤ length bytes.now) }
    ensures none { IfNone result (IsInLine bytes.now at) }
{
    if has_byte(bytes, at, b'\n') {
        return Some(LineEnd::Lf);
    }
    if !has_byte(bytes, at, b'\r') {
        return None;
    }
    if has_byte(bytes, at + 1, b'\n') {
        Some(LineEnd::CrLf)
    } else {
        Some(LineEnd::Cr)
    }
}

// Whether a line begins at the place.
fn is_line_start(bytes: &[u8], at: usize) -> bool
    ensures { IsTrue result ↔ IsLineStart bytes.now at }
{
    if at == 0 {
        return true;
    }
    let behind_lf = has_byte(bytes, at - 1, b'\n');
    let behind_cr = has_byte(bytes, at - 1, b'\r');
    let before_lf = has_byte(bytes, at, b'\n');
    behind_lf | (behind_cr & !before_lf)
}

// Where the spaces and tabs begin that stand in front of the place.
fn run_start(bytes: &[u8], at: usize) -> usize
    ensures within { result ≤ at }
    ensures run { AreSpacesAndTabs bytes.now result at }
    ensures whole { 0 < result → ¬ IsSpaceOrTab bytes.now (result - 1) }
{
    let mut start = at;
    while start > 0 && is_space_or_tab(bytes, start - 1) {
        start -= 1;
    }
    start
}

// Where the spaces and tabs end that stand from the place on.
fn run_end(bytes: &[u8], at: usize) -> usize
    requires { at ≤ length bytes.now }
    ensures from { at ≤ result }
    ensures within { result ≤ length bytes.now }
    ensures run { AreSpacesAndTabs bytes.now at result }
    ensures whole { ¬ IsSpaceOrTab bytes.now result }
{
    let mut end = at;
    while end < bytes.len() && is_space_or_tab(bytes, end) {
        end += 1;
    }
    end
}

fn is_space_or_tab(bytes: &[u8], at: usize) -> bool
    ensures { IsTrue result ↔ IsSpaceOrTab bytes.now at }
{
    has_byte(bytes, at, b' ') | has_byte(bytes, at, b'\t')
}

// Whether the text has this byte at the place.
pub(crate) fn has_byte(bytes: &[u8], at: usize, byte: u8) -> bool
    ensures { IsTrue result ↔ HasByte bytes.now at byte }
{
    at < bytes.len() && bytes[at] == byte
}
