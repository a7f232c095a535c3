//! Texts that are put in the place of a span, and pieces that move with their own changes.
ghost use Rattle.std.specs.Prelude.{◌≡◌, ◌≤◌, ◌++◌, List, ℕ, IfOk, string_bytes};
ghost use Rattle.std.specs.List.{All};
ghost use Rattle.jr_text.specs.Spans.{CanCut};
ghost use Rattle.jr_lex.specs.Lexes.{Lexes};
ghost use Rattle.jr_grammar.specs.Tokens.{Token};
ghost use Rattle.jr_rewrite.specs.ChangeView.{changes_of};
ghost use Rattle.jr_rewrite.specs.Woven as woven;
ghost use Rattle.jr_moved_texts.specs.Spaces as pure;

use crate::neighbours::{beginning_at, ending_at};
use crate::sides::may_follow;
use jr_lex::{Item, TokenKind};
use jr_rewrite::Change;
use jr_text::{Span, Text};
use std::alloc::{AllocError, Global};

/// A text that is put in, with its first and its last token, if it has any.
pub struct PutText<'a> {
    pub text: &'a str,
    pub first: Option<TokenKind>,
    pub last: Option<TokenKind>,
}

/// One space, where the second token may not stand directly behind the first.
fn space(first: Option<TokenKind>, second: Option<TokenKind>) -> &'static str
    ensures { result.now ≡ pure.space first second }
{
    let Some(first) = first else {
        return "";
    };
    let Some(second) = second else {
        return "";
    };
    if may_follow(first, second) { "" } else { " " }
}

/// What is put in the place of a span of a text with these items: the text, with a space where its
/// first or its last token and the neighbour beside it would be read as other tokens (JLS 3.2).
pub fn spaced(
    alloc: Global,
    items: &[Item],
    at: Span,
    put: &PutText<'_>,
) -> Result<String, AllocError>
    requires { (text : List ℕ) × Lexes text items.now }
    ensures { (tokens : List Token) → pure.first_kind tokens ≡ put.now.first
        → pure.last_kind tokens ≡ put.now.last
        → IfOk result (λ all. string_bytes all ≡ pure.spaced items.now at tokens put.now.text.now) }
{
    let front = space(ending_at(items, at.from), put.first);
    let back = space(put.last, beginning_at(items, at.to));
    let text = put.text;
    format!(in alloc; "{front}{text}{back}")
}

/// The bytes of a piece of a text with its own changes, as it is put elsewhere. The changes stand
/// in order, within the piece.
pub fn with_changes(
    alloc: Global,
    text: &Text,
    piece: Span,
    changes: &[Change],
) -> Result<String, AllocError>
    requires cut { CanCut text.now piece }
    requires fit { woven.Fit piece.from text.now (changes_of changes.now) }
    requires within { All (λ change. change.span.to ≤ piece.to) (changes_of changes.now) }
    ensures { IfOk result (λ all. string_bytes all
        ≡ woven.with_changes text.now piece (changes_of changes.now)) }
{
    let mut made = String::new(alloc);
    let mut at = piece.from;
    for change in changes {
        let gap = Span {
            from: at,
            to: change.span.from,
        };
        made.push_str(text.part(gap))?;
        made.push_str(change.text.as_str())?;
        at = change.span.to;
    }
    let rest = Span {
        from: at,
        to: piece.to,
    };
    made.push_str(text.part(rest))?;
    Ok(made)
}
