//! Whether a token is that one.
ghost use Rattle.std.specs.Prelude.{◌≡◌};
ghost use Rattle.jr_pexpr.specs.TokenView.{token_view};
ghost use Rattle.jr_pstmt.specs.Cues.{cue_of};
ghost use Rattle.jr_pstmt.specs.CueTests as pure;

use crate::cues::{Cue, cue_of};
use jr_pexpr::Token;

pub fn is_semicolon(token: Token<'_>) -> bool
    ensures { result ≡ pure.is_semicolon (cue_of (token_view token.entry)) }
{
    match cue_of(token) {
        Cue::Semicolon => true,
        _ => false,
    }
}

pub fn is_comma(token: Token<'_>) -> bool
    ensures { result ≡ pure.is_comma (cue_of (token_view token.entry)) }
{
    match cue_of(token) {
        Cue::Comma => true,
        _ => false,
    }
}

pub fn is_close(token: Token<'_>) -> bool
    ensures { result ≡ pure.is_close (cue_of (token_view token.entry)) }
{
    match cue_of(token) {
        Cue::Close => true,
        _ => false,
    }
}

pub fn is_close_brace(token: Token<'_>) -> bool
    ensures { result ≡ pure.is_close_brace (cue_of (token_view token.entry)) }
{
    match cue_of(token) {
        Cue::CloseBrace => true,
        _ => false,
    }
}

pub fn is_open(token: Token<'_>) -> bool
    ensures { result ≡ pure.is_open (cue_of (token_view token.entry)) }
{
    match cue_of(token) {
        Cue::Open => true,
        _ => false,
    }
}

pub fn is_super(token: Token<'_>) -> bool
    ensures { result ≡ pure.is_super (cue_of (token_view token.entry)) }
{
    match cue_of(token) {
        Cue::Super => true,
        _ => false,
    }
}
