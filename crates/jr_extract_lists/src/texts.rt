//! The texts that are put: the name in the expression's place, and the declaration.
ghost use Rattle.std.specs.Prelude.{◌≡◌, ◌≤◌, ◌∷◌, [], IfOk, length, string_bytes};
ghost use Rattle.jr_lex.specs.Lexes.{Lexes};
ghost use Rattle.jr_grammar.specs.Tokens.{word};
ghost use Rattle.jr_moved_texts.specs.Spaces.{spaced};
ghost use Rattle.jr_rewrite.specs.ChangeView.{changes_of};
ghost use Rattle.jr_local.specs.Extracted.{declaration_text};
ghost use Rattle.jr_local_changes.specs.PieceChanges.{PieceFits};
ghost use Rattle.jr_extract_lists.specs.Texts.{IsDeclared};

use crate::targets::Target;
use crate::written_types::WrittenType;
use jr_layout::gap_at;
use jr_lex::TokenKind;
use jr_put_texts::{PutText, spaced, with_changes};
use jr_rewrite::Change;
use jr_text::Span;
use std::alloc::{AllocError, Global};

/// The name as it is put in the expression's place: with a space where it and the token directly
/// beside it would be read as one (JLS 3.2). The only fault is want of memory.
pub(crate) fn name_text(alloc: Global, of: &Target<'_>) -> Result<String, AllocError>
    requires { Lexes of.now.text.now of.now.items.now }
    ensures { IfOk result (λ s. string_bytes s
        ≡ spaced of.now.items.now of.now.value.now.mark
        (word of.now.request.name.now ∷ []) of.now.request.name.now) }
{
    let put = PutText {
        text: of.request.name.as_str(),
        first: Some(TokenKind::Word),
        last: Some(TokenKind::Word),
    };
    let text = spaced(alloc, of.items, of.value.mark, &put);
    let PutText {
        text: _,
        first: _,
        last: _,
    } = put;
    text
}

/// `TYPE NAME = INIT;` and the gap.
fn declaration_text(
    alloc: Global,
    ty: &str,
    name: &str,
    init: &str,
    gap: &str,
) -> Result<String, AllocError>
    ensures { IfOk result
        (λ s. string_bytes s ≡ declaration_text name.now ty.now init.now gap.now) }
{
    format!(in alloc; "{ty} {name} = {init};{gap}")
}

/// The declaration in front of the statement that begins at the byte: the type as it is written,
/// the name, the expression's bytes with its own changes, and a line end and the statement's indent
/// where that is first on its line, else one space (JLS 14.4). The only fault is want of memory.
pub(crate) fn declaration(
    alloc: Global,
    of: &Target<'_>,
    at: u32,
    ty: &WrittenType,
    changes: &[Change],
) -> Result<Change, AllocError>
    requires begins { at ≤ length of.now.text.now }
    requires fits { PieceFits of.now.text.now of.now.value.now.mark (changes_of changes.now) }
    ensures { IfOk result (IsDeclared of.now at ty.now (changes_of changes.now)) }
{
    let gap = gap_at(alloc, of.text, at)?;
    let init = with_changes(alloc, of.text, of.value.mark, changes)?;
    let text = declaration_text(
        alloc,
        ty.text.as_str(),
        of.request.name.as_str(),
        init.as_str(),
        gap.as_str(),
    )?;
    let span = Span { from: at, to: at };
    Ok(Change { span, text })
}
