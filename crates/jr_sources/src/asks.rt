//! What is asked of a refactoring before its sources are analysed: its offset and its new name.
ghost use Rattle.std.specs.Prelude.{◌≡◌, ◌↔◌, IfOk, IsTrue, MatchOption};
ghost use Rattle.jr_lex.specs.Replacing.{IsName};
ghost use Rattle.jr_names.specs.RefusalView.{refusal_of};
ghost use Rattle.jr_sources.specs.Asking.{CanStand, IsUnasked};

use jr_ast::Name;
use jr_lex::is_identifier;
use jr_names::Refusal;
use jr_text::{Span, Text};
use std::alloc::{AllocError, Global};

// Whether a text is an identifier.
fn is_name(text: &str) -> bool
    ensures { IsTrue result ↔ IsName text.now }
{
    match str::from_utf8(text.as_bytes()) {
        Ok(text) => is_identifier(text),
        Err(_) => false,
    }
}

/// Why a refactoring of a file is refused before its sources are analysed: the offset is past the
/// text's end or inside a character (`BadPlace`), or else the new name is no identifier (`BadName`)
/// (JLS 3.8).
pub fn refusal_of_request(
    alloc: Global,
    file: &Name,
    text: &Text,
    at: u32,
    new: &Name,
) -> Result<Option<Refusal>, AllocError>
    ensures { IfOk result (λ found. MatchOption found (CanStand text.now at × IsName new.now)
        (λ r. IsUnasked file.now text.now at new.now (refusal_of r))) }
{
    let span = Span { from: at, to: at };
    if !text.can_cut(span) {
        let file = Name::new(alloc, file.as_str())?;
        return Ok(Some(Refusal::BadPlace { file, at }));
    }
    if !is_name(new.as_str()) {
        let name = Name::new(alloc, new.as_str())?;
        return Ok(Some(Refusal::BadName { name }));
    }
    Ok(None)
}
