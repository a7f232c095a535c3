//! The token that ends, or begins, at a place of a text: found by halves, as items stand in order.
ghost use Rattle.std.specs.Prelude.{◌≡◌, List, ℕ};
ghost use Rattle.jr_lex.specs.Lexes.{Lexes};
ghost use Rattle.jr_moved_texts.specs.Spaces as pure;

use jr_lex::{Item, ItemKind, TokenKind, items_are_placed};

fn token_of(kind: ItemKind) -> Option<TokenKind>
    ensures { result ≡ pure.token_in kind }
{
    match kind {
        ItemKind::Token(token) => Some(token),
        ItemKind::Blank => None,
        ItemKind::Comment => None,
    }
}

/// The token that ends at the place, if one does.
pub(crate) fn ending_at(items: &[Item], at: u32) -> Option<TokenKind>
    requires { (text : List ℕ) × Lexes text items.now }
    ensures { result ≡ pure.ending_at at items.now }
{
    items_are_placed();
    let number = items.partition_point(|item| item.span.to < at);
    match items.get(number) {
        None => None,
        Some(item) => {
            if item.span.to == at {
                token_of(item.kind)
            } else {
                None
            }
        }
    }
}

/// The token that begins at the place, if one does.
pub(crate) fn beginning_at(items: &[Item], at: u32) -> Option<TokenKind>
    requires { (text : List ℕ) × Lexes text items.now }
    ensures { result ≡ pure.beginning_at at items.now }
{
    items_are_placed();
    let number = items.partition_point(|item| item.span.from < at);
    match items.get(number) {
        None => None,
        Some(item) => {
            if item.span.from == at {
                token_of(item.kind)
            } else {
                None
            }
        }
    }
}
