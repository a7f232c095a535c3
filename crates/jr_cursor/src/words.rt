//! The identifier at a place of a text, by its items.
ghost use Rattle.std.specs.Prelude.{◌≡◌, ◌↔◌, ℕ, None, IsTrue, IfSome};
ghost use Rattle.jr_lex.specs.declared.items.ItemKind.TheVariants as item;
ghost use Rattle.jr_lex.specs.declared.items.TokenKind.TheVariants as token;
ghost use Rattle.jr_cursor.specs.Words.{Holds, IsHolder};

use jr_lex::{Item, ItemKind, TokenKind};

fn is_word(kind: &TokenKind) -> bool
    ensures { IsTrue result ↔ (kind.now ≡ token.Word) }
{
    match kind {
        TokenKind::Word => true,
        TokenKind::Keyword(_) => false,
        TokenKind::Int(_) => false,
        TokenKind::Text => false,
        TokenKind::Mark(_) => false,
    }
}

fn is_identifier(kind: &ItemKind) -> bool
    ensures { IsTrue result ↔ (kind.now ≡ item.Token token.Word) }
{
    match kind {
        ItemKind::Token(kind) => is_word(kind),
        ItemKind::Blank => false,
        ItemKind::Comment => false,
    }
}

/// Whether the item is an identifier that holds the byte.
fn holds(item: &Item, at: u32) -> bool
    ensures { IsTrue result ↔ Holds item.now at }
{
    is_identifier(&item.kind) & ((item.span.from <= at) & (at < item.span.to))
}

/// Where the identifier among the items of a text begins that holds the byte.
pub fn identifier_at(items: &[Item], at: u32) -> Option<u32>
    ensures some { IfSome result (IsHolder items.now at) }
    ensures none { result ≡ None → (from : ℕ) → IsHolder items.now at from → ⊥ }
{
    for item in items {
        if holds(item, at) {
            return Some(item.span.from);
        }
    }
    None
}
