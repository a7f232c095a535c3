//! Tokens of a text (JLS 3.5).
ghost use Rattle.std.specs.Prelude.{◌≡◌, option_map};
ghost use Rattle.jr_lex.specs.Places.{IsPlaced};
ghost use Rattle.jr_grammar.specs.Tokens.{token_of, token_of_kind};
ghost use Rattle.jr_pexpr.specs.TokenView.{token_view};

use jr_lex::{Item, ItemKind, Keyword, Symbol, TokenKind};
use jr_text::Text;

/// What a token is, whatever its place (JLS 3.5).
#[derive(Clone, Copy, Debug)]
pub enum Token<'t> {
    /// An identifier (JLS 3.8).
    Word(&'t str),
    /// A keyword, or `true`, `false` or `null` (JLS 3.9, 3.10.3, 3.10.7).
    Keyword(Keyword),
    /// An integer literal, by its value (JLS 3.10.1).
    Int(u32),
    /// A string literal, by what stands between its quotes (JLS 3.10.5).
    Text(&'t str),
    /// A separator or an operator (JLS 3.11, 3.12).
    Symbol(Symbol),
}

/// A string, by what stands between its quotes.
fn string<'t>(text: &'t Text, item: &Item) -> Token<'t>
    requires placed { IsPlaced text.now item.now }
    requires kind { item.now.kind ≡ ItemKind.Token TokenKind.Text }
    ensures { token_view result ≡ token_of_kind text.now item.now.span TokenKind.Text }
{
    let from = item.span.from as usize + 1;
    let to = item.span.to as usize - 1;
    Token::Text(&text.as_str()[from..to])
}

fn placed_token<'t>(text: &'t Text, item: &Item, kind: TokenKind) -> Token<'t>
    requires placed { IsPlaced text.now item.now }
    requires kind { item.now.kind ≡ ItemKind.Token kind }
    ensures { token_view result ≡ token_of_kind text.now item.now.span kind }
{
    match kind {
        TokenKind::Word => Token::Word(text.part(item.span)),
        TokenKind::Keyword(keyword) => Token::Keyword(keyword),
        TokenKind::Int(value) => Token::Int(value),
        TokenKind::Text => string(text, item),
        TokenKind::Mark(symbol) => Token::Symbol(symbol),
    }
}

/// The token that an item is; `None` for blanks and comments.
pub fn token_at<'t>(text: &'t Text, item: &Item) -> Option<Token<'t>>
    requires { IsPlaced text.now item.now }
    ensures { option_map token_view result ≡ token_of text.now item.now.span item.now.kind }
{
    match item.kind {
        ItemKind::Token(kind) => Some(placed_token(text, item, kind)),
        ItemKind::Blank => None,
        ItemKind::Comment => None,
    }
}
