//! Tokens by what they can be in statements, members, classes and units, outside of their
//! expressions.
ghost use Rattle.std.specs.Prelude.{◌≡◌};
ghost use Rattle.jr_pexpr.specs.TokenView.{token_view};
ghost use Rattle.jr_pstmt.specs.Cues as pure;
ghost use Rattle.jr_pstmt.specs.CueView.{cue_view};

use jr_ast::ModWord;
use jr_lex::{Keyword, Symbol};
use jr_pexpr::Token;

/// `int` or `boolean`.
#[derive(Clone, Copy)]
pub enum Primitive {
    Int,
    Boolean,
}

/// What a token can be outside of expressions.
#[derive(Clone, Copy)]
pub enum Cue<'t> {
    Word(&'t str),
    Primitive(Primitive),
    /// `final` and `synchronized` too, which also stand in statements.
    Modifier(ModWord),
    If,
    Else,
    While,
    Return,
    Void,
    Class,
    Extends,
    Package,
    Super,
    Open,
    Close,
    OpenBrace,
    CloseBrace,
    Semicolon,
    Comma,
    Dot,
    Equals,
    /// What stands in expressions alone, or nowhere.
    Other(Token<'t>),
}

fn keyword_cue<'t>(keyword: Keyword) -> Cue<'t>
    ensures { cue_view result ≡ pure.keyword_cue keyword }
{
    match keyword {
        Keyword::Int => Cue::Primitive(Primitive::Int),
        Keyword::Boolean => Cue::Primitive(Primitive::Boolean),
        Keyword::Public => Cue::Modifier(ModWord::Public),
        Keyword::Protected => Cue::Modifier(ModWord::Protected),
        Keyword::Private => Cue::Modifier(ModWord::Private),
        Keyword::Static => Cue::Modifier(ModWord::Static),
        Keyword::Final => Cue::Modifier(ModWord::Final),
        Keyword::Volatile => Cue::Modifier(ModWord::Volatile),
        Keyword::Synchronized => Cue::Modifier(ModWord::Synchronized),
        Keyword::If => Cue::If,
        Keyword::Else => Cue::Else,
        Keyword::While => Cue::While,
        Keyword::Return => Cue::Return,
        Keyword::Void => Cue::Void,
        Keyword::Class => Cue::Class,
        Keyword::Extends => Cue::Extends,
        Keyword::Package => Cue::Package,
        Keyword::Super => Cue::Super,
        other => Cue::Other(Token::Keyword(other)),
    }
}

fn symbol_cue<'t>(symbol: Symbol) -> Cue<'t>
    ensures { cue_view result ≡ pure.symbol_cue symbol }
{
    match symbol {
        Symbol::OpenParen => Cue::Open,
        Symbol::CloseParen => Cue::Close,
        Symbol::OpenBrace => Cue::OpenBrace,
        Symbol::CloseBrace => Cue::CloseBrace,
        Symbol::Semicolon => Cue::Semicolon,
        Symbol::Comma => Cue::Comma,
        Symbol::Dot => Cue::Dot,
        Symbol::Equals => Cue::Equals,
        other => Cue::Other(Token::Symbol(other)),
    }
}

/// What the token can be outside of expressions.
pub fn cue_of(token: Token<'_>) -> Cue<'_>
    ensures { cue_view result ≡ pure.cue_of (token_view token.entry) }
{
    match token {
        Token::Word(word) => Cue::Word(word),
        Token::Keyword(keyword) => keyword_cue(keyword),
        Token::Int(_) => Cue::Other(token),
        Token::Text(_) => Cue::Other(token),
        Token::Symbol(symbol) => symbol_cue(symbol),
    }
}
