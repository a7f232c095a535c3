//! Tokens by what they can be in an expression.
ghost use Rattle.std.specs.Prelude.{◌≡◌};
ghost use Rattle.jr_pexpr.specs.Pieces as pure;
ghost use Rattle.jr_pexpr.specs.TokenView.{token_view};
ghost use Rattle.jr_pexpr.specs.PieceView.{piece_view};

use crate::tokens::Token;
use jr_ast::BinOp;
use jr_lex::{Keyword, Symbol};

/// `++` or `--`.
#[derive(Clone, Copy)]
pub(crate) enum Way {
    Up,
    Down,
}

/// A token that is an expression by itself, other than a name.
#[derive(Clone, Copy)]
pub(crate) enum Atom<'t> {
    Number(u32),
    Truth(bool),
    Null,
    Text(&'t str),
    This,
}

/// What a token can be in an expression.
#[derive(Clone, Copy)]
pub(crate) enum Piece<'t> {
    Word(&'t str),
    Atom(Atom<'t>),
    Super,
    New,
    Class,
    Open,
    Close,
    Comma,
    Dot,
    Bang,
    Bump(Way),
    /// A binary operator, or a sign.
    Operator(BinOp),
    Equals,
    Compound(BinOp),
    /// What no expression has.
    OtherKeyword(Keyword),
    OtherSymbol(Symbol),
}

fn keyword_piece<'t>(keyword: Keyword) -> Piece<'t>
    ensures { piece_view result ≡ pure.keyword_piece keyword }
{
    match keyword {
        Keyword::Class => Piece::Class,
        Keyword::New => Piece::New,
        Keyword::Super => Piece::Super,
        Keyword::This => Piece::Atom(Atom::This),
        Keyword::True => Piece::Atom(Atom::Truth(true)),
        Keyword::False => Piece::Atom(Atom::Truth(false)),
        Keyword::Null => Piece::Atom(Atom::Null),
        other => Piece::OtherKeyword(other),
    }
}

fn symbol_piece<'t>(symbol: Symbol) -> Piece<'t>
    ensures { piece_view result ≡ pure.symbol_piece symbol }
{
    match symbol {
        Symbol::OpenParen => Piece::Open,
        Symbol::CloseParen => Piece::Close,
        Symbol::Comma => Piece::Comma,
        Symbol::Dot => Piece::Dot,
        Symbol::Bang => Piece::Bang,
        Symbol::PlusPlus => Piece::Bump(Way::Up),
        Symbol::MinusMinus => Piece::Bump(Way::Down),
        Symbol::BarBar => Piece::Operator(BinOp::Or),
        Symbol::AndAnd => Piece::Operator(BinOp::And),
        Symbol::EqualEqual => Piece::Operator(BinOp::Eq),
        Symbol::NotEqual => Piece::Operator(BinOp::Ne),
        Symbol::Less => Piece::Operator(BinOp::Lt),
        Symbol::Greater => Piece::Operator(BinOp::Gt),
        Symbol::LessEqual => Piece::Operator(BinOp::Le),
        Symbol::GreaterEqual => Piece::Operator(BinOp::Ge),
        Symbol::Plus => Piece::Operator(BinOp::Add),
        Symbol::Minus => Piece::Operator(BinOp::Sub),
        Symbol::Star => Piece::Operator(BinOp::Mul),
        Symbol::Slash => Piece::Operator(BinOp::Div),
        Symbol::Percent => Piece::Operator(BinOp::Rem),
        Symbol::Equals => Piece::Equals,
        Symbol::PlusEquals => Piece::Compound(BinOp::Add),
        Symbol::MinusEquals => Piece::Compound(BinOp::Sub),
        Symbol::StarEquals => Piece::Compound(BinOp::Mul),
        Symbol::SlashEquals => Piece::Compound(BinOp::Div),
        Symbol::PercentEquals => Piece::Compound(BinOp::Rem),
        other => Piece::OtherSymbol(other),
    }
}

/// What the token can be in an expression.
pub(crate) fn piece_of(token: Token<'_>) -> Piece<'_>
    ensures { piece_view result ≡ pure.piece_of (token_view token.entry) }
{
    match token {
        Token::Word(word) => Piece::Word(word),
        Token::Keyword(keyword) => keyword_piece(keyword),
        Token::Int(value) => Piece::Atom(Atom::Number(value)),
        Token::Text(text) => Piece::Atom(Atom::Text(text)),
        Token::Symbol(symbol) => symbol_piece(symbol),
    }
}
