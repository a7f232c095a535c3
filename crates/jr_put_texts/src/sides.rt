//! Which tokens may stand directly beside one another, so that a text is cut into them (JLS 3.2).
ghost use Rattle.std.specs.Prelude.{◌≡◌, ℕ, Bool, not};
ghost use Rattle.jr_lex.specs.Beside as beside;
ghost use Rattle.jr_lex.specs.declared.items.Keyword.{Keyword};
ghost use Rattle.jr_lex.specs.Characters as characters;
ghost use Rattle.jr_lex.specs.Symbols.{symbol_text};
ghost use Rattle.jr_lex.specs.declared.items.TokenKind.TheVariants as kind;

use jr_lex::{Symbol, TokenKind};

/// An ASCII digit.
fn is_digit(byte: u8) -> bool
    ensures { result ≡ characters.is_digit byte }
{
    b'0' <= byte && byte <= b'9'
}

/// Whether a symbol goes on with the byte: to a longer one, a comment, or a number that is none.
fn goes_on(symbol: Symbol, byte: u8) -> bool
    ensures { result ≡ beside.goes_on symbol byte }
{
    match symbol {
        Symbol::Dot => is_digit(byte) || byte == b'.',
        Symbol::Colon => byte == b':',
        Symbol::Equals => byte == b'=',
        Symbol::Bang => byte == b'=',
        Symbol::Star => byte == b'=',
        Symbol::Caret => byte == b'=',
        Symbol::Percent => byte == b'=',
        Symbol::Greater => byte == b'=' || byte == b'>',
        Symbol::Less => byte == b'=' || byte == b'<',
        Symbol::Plus => byte == b'=' || byte == b'+',
        Symbol::Minus => byte == b'=' || byte == b'>' || byte == b'-',
        Symbol::And => byte == b'=' || byte == b'&',
        Symbol::Bar => byte == b'=' || byte == b'|',
        Symbol::Slash => byte == b'=' || byte == b'/' || byte == b'*',
        Symbol::ShiftLeft => byte == b'=',
        Symbol::ShiftRight => byte == b'=' || byte == b'>',
        Symbol::UnsignedShiftRight => byte == b'=',
        _ => false,
    }
}

/// The first byte of a symbol's text.
fn first_byte(symbol: Symbol) -> u8
    ensures { (test : ℕ → Bool) → characters.first_passes test (symbol_text symbol) ≡ test result }
{
    match symbol {
        Symbol::OpenParen => b'(',
        Symbol::CloseParen => b')',
        Symbol::OpenBrace => b'{',
        Symbol::CloseBrace => b'}',
        Symbol::OpenBracket => b'[',
        Symbol::CloseBracket => b']',
        Symbol::Semicolon => b';',
        Symbol::Comma => b',',
        Symbol::Dot | Symbol::Ellipsis => b'.',
        Symbol::At => b'@',
        Symbol::DoubleColon | Symbol::Colon => b':',
        Symbol::Equals | Symbol::EqualEqual => b'=',
        Symbol::Greater | Symbol::GreaterEqual => b'>',
        Symbol::ShiftRight | Symbol::UnsignedShiftRight => b'>',
        Symbol::ShiftRightEquals | Symbol::UnsignedShiftRightEquals => b'>',
        Symbol::Less | Symbol::LessEqual | Symbol::ShiftLeft | Symbol::ShiftLeftEquals => b'<',
        Symbol::Bang | Symbol::NotEqual => b'!',
        Symbol::Tilde => b'~',
        Symbol::Question => b'?',
        Symbol::Arrow | Symbol::MinusMinus | Symbol::Minus | Symbol::MinusEquals => b'-',
        Symbol::AndAnd | Symbol::And | Symbol::AndEquals => b'&',
        Symbol::BarBar | Symbol::Bar | Symbol::BarEquals => b'|',
        Symbol::PlusPlus | Symbol::Plus | Symbol::PlusEquals => b'+',
        Symbol::Star | Symbol::StarEquals => b'*',
        Symbol::Slash | Symbol::SlashEquals => b'/',
        Symbol::Caret | Symbol::CaretEquals => b'^',
        Symbol::Percent | Symbol::PercentEquals => b'%',
    }
}

/// Whether the other symbol may stand directly behind the symbol.
fn is_beside(symbol: Symbol, other: Symbol) -> bool
    ensures { result ≡ beside.symbol_beside symbol other }
{
    !goes_on(symbol, first_byte(other))
}

/// Whether a number may stand directly behind the symbol.
fn is_before_number(symbol: Symbol) -> bool
    ensures { result ≡ beside.number_beside symbol }
{
    match symbol {
        Symbol::Dot => false,
        _ => true,
    }
}

/// Whether the symbol may stand directly behind a number.
fn is_behind_number(symbol: Symbol) -> bool
    ensures { result ≡ not (beside.begins_with_dot symbol) }
{
    first_byte(symbol) != b'.'
}

/// Whether the token may stand directly behind the symbol.
fn is_behind_symbol(symbol: Symbol, token: TokenKind) -> bool
    ensures { result ≡ beside.token_beside (kind.Mark symbol) token }
{
    match token {
        TokenKind::Mark(other) => is_beside(symbol, other),
        TokenKind::Int(_) => is_before_number(symbol),
        TokenKind::Word => true,
        TokenKind::Keyword(_) => true,
        TokenKind::Text => true,
    }
}

/// Whether the token may stand directly behind a number.
fn is_after_number(token: TokenKind) -> bool
    ensures { (number : ℕ) → result ≡ beside.token_beside (kind.Int number) token }
{
    match token {
        TokenKind::Mark(symbol) => is_behind_number(symbol),
        TokenKind::Text => true,
        TokenKind::Int(_) => false,
        TokenKind::Word => false,
        TokenKind::Keyword(_) => false,
    }
}

/// Whether the token may stand directly behind a word.
fn is_after_word(token: TokenKind) -> bool
    ensures word { result ≡ beside.token_beside kind.Word token }
    ensures keyword { (word : Keyword) → result ≡ beside.token_beside (kind.Keyword word) token }
{
    match token {
        TokenKind::Mark(_) => true,
        TokenKind::Text => true,
        TokenKind::Int(_) => false,
        TokenKind::Word => false,
        TokenKind::Keyword(_) => false,
    }
}

/// Whether a token of the second kind may stand directly behind one of the first.
pub(crate) fn may_follow(first: TokenKind, second: TokenKind) -> bool
    ensures { result ≡ beside.token_beside first second }
{
    match first {
        TokenKind::Text => true,
        TokenKind::Mark(symbol) => is_behind_symbol(symbol, second),
        TokenKind::Int(_) => is_after_number(second),
        TokenKind::Word => is_after_word(second),
        TokenKind::Keyword(_) => is_after_word(second),
    }
}
