//! Which modifiers a declaration may have.
ghost use Rattle.std.specs.Prelude.{IsTrue, ◌↔◌, Contains};
ghost use Rattle.jr_ast.specs.declared.operators.ModWord.{ModWord};
ghost use Rattle.jr_ast.specs.declared.operators.ModWord.TheVariants as word;
ghost use Rattle.jr_table.specs.Resolving.{HasWord};
ghost use Rattle.jr_table.specs.Faults.{IsTwice, IsAccess, TopWord, InnerWord};
ghost use Rattle.jr_table.specs.Faults.{FieldWord, MethodWord, AreBad};
ghost use Rattle.jr_build_declared.specs.DeclarationFaults.{May, HasTwice, HasTwoAccesses, HasOther};

use jr_ast::ModWord;

/// What is declared, and with it the words that may stand there.
#[derive(Clone, Copy, PartialEq, Eq, Debug, Drop)]
pub enum Allowed {
    Top,
    Inner,
    Field,
    Method,
    Ctor,
}

/// Whether the word is an element of them.
fn holds_word(words: &[ModWord], word: ModWord) -> bool
    ensures { IsTrue result ↔ Contains words.now word }
{
    words.contains(&word)
}

/// Whether the word is among them.
pub fn has_word(words: &[ModWord], word: ModWord) -> bool
    ensures { IsTrue result ↔ HasWord words.now word }
{
    holds_word(words, word)
}

fn may_top(word: ModWord) -> bool
    ensures { IsTrue result ↔ TopWord word }
{
    match word {
        ModWord::Public | ModWord::Final => true,
        ModWord::Protected | ModWord::Private | ModWord::Static => false,
        ModWord::Volatile | ModWord::Synchronized => false,
    }
}

fn may_inner(word: ModWord) -> bool
    ensures { IsTrue result ↔ InnerWord word }
{
    match word {
        ModWord::Public | ModWord::Protected | ModWord::Private => true,
        ModWord::Static | ModWord::Final => true,
        ModWord::Volatile | ModWord::Synchronized => false,
    }
}

fn may_field(word: ModWord) -> bool
    ensures { IsTrue result ↔ FieldWord word }
{
    match word {
        ModWord::Public | ModWord::Protected | ModWord::Private => true,
        ModWord::Static | ModWord::Final | ModWord::Volatile => true,
        ModWord::Synchronized => false,
    }
}

fn may_method(word: ModWord) -> bool
    ensures { IsTrue result ↔ MethodWord word }
{
    match word {
        ModWord::Public | ModWord::Protected | ModWord::Private => true,
        ModWord::Static | ModWord::Final | ModWord::Synchronized => true,
        ModWord::Volatile => false,
    }
}

fn may_ctor(word: ModWord) -> bool
    ensures { IsTrue result ↔ IsAccess word }
{
    match word {
        ModWord::Public | ModWord::Protected | ModWord::Private => true,
        ModWord::Static | ModWord::Final => false,
        ModWord::Volatile | ModWord::Synchronized => false,
    }
}

/// Whether the word may stand there.
fn may(allowed: Allowed, word: ModWord) -> bool
    ensures { IsTrue result ↔ May allowed word }
{
    match allowed {
        Allowed::Top => may_top(word),
        Allowed::Inner => may_inner(word),
        Allowed::Field => may_field(word),
        Allowed::Method => may_method(word),
        Allowed::Ctor => may_ctor(word),
    }
}

/// Whether a word stands twice. There are seven words, so one of the first eight finds it.
fn has_twice(words: &[ModWord]) -> bool
    ensures { IsTrue result ↔ HasTwice words.now }
{
    for (number, word) in words.iter().enumerate() {
        if has_word(&words[number + 1..], *word) {
            return true;
        }
    }
    false
}

/// Whether two words of access stand there.
fn has_two_accesses(words: &[ModWord]) -> bool
    ensures { IsTrue result ↔ HasTwoAccesses words.now }
{
    let public = has_word(words, ModWord::Public);
    let protected = has_word(words, ModWord::Protected);
    let private = has_word(words, ModWord::Private);
    (public & protected) | (public & private) | (protected & private)
}

/// Whether a word stands there that may not.
fn has_other(words: &[ModWord], allowed: Allowed) -> bool
    ensures { IsTrue result ↔ HasOther (May allowed) words.now }
{
    for word in words {
        if !may(allowed, *word) {
            return true;
        }
    }
    false
}

/// Whether `final` stands beside `volatile`.
fn has_final_volatile(words: &[ModWord]) -> bool
    ensures { IsTrue result ↔ (HasWord words.now word.Final × HasWord words.now word.Volatile) }
{
    has_word(words, ModWord::Final) & has_word(words, ModWord::Volatile)
}

/// Whether modifiers are at fault, where these words may stand (JLS 8.1.1, 8.3.1, 8.4.3, 8.8.3).
pub fn are_bad(words: &[ModWord], allowed: Allowed) -> bool
    ensures { IsTrue result ↔ AreBad (May allowed) words.now }
{
    let twice = has_twice(words);
    let accesses = has_two_accesses(words);
    let other = has_other(words, allowed);
    let both = has_final_volatile(words);
    twice | accesses | other | both
}
