//! What the modifiers of a declaration say (JLS 6.6, 8.4.3).
ghost use Rattle.std.specs.Prelude.{◌≡◌};
ghost use Rattle.std.specs.List.{list_any};
ghost use Rattle.jr_table.specs.Entries as entries;
ghost use Rattle.jr_table.specs.Context as context;
ghost use Rattle.jr_table.specs.HeadRules.{access_of};
ghost use Rattle.jr_bind_parts.specs.OverrideWords as pure;

use jr_ast::ModWord;
use jr_table::Mods;

/// How far a word lets a declaration be seen: `private`, `protected`, `public` (JLS 6.6).
fn word_access(word: &ModWord) -> Option<u32>
    ensures { result ≡ pure.word_access word.now }
{
    match word {
        ModWord::Private => Some(0),
        ModWord::Protected => Some(2),
        ModWord::Public => Some(3),
        ModWord::Static => None,
        ModWord::Final => None,
        ModWord::Volatile => None,
        ModWord::Synchronized => None,
    }
}

/// How far a declaration may be seen; without a word, in the package alone.
pub fn access(words: &[ModWord]) -> u32
    ensures { result ≡ access_of words.now }
{
    for word in words {
        if let Some(access) = word_access(word) {
            return access;
        }
    }
    1
}

fn is_static_word(word: &ModWord) -> bool
    ensures { result ≡ entries.is_static_word word.now }
{
    match word {
        ModWord::Static => true,
        _ => false,
    }
}

pub fn has_static(words: &Mods) -> bool
    ensures { result ≡ list_any entries.is_static_word words.now }
{
    words.as_slice().iter().any(is_static_word)
}

fn is_private_word(word: &ModWord) -> bool
    ensures { result ≡ entries.is_private_word word.now }
{
    match word {
        ModWord::Private => true,
        _ => false,
    }
}

pub fn has_private(words: &Mods) -> bool
    ensures { result ≡ list_any entries.is_private_word words.now }
{
    words.as_slice().iter().any(is_private_word)
}

fn is_final_word(word: &ModWord) -> bool
    ensures { result ≡ context.is_final_word word.now }
{
    match word {
        ModWord::Final => true,
        _ => false,
    }
}

pub fn has_final(words: &Mods) -> bool
    ensures { result ≡ list_any context.is_final_word words.now }
{
    words.as_slice().iter().any(is_final_word)
}
