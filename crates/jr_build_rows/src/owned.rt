//! Names, keys and types that a row keeps.
ghost use Rattle.std.specs.Prelude.{◌≡◌, IfOk, filter, map, option_map};
ghost use Rattle.jr_table.specs.ProgramRows as rows;
ghost use Rattle.jr_table.specs.TypeView.{class_key_of, ty_of};
ghost use Rattle.jr_build_hierarchy.specs.HierarchyView.{meaning_of};
ghost use Rattle.jr_build_declared.specs.DeclaredView.{text_of, declaration_key_of};

use jr_ast::{ModWord, Name};
use jr_build_declared::declarations::DeclaredKey;
use jr_build_hierarchy::meanings::Meaning;
use jr_table::{ClassKey, Mods, Ty, Tys};
use std::alloc::{AllocError, Global};

fn maybe_name(alloc: Global, name: Option<&str>) -> Result<Option<Name>, AllocError>
    ensures { IfOk result (λ n. n ≡ option_map text_of name.entry) }
{
    match name {
        None => Ok(None),
        Some(name) => Ok(Some(Name::new(alloc, name)?)),
    }
}

/// A class's key, with names of its own.
pub fn owned_key(alloc: Global, key: &DeclaredKey<'_>) -> Result<ClassKey, AllocError>
    ensures { IfOk result (λ k. class_key_of k ≡ declaration_key_of key.now) }
{
    let outer = maybe_name(alloc, key.outer)?;
    let name = Name::new(alloc, key.name)?;
    Ok(ClassKey { outer, name })
}

/// A class's key, if there is one, with names of its own.
pub fn maybe_owned_key(
    alloc: Global,
    key: &Option<DeclaredKey<'_>>,
) -> Result<Option<ClassKey>, AllocError>
    ensures { IfOk result (λ k. option_map class_key_of k ≡ option_map declaration_key_of key.now) }
{
    match key {
        None => Ok(None),
        Some(key) => Ok(Some(owned_key(alloc, key)?)),
    }
}

/// A type, with names of its own.
fn owned_type(alloc: Global, meaning: &Meaning<'_>) -> Result<Ty, AllocError>
    ensures { IfOk result (λ t. ty_of t ≡ meaning_of meaning.now) }
{
    match meaning {
        Meaning::Int => Ok(Ty::Int),
        Meaning::Boolean => Ok(Ty::Boolean),
        Meaning::Class(key) => Ok(Ty::Class(owned_key(alloc, key)?)),
    }
}

/// A type, if there is one, with names of its own.
pub fn maybe_owned_type(
    alloc: Global,
    meaning: &Option<Meaning<'_>>,
) -> Result<Option<Ty>, AllocError>
    ensures { IfOk result (λ t. option_map ty_of t ≡ option_map meaning_of meaning.now) }
{
    match meaning {
        None => Ok(None),
        Some(meaning) => Ok(Some(owned_type(alloc, meaning)?)),
    }
}

/// Types, with names of their own.
pub fn owned_types(alloc: Global, meanings: &[Meaning<'_>]) -> Result<Tys, AllocError>
    ensures { IfOk result (λ ts. ts ≡ map meaning_of meanings.now) }
{
    let mut types = Vec::new(alloc);
    for meaning in meanings {
        types.push(owned_type(alloc, meaning)?)?;
    }
    Tys::from_vec(types)
}

/// The words once more.
pub fn owned_words(alloc: Global, words: &[ModWord]) -> Result<Mods, AllocError>
    ensures { IfOk result (λ m. m ≡ words.now) }
{
    Ok(Mods::from_vec(words.to_vec(alloc)?))
}

/// Whether it is a word of access.
fn is_access(word: ModWord) -> bool
    ensures { result ≡ rows.is_access word }
{
    match word {
        ModWord::Public | ModWord::Protected | ModWord::Private => true,
        ModWord::Static | ModWord::Final | ModWord::Volatile | ModWord::Synchronized => false,
    }
}

/// The words of access among them.
pub fn access_words(alloc: Global, words: &[ModWord]) -> Result<Mods, AllocError>
    ensures { IfOk result (λ m. m ≡ filter rows.is_access words.now) }
{
    let mut access = Vec::new(alloc);
    for word in words {
        if is_access(*word) {
            access.push(*word)?;
        }
    }
    Ok(Mods::from_vec(access))
}
