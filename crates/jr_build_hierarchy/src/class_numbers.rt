//! The numbers of a program's classes.
ghost use Rattle.std.specs.Prelude.{◌≡◌, ◌++◌, ◌<◌, ◌^◌, IfOk, OnOk, length, map, option_map};
ghost use Rattle.std.specs.List.{list_any};
ghost use Rattle.jr_table.specs.Entries.{is_private_word};
ghost use Rattle.jr_build_declared.specs.KeyIndex.{number_at};
ghost use Rattle.jr_build_declared.specs.DeclaredView.{item_of, declaration_of};
ghost use Rattle.jr_build_hierarchy.specs.HierarchyView.{keys_of};
ghost use Rattle.jr_build_hierarchy.specs.Hierarchies as pure;
ghost use Rattle.jr_index.specs.Names.{named};
ghost use Rattle.jr_build_declared.specs.DeclaredView.{declaration_key_of};
ghost use Rattle.jr_build_hierarchy.specs.Superclasses.{IsNumbering, HasInner, PutsInner};

use jr_ast::ModWord;
use jr_build_declared::declarations::{DeclaredItem, DeclaredKey, DeclaredKind};
use jr_build_declared::key_index::KeyIndex;
use jr_build_declared::twice_classes::class_key;
use jr_index::Names;
use std::alloc::{AllocError, Global};

/// The class that each declaration declares.
fn declaration_keys<'a>(
    alloc: Global,
    declarations: &[DeclaredItem<'a>],
) -> Result<Vec<Option<DeclaredKey<'a>>>, AllocError>
    ensures { IfOk result (λ keys.
        keys_of keys.items ≡ pure.declaration_keys (map declaration_of declarations.now)) }
{
    let mut keys = Vec::new(alloc);
    for declaration in declarations {
        keys.push(class_key(&declaration.item))?;
    }
    Ok(keys)
}

/// Puts a class behind the others that is no member class.
fn push_top<'a>(keys: &mut Vec<Option<DeclaredKey<'a>>>, name: &'a str) -> Result<(), AllocError>
    ensures { OnOk result
        (keys_of keys.new.items ≡ keys_of keys.old.items ++ pure.one_class name.now) }
{
    keys.push(Some(DeclaredKey { outer: None, name }))?;
    Ok(())
}

/// The class of each number: those of the declarations, and the prelude's behind them.
pub fn class_keys<'a>(
    alloc: Global,
    declarations: &[DeclaredItem<'a>],
) -> Result<Vec<Option<DeclaredKey<'a>>>, AllocError>
    ensures { IfOk result (λ keys.
        keys_of keys.items ≡ pure.class_keys (map declaration_of declarations.now)) }
{
    let mut keys = declaration_keys(alloc, declarations)?;
    push_top(&mut keys, "Object")?;
    push_top(&mut keys, "String")?;
    push_top(&mut keys, "Class")?;
    push_top(&mut keys, "Thread")?;
    Ok(keys)
}

fn is_private_word(word: &ModWord) -> bool
    ensures { result ≡ is_private_word word.now }
{
    match word {
        ModWord::Private => true,
        _ => false,
    }
}

fn has_private(words: &[ModWord]) -> bool
    ensures { result ≡ list_any is_private_word words.now }
{
    words.iter().any(is_private_word)
}

/// Whether an item declares a private class.
fn is_private(item: &DeclaredKind<'_>) -> bool
    ensures { result ≡ pure.is_private_item (item_of item.now) }
{
    match item {
        DeclaredKind::Class(class) => has_private(&class.modifiers),
        DeclaredKind::Field(_) | DeclaredKind::Method(_) | DeclaredKind::Ctor(_) => false,
    }
}

/// Whether each declaration declares a private class.
pub fn privates(alloc: Global, declarations: &[DeclaredItem<'_>]) -> Result<Vec<bool>, AllocError>
    ensures { IfOk result (λ privates.
        privates.items ≡ pure.privates_of (map declaration_of declarations.now)) }
{
    let mut privates = Vec::new(alloc);
    for declaration in declarations {
        privates.push(is_private(&declaration.item))?;
    }
    Ok(privates)
}

/// Puts the number under the name of a member class.
fn put_inner<'a>(
    inner: &mut Names<'a>,
    key: &Option<DeclaredKey<'a>>,
    number: u32,
) -> Result<(), AllocError>
    ensures { OnOk result (PutsInner (named inner.old) (option_map declaration_key_of key.now) number
        (named inner.new)) }
{
    match key {
        None => Ok(()),
        Some(key) => match key.outer {
            None => Ok(()),
            Some(_) => {
                let _before = inner.put(key.name, number)?;
                Ok(())
            }
        },
    }
}

/// The member classes by their names alone.
pub fn inner_names<'a>(
    alloc: Global,
    keys: &[Option<DeclaredKey<'a>>],
) -> Result<Names<'a>, AllocError>
    requires { length keys.now < 2 ^ 32 }
    ensures { IfOk result (λ inner. HasInner (keys_of keys.now) (length keys.now) (named inner)) }
{
    let mut inner = Names::new(alloc);
    for (number, key) in keys.iter().enumerate() {
        put_inner(&mut inner, key, number as u32)?;
    }
    Ok(inner)
}

/// The numbers by classes.
pub fn numbers<'a>(
    alloc: Global,
    keys: &[Option<DeclaredKey<'a>>],
) -> Result<KeyIndex<'a>, AllocError>
    requires { length keys.now < 2 ^ 32 }
    ensures { IfOk result (λ index.
        IsNumbering (keys_of keys.now) (length keys.now) (number_at index)) }
{
    let mut index = KeyIndex::new(alloc);
    for (number, key) in keys.iter().enumerate() {
        let _before = index.put_maybe(key, number as u32)?;
    }
    Ok(index)
}
