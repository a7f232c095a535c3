//! The class, field or method with which one collides that gets a name.
ghost use Rattle.std.specs.Prelude.{◌≡◌, ◌↔◌, ℕ, IfOk, IsTrue, map, option_map, codes};
ghost use Rattle.jr_table.specs.Decls as decls;
ghost use Rattle.jr_table.specs.Entries.{name_of, IsRowOf};
ghost use Rattle.jr_table.specs.KeyView.{decl_of};
ghost use Rattle.jr_table.specs.Prelude.{top_key};
ghost use Rattle.jr_table.specs.TypeView.{class_key_of};
ghost use Rattle.jr_images.specs.Clashes.{ClassClashes};
ghost use Rattle.jr_rename.specs.RowClashes.{OneTakesPlace};
ghost use Rattle.jr_rename.specs.RowAnswers.{IsFirstOf, TellsClass};

use crate::row_clashes::{class_clash, member_clash};
use jr_ast::Name;
use jr_table::{ClassKey, Decl, Table};
use std::alloc::{AllocError, Global};

fn copy_of(decl: Option<&Decl>) -> Result<Option<Decl>, AllocError>
    ensures { IfOk result (λ o. option_map decl_of o ≡ option_map (λ d. decl_of d.now) decl.entry) }
{
    match decl {
        None => Ok(None),
        Some(decl) => Ok(Some(decl.copy()?)),
    }
}

// ---- classes

fn runnable(alloc: Global) -> Result<ClassKey, AllocError>
    ensures { IfOk result (λ k. class_key_of k ≡ top_key (codes "Runnable")) }
{
    let name = Name::new(alloc, "Runnable")?;
    Ok(ClassKey { outer: None, name })
}

/// Whether the name is a class's, of which the table has none.
fn is_reserved(table: &Table, class: &ClassKey, name: &Name) -> bool
    ensures { IsTrue result ↔ ((name.now ≡ (class_key_of class.now).name)
        × ((n : ℕ) → IsRowOf table.now (decls.class_decl (class_key_of class.now)) n → ⊥)) }
{
    table.keeps_rows();
    (name == &class.name) & table.class_number(class).is_none()
}

/// The first declaration with which a class collides that gets the name (JLS 7.6, 8.5).
fn first_of_class(table: &Table, class: &ClassKey, new: &Name) -> Result<Option<Decl>, AllocError>
    ensures { IfOk result (λ o. IsFirstOf table.now
        (ClassClashes (class_key_of class.now) new.now) (option_map decl_of o)) }
{
    copy_of(class_clash(table.rows(), class, new))
}

/// With what a class collides that gets a name which it hasn't: a name of the prelude that no class
/// has comes first.
pub(crate) fn class_told(
    alloc: Global,
    table: &Table,
    class: &ClassKey,
    new: &Name,
) -> Result<Option<Decl>, AllocError>
    ensures { IfOk result (λ o. TellsClass table.now (class_key_of class.now) new.now
        (option_map decl_of o)) }
{
    let runnable = runnable(alloc)?;
    if is_reserved(table, &runnable, new) {
        return Ok(Some(Decl::Class(runnable)));
    }
    first_of_class(table, class, new)
}

// ---- members

/// The first declaration whose place one of these fields and methods takes where they get the name
/// (JLS 8.3, 8.4, 8.5).
pub(crate) fn member_told(
    table: &Table,
    renamed: &[Decl],
    new: &Name,
) -> Result<Option<Decl>, AllocError>
    ensures { IfOk result (λ o. IsFirstOf table.now
        (OneTakesPlace (map decl_of renamed.now) new.now) (option_map decl_of o)) }
{
    copy_of(member_clash(table.rows(), renamed, new))
}

// ---- names

/// Whether a declaration that is no local has the name. A constructor has none.
pub(crate) fn has_name(decl: &Decl, name: &Name) -> bool
    ensures { IsTrue result ↔ (name_of (decl_of decl.now) ≡ name.now) }
{
    match decl {
        Decl::Class(key) => &key.name == name,
        Decl::Field(key) => &key.name == name,
        Decl::Method(key) => &key.name == name,
        Decl::Ctor(_) => name.as_str().is_empty(),
        Decl::Local(_) => name.as_str().is_empty(),
    }
}
