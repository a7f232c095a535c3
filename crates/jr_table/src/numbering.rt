//! Entries, made of rows.
ghost use Rattle.std.specs.Prelude.{◌≡◌, ◌<◌, ◌^◌, length, map, option_map, option_and_then, IfOk};
ghost use Rattle.std.specs.List.{list_any};
ghost use Rattle.jr_table.specs.Decls.{class_decl};
ghost use Rattle.jr_table.specs.TypeView.{class_key_of, ty_of};
ghost use Rattle.jr_table.specs.KeyView.{decl_of, member_key_of};
ghost use Rattle.jr_table.specs.RowView.{row_of};
ghost use Rattle.jr_table.specs.Entries as pure;
ghost use Rattle.jr_table.specs.ClassIndex.{FindsClasses};

use crate::class_index::ClassIndex;
use crate::classes::ClassKey;
use crate::decls::{Decl, MemberKey};
use crate::entries::{Entry, Kind, Kinds, Sort};
use crate::rows::{Mods, Row};
use crate::types::Ty;
use jr_ast::{ModWord, Name};
use std::alloc::{AllocError, Global};

fn sort(decl: &Decl) -> Sort
    ensures { result ≡ pure.sort_of (decl_of decl.now) }
{
    match decl {
        Decl::Class(_) => Sort::Class,
        Decl::Field(_) => Sort::Field,
        Decl::Method(_) => Sort::Method,
        Decl::Ctor(_) => Sort::Ctor,
        Decl::Local(_) => Sort::Local,
    }
}

fn class_of_member(member: &MemberKey) -> &ClassKey
    ensures { class_key_of result.now ≡ pure.class_of_member (member_key_of member.now) }
{
    match member {
        MemberKey::Head(key) => key,
        MemberKey::Field(key) => &key.class,
        MemberKey::Method(key) => &key.class,
        MemberKey::Ctor(key) => &key.class,
    }
}

fn class_of(decl: &Decl) -> &ClassKey
    ensures { class_key_of result.now ≡ pure.class_of (decl_of decl.now) }
{
    match decl {
        Decl::Class(key) => key,
        Decl::Field(key) => &key.class,
        Decl::Method(key) => &key.class,
        Decl::Ctor(key) => &key.class,
        Decl::Local(key) => class_of_member(&key.member),
    }
}

fn name(alloc: Global, decl: &Decl) -> Result<Name, AllocError>
    ensures { IfOk result (λ n. n ≡ pure.name_of (decl_of decl.now)) }
{
    match decl {
        Decl::Class(key) => key.name.copy(),
        Decl::Field(key) => key.name.copy(),
        Decl::Method(key) => key.name.copy(),
        Decl::Ctor(_) => Name::new(alloc, ""),
        Decl::Local(_) => Name::new(alloc, ""),
    }
}

/// The number of a class; where it has no row, a number that no row has.
fn class_number(rows: &[Row], classes: &ClassIndex, key: &ClassKey) -> u32
    requires few { length rows.now < 2 ^ 32 }
    requires found { FindsClasses (map row_of rows.now) classes.now }
    ensures { result ≡ pure.class_number (map row_of rows.now) (class_key_of key.now) }
{
    match classes.find(key) {
        None => rows.len() as u32,
        Some(number) => number,
    }
}

pub(crate) fn kind(rows: &[Row], classes: &ClassIndex, ty: &Ty) -> Kind
    requires few { length rows.now < 2 ^ 32 }
    requires found { FindsClasses (map row_of rows.now) classes.now }
    ensures { result ≡ pure.kind_of (map row_of rows.now) (ty_of ty.now) }
{
    match ty {
        Ty::Int => Kind::Int,
        Ty::Boolean => Kind::Boolean,
        Ty::Void => Kind::Void,
        Ty::Null => Kind::Null,
        Ty::Class(key) => Kind::Class(class_number(rows, classes, key)),
    }
}

fn maybe_kind(rows: &[Row], classes: &ClassIndex, ty: &Option<Ty>) -> Option<Kind>
    requires few { length rows.now < 2 ^ 32 }
    requires found { FindsClasses (map row_of rows.now) classes.now }
    ensures { result ≡ option_map (pure.kind_of (map row_of rows.now)) (option_map ty_of ty.now) }
{
    match ty {
        None => None,
        Some(ty) => Some(kind(rows, classes, ty)),
    }
}

pub(crate) fn kinds(
    alloc: Global,
    rows: &[Row],
    classes: &ClassIndex,
    tys: &[Ty],
) -> Result<Kinds, AllocError>
    requires few { length rows.now < 2 ^ 32 }
    requires found { FindsClasses (map row_of rows.now) classes.now }
    ensures { IfOk result (λ k. k ≡ map (pure.kind_of (map row_of rows.now)) (map ty_of tys.now)) }
{
    let mut kinds = Vec::with_capacity(alloc, tys.len())?;
    for ty in tys {
        kinds.push(kind(rows, classes, ty))?;
    }
    Ok(Kinds::from_vec(kinds))
}

fn params(
    alloc: Global,
    rows: &[Row],
    classes: &ClassIndex,
    decl: &Decl,
) -> Result<Kinds, AllocError>
    requires few { length rows.now < 2 ^ 32 }
    requires found { FindsClasses (map row_of rows.now) classes.now }
    ensures { IfOk result (λ k.
        k ≡ map (pure.kind_of (map row_of rows.now)) (pure.params_of (decl_of decl.now))) }
{
    match decl {
        Decl::Method(key) => kinds(alloc, rows, classes, key.params.as_slice()),
        Decl::Ctor(key) => kinds(alloc, rows, classes, key.params.as_slice()),
        Decl::Class(_) => Ok(Kinds::from_vec(Vec::new(alloc))),
        Decl::Field(_) => Ok(Kinds::from_vec(Vec::new(alloc))),
        Decl::Local(_) => Ok(Kinds::from_vec(Vec::new(alloc))),
    }
}

fn parent(rows: &[Row], classes: &ClassIndex, key: &Option<ClassKey>) -> Option<u32>
    requires found { FindsClasses (map row_of rows.now) classes.now }
    ensures { result ≡ option_and_then
        (λ k. pure.number_of (map row_of rows.now) (class_decl k))
        (option_map class_key_of key.now) }
{
    match key {
        None => None,
        Some(key) => classes.find(key),
    }
}

fn top(rows: &[Row], classes: &ClassIndex, name: &Option<Name>) -> Option<u32>
    requires found { FindsClasses (map row_of rows.now) classes.now }
    ensures { result ≡ option_and_then
        (λ n. pure.number_of (map row_of rows.now) (pure.top_class n)) name.now }
{
    match name {
        None => None,
        Some(name) => classes.find_top(name),
    }
}

fn outer(rows: &[Row], classes: &ClassIndex, decl: &Decl) -> Option<u32>
    requires found { FindsClasses (map row_of rows.now) classes.now }
    ensures { result ≡ option_and_then
        (λ n. pure.number_of (map row_of rows.now) (pure.top_class n))
        (pure.outer_name (decl_of decl.now)) }
{
    match decl {
        Decl::Class(key) => top(rows, classes, &key.outer),
        Decl::Field(_) => None,
        Decl::Method(_) => None,
        Decl::Ctor(_) => None,
        Decl::Local(_) => None,
    }
}

fn is_static_word(word: &ModWord) -> bool
    ensures { result ≡ pure.is_static_word word.now }
{
    match word {
        ModWord::Static => true,
        _ => false,
    }
}

fn is_private_word(word: &ModWord) -> bool
    ensures { result ≡ pure.is_private_word word.now }
{
    match word {
        ModWord::Private => true,
        _ => false,
    }
}

fn is_static(words: &Mods) -> bool
    ensures { result ≡ list_any pure.is_static_word words.now }
{
    words.as_slice().iter().any(is_static_word)
}

fn is_private(words: &Mods) -> bool
    ensures { result ≡ list_any pure.is_private_word words.now }
{
    words.as_slice().iter().any(is_private_word)
}

/// The entry of a row among these.
fn entry(alloc: Global, rows: &[Row], classes: &ClassIndex, row: &Row) -> Result<Entry, AllocError>
    requires few { length rows.now < 2 ^ 32 }
    requires found { FindsClasses (map row_of rows.now) classes.now }
    ensures { IfOk result (λ e. e ≡ pure.entry_of (map row_of rows.now) (row_of row.now)) }
{
    let name = name(alloc, &row.decl)?;
    let params = params(alloc, rows, classes, &row.decl)?;
    Ok(Entry {
        sort: sort(&row.decl),
        class: class_number(rows, classes, class_of(&row.decl)),
        name,
        params,
        kind: maybe_kind(rows, classes, &row.ty),
        parent: parent(rows, classes, &row.parent),
        outer: outer(rows, classes, &row.decl),
        is_static: is_static(&row.modifiers),
        is_private: is_private(&row.modifiers),
    })
}

/// The entries of the rows.
#[tactic(auto, unfolding(crate::specs::Entries::entries_of))]
pub(crate) fn entries(
    alloc: Global,
    rows: &[Row],
    classes: &ClassIndex,
) -> Result<Vec<Entry>, AllocError>
    requires few { length rows.now < 2 ^ 32 }
    requires found { FindsClasses (map row_of rows.now) classes.now }
    ensures { IfOk result (λ entries. entries.items ≡ pure.entries_of (map row_of rows.now)) }
{
    let mut entries = Vec::with_capacity(alloc, rows.len())?;
    for row in rows {
        let entry = entry(alloc, rows, classes, row)?;
        entries.push(entry)?;
    }
    Ok(entries)
}
