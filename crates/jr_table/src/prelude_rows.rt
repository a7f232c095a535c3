//! The rows of the classes that every program has (JLS 4.3.2, 4.3.3, 8.8.9, 17.1).
ghost use Rattle.std.specs.Prelude.{◌≡◌, IfOk, OnOk, None, map, ◌++◌, [], ◌∷◌, option_map, codes};
ghost use Rattle.jr_table.specs.TypeView.{class_key_of};
ghost use Rattle.jr_table.specs.KeyView.{method_key_of};
ghost use Rattle.jr_table.specs.RowView.{row_of};
ghost use Rattle.jr_table.specs.Prelude as pure;

use crate::classes::ClassKey;
use crate::decls::Decl;
use crate::keys::{CtorKey, MethodKey};
use crate::rows::{Mods, Row};
use crate::type_lists::Tys;
use crate::types::Ty;
use jr_ast::{ModWord, Name};
use std::alloc::{AllocError, Global};

fn top_key(alloc: Global, name: &str) -> Result<ClassKey, AllocError>
    ensures { IfOk result (λ k. class_key_of k ≡ pure.top_key name.now) }
{
    let name = Name::new(alloc, name)?;
    Ok(ClassKey { outer: None, name })
}

fn maybe_top_key(alloc: Global, name: Option<&str>) -> Result<Option<ClassKey>, AllocError>
    ensures { IfOk result (λ k.
        option_map class_key_of k ≡ option_map (λ n. pure.top_key n.now) name.entry) }
{
    match name {
        None => Ok(None),
        Some(name) => Ok(Some(top_key(alloc, name)?)),
    }
}

/// Puts a class behind the rows.
fn push_class(
    alloc: Global,
    rows: &mut Vec<Row>,
    words: &[ModWord],
    name: &str,
    parent: Option<&str>,
) -> Result<(), AllocError>
    ensures { OnOk result (map row_of rows.new.items ≡ map row_of rows.old.items
        ++ pure.class_row words.now name.now
        (option_map (λ n. pure.top_key n.now) parent.entry) ∷ []) }
{
    let parent = maybe_top_key(alloc, parent)?;
    let key = top_key(alloc, name)?;
    let modifiers = Mods::from_vec(words.to_vec(alloc)?);
    rows.push(Row {
        decl: Decl::Class(key),
        modifiers,
        ty: None,
        parent,
        has_init: false,
    })?;
    Ok(())
}

/// Puts a constructor without parameters behind the rows.
fn push_ctor(alloc: Global, rows: &mut Vec<Row>, name: &str) -> Result<(), AllocError>
    ensures { OnOk result (map row_of rows.new.items
        ≡ map row_of rows.old.items ++ pure.ctor_row [] (pure.top_key name.now) ∷ []) }
{
    let class = top_key(alloc, name)?;
    let params = Tys::from_vec(Vec::new(alloc))?;
    rows.push(Row {
        decl: Decl::Ctor(CtorKey { class, params }),
        modifiers: Mods::from_vec(Vec::new(alloc)),
        ty: None,
        parent: None,
        has_init: false,
    })?;
    Ok(())
}

/// The key of a method of Thread without parameters.
fn thread_key(alloc: Global, name: &str) -> Result<MethodKey, AllocError>
    ensures { IfOk result (λ k. method_key_of k ≡ pure.thread_key name.now) }
{
    let class = top_key(alloc, "Thread")?;
    let name = Name::new(alloc, name)?;
    let params = Tys::from_vec(Vec::new(alloc))?;
    Ok(MethodKey {
        class,
        name,
        params,
    })
}

/// Puts a method of Thread, without parameters or result, behind the rows.
fn push_thread(
    alloc: Global,
    rows: &mut Vec<Row>,
    words: &[ModWord],
    name: &str,
) -> Result<(), AllocError>
    ensures { OnOk result (map row_of rows.new.items
        ≡ map row_of rows.old.items ++ pure.thread_row words.now name.now ∷ []) }
{
    let key = thread_key(alloc, name)?;
    let modifiers = Mods::from_vec(words.to_vec(alloc)?);
    rows.push(Row {
        decl: Decl::Method(key),
        modifiers,
        ty: Some(Ty::Void),
        parent: None,
        has_init: false,
    })?;
    Ok(())
}

/// The rows of `Object`, `String` and `Class`.
fn objects(alloc: Global) -> Result<Vec<Row>, AllocError>
    ensures { IfOk result (λ rows. map row_of rows.items ≡ pure.object_rows) }
{
    let mut rows = Vec::new(alloc);
    push_class(alloc, &mut rows, &[], "Object", None)?;
    push_ctor(alloc, &mut rows, "Object")?;
    push_class(
        alloc,
        &mut rows,
        &[ModWord::Final],
        "String",
        Some("Object"),
    )?;
    push_class(alloc, &mut rows, &[ModWord::Final], "Class", Some("Object"))?;
    Ok(rows)
}

/// The prelude's rows: `Object`, `String`, `Class`, `Thread` and what they declare.
pub fn prelude(alloc: Global) -> Result<Vec<Row>, AllocError>
    ensures { IfOk result (λ rows. map row_of rows.items ≡ pure.prelude_rows) }
{
    let mut rows = objects(alloc)?;
    push_class(alloc, &mut rows, &[], "Thread", Some("Object"))?;
    push_ctor(alloc, &mut rows, "Thread")?;
    push_thread(alloc, &mut rows, &[ModWord::Public], "run")?;
    push_thread(alloc, &mut rows, &[ModWord::Public], "start")?;
    Ok(rows)
}
