//! The rows of a program.
ghost use Rattle.std.specs.Prelude.{◌≡◌, ◌++◌, IfOk, OnOk, map, option_map};
ghost use Rattle.jr_table.specs.Prelude as pure_prelude;
ghost use Rattle.jr_table.specs.RowView.{row_of};
ghost use Rattle.jr_table.specs.TypeView.{ty_of};
ghost use Rattle.jr_build_rows.specs.ExactRows as exact;
ghost use Rattle.jr_build_hierarchy.specs.HierarchyView.{hierarchy_of};
ghost use Rattle.jr_build_declared.specs.DeclaredView.{declaration_key_of, written_of, param_declaration_of};
ghost use Rattle.jr_build_declared.specs.DeclaredView.{class_declaration_of, field_declaration_of, method_declaration_of};
ghost use Rattle.jr_build_declared.specs.DeclaredView.{ctor_declaration_of, item_of, declaration_of};

use crate::owned::{
    access_words, maybe_owned_key, maybe_owned_type, owned_key, owned_types, owned_words,
};
use crate::signatures::meanings_of;
use jr_build_declared::declarations::{
    DeclaredClass, DeclaredCtor, DeclaredField, DeclaredItem, DeclaredKey, DeclaredKind,
    DeclaredMethod, DeclaredParam, Written,
};
use jr_build_hierarchy::hierarchies::Hierarchy;
use jr_build_hierarchy::meanings::{means, parent};
use jr_table::{CtorKey, Decl, FieldKey, MethodKey, Row, Ty, Tys, prelude};
use std::alloc::{AllocError, Global};

/// What the types of parameters mean; none, where one of them means nothing.
fn param_types<'a>(
    alloc: Global,
    h: &Hierarchy<'a>,
    of: &DeclaredKey<'a>,
    params: &[DeclaredParam<'a>],
) -> Result<Tys, AllocError>
    ensures { IfOk result (λ ts. ts ≡ exact.param_types (hierarchy_of h.now) (declaration_key_of of.now)
        (map param_declaration_of params.now)) }
{
    match meanings_of(alloc, h, of, params)? {
        None => Tys::from_vec(Vec::new(alloc)),
        Some(meanings) => owned_types(alloc, &meanings),
    }
}

/// A method's result.
fn result_type<'a>(
    alloc: Global,
    h: &Hierarchy<'a>,
    of: &DeclaredKey<'a>,
    written: &Option<Written<'a>>,
) -> Result<Option<Ty>, AllocError>
    ensures { IfOk result (λ t. option_map ty_of t ≡ exact.result_type (hierarchy_of h.now)
        (declaration_key_of of.now) (option_map written_of written.now)) }
{
    match written {
        None => Ok(Some(Ty::Void)),
        Some(written) => maybe_owned_type(alloc, &means(h, of, written)),
    }
}

fn class_row<'a>(
    alloc: Global,
    h: &Hierarchy<'a>,
    class: &DeclaredClass<'a>,
) -> Result<Row, AllocError>
    ensures { IfOk result (λ r. row_of r
        ≡ exact.class_row (hierarchy_of h.now) (class_declaration_of class.now)) }
{
    let key = owned_key(alloc, &class.key)?;
    let modifiers = owned_words(alloc, &class.modifiers)?;
    let parent = maybe_owned_key(alloc, &parent(h, &class.key))?;
    Ok(Row {
        decl: Decl::Class(key),
        modifiers,
        ty: None,
        parent,
        has_init: false,
    })
}

/// The row of a constructor that isn't written: it has the class's access (JLS 8.8.9).
fn unwritten_row(alloc: Global, class: &DeclaredClass<'_>) -> Result<Row, AllocError>
    ensures { IfOk result (λ r. row_of r ≡ exact.unwritten (class_declaration_of class.now)) }
{
    let key = owned_key(alloc, &class.key)?;
    let modifiers = access_words(alloc, &class.modifiers)?;
    let params = Tys::from_vec(Vec::new(alloc))?;
    Ok(Row {
        decl: Decl::Ctor(CtorKey { class: key, params }),
        modifiers,
        ty: None,
        parent: None,
        has_init: false,
    })
}

fn field_row<'a>(
    alloc: Global,
    h: &Hierarchy<'a>,
    field: &DeclaredField<'a>,
) -> Result<Row, AllocError>
    ensures { IfOk result (λ r. row_of r
        ≡ exact.field_row (hierarchy_of h.now) (field_declaration_of field.now)) }
{
    let class = owned_key(alloc, &field.of)?;
    let name = field.name.copy()?;
    let modifiers = owned_words(alloc, &field.modifiers)?;
    let ty = maybe_owned_type(alloc, &means(h, &field.of, &field.written))?;
    Ok(Row {
        decl: Decl::Field(FieldKey { class, name }),
        modifiers,
        ty,
        parent: None,
        has_init: field.init.is_some(),
    })
}

fn method_row<'a>(
    alloc: Global,
    h: &Hierarchy<'a>,
    method: &DeclaredMethod<'a>,
) -> Result<Row, AllocError>
    ensures { IfOk result (λ r. row_of r
        ≡ exact.method_row (hierarchy_of h.now) (method_declaration_of method.now)) }
{
    let class = owned_key(alloc, &method.of)?;
    let name = method.name.copy()?;
    let params = param_types(alloc, h, &method.of, &method.params)?;
    let modifiers = owned_words(alloc, &method.modifiers)?;
    let ty = result_type(alloc, h, &method.of, &method.result)?;
    Ok(Row {
        decl: Decl::Method(MethodKey {
            class,
            name,
            params,
        }),
        modifiers,
        ty,
        parent: None,
        has_init: false,
    })
}

fn ctor_row<'a>(
    alloc: Global,
    h: &Hierarchy<'a>,
    ctor: &DeclaredCtor<'a>,
) -> Result<Row, AllocError>
    ensures { IfOk result (λ r. row_of r
        ≡ exact.ctor_row (hierarchy_of h.now) (ctor_declaration_of ctor.now)) }
{
    let class = owned_key(alloc, &ctor.of)?;
    let params = param_types(alloc, h, &ctor.of, &ctor.params)?;
    let modifiers = owned_words(alloc, &ctor.modifiers)?;
    Ok(Row {
        decl: Decl::Ctor(CtorKey { class, params }),
        modifiers,
        ty: None,
        parent: None,
        has_init: false,
    })
}

/// Puts a class's row behind the rows, and that of its constructor, if none is written.
fn push_class<'a>(
    alloc: Global,
    rows: &mut Vec<Row>,
    h: &Hierarchy<'a>,
    class: &DeclaredClass<'a>,
) -> Result<(), AllocError>
    ensures { OnOk result (map row_of rows.new.items ≡ map row_of rows.old.items
        ++ exact.class_rows (hierarchy_of h.now) (class_declaration_of class.now) class.now.has_ctor) }
{
    rows.push(class_row(alloc, h, class)?)?;
    if !class.has_ctor {
        rows.push(unwritten_row(alloc, class)?)?;
    }
    Ok(())
}

/// Puts the rows of an item behind the rows.
fn push_item<'a>(
    alloc: Global,
    rows: &mut Vec<Row>,
    h: &Hierarchy<'a>,
    item: &DeclaredKind<'a>,
) -> Result<(), AllocError>
    ensures { OnOk result (map row_of rows.new.items ≡ map row_of rows.old.items
        ++ exact.rows_of_item (hierarchy_of h.now) (item_of item.now)) }
{
    match item {
        DeclaredKind::Class(class) => push_class(alloc, rows, h, class),
        DeclaredKind::Field(field) => {
            rows.push(field_row(alloc, h, field)?)?;
            Ok(())
        }
        DeclaredKind::Method(method) => {
            rows.push(method_row(alloc, h, method)?)?;
            Ok(())
        }
        DeclaredKind::Ctor(ctor) => {
            rows.push(ctor_row(alloc, h, ctor)?)?;
            Ok(())
        }
    }
}

/// The rows of a program: the prelude's, and those of its declarations.
pub fn program_rows<'a>(
    alloc: Global,
    declarations: &[DeclaredItem<'a>],
    h: &Hierarchy<'a>,
) -> Result<Vec<Row>, AllocError>
    ensures { IfOk result (λ rows. map row_of rows.items ≡ pure_prelude.prelude_rows
        ++ exact.rows_of_declarations (hierarchy_of h.now) (map declaration_of declarations.now)) }
{
    let mut rows = prelude(alloc)?;
    rows.reserve(declarations.len())?;
    for declaration in declarations {
        push_item(alloc, &mut rows, h, &declaration.item)?;
    }
    Ok(rows)
}
