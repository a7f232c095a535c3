//! What becomes of the keys of a program where declarations get another name.
ghost use Rattle.std.specs.Prelude.{◌≡◌, IfOk, map, option_map, if◌then◌else◌};
ghost use Rattle.jr_table.specs.Decls.{class_decl, field_decl, method_decl};
ghost use Rattle.jr_table.specs.Prelude.{top_key};
ghost use Rattle.jr_table.specs.TypeView.{class_key_of, ty_of};
ghost use Rattle.jr_table.specs.KeyView.{
  field_key_of,
  method_key_of,
  ctor_key_of,
  member_key_of,
  local_key_of,
  decl_of,
};
ghost use Rattle.jr_table.specs.RowView.{row_of};
ghost use Rattle.jr_images.specs.Images as pure;
ghost use Rattle.jr_images.specs.ImageView.{renaming_of};

use crate::decl_sets::DeclSet;
use jr_ast::Name;
use jr_table::{ClassKey, CtorKey, Decl, FieldKey, LocalKey, MemberKey, MethodKey, Row, Ty, Tys};
use std::alloc::{AllocError, Global};

/// Declarations that get a name.
#[derive(Drop)]
pub struct NewName {
    pub decls: DeclSet,
    pub name: Name,
}

// ---- whether a declaration is among them

fn is_renamed_top(g: &NewName, name: &Name) -> bool
    ensures { result ≡ pure.is_renamed (renaming_of g.now) (class_decl (top_key name.now)) }
{
    g.decls.has_top_class(name)
}

fn is_renamed_class(g: &NewName, key: &ClassKey) -> bool
    ensures { result ≡ pure.is_renamed (renaming_of g.now) (class_decl (class_key_of key.now)) }
{
    g.decls.has_class(key)
}

fn is_renamed_field(g: &NewName, key: &FieldKey) -> bool
    ensures { result ≡ pure.is_renamed (renaming_of g.now) (field_decl (field_key_of key.now)) }
{
    g.decls.has_field(key)
}

fn is_renamed_method(g: &NewName, key: &MethodKey) -> bool
    ensures { result ≡ pure.is_renamed (renaming_of g.now) (method_decl (method_key_of key.now)) }
{
    g.decls.has_method(key)
}

// ---- names

/// One of two names.
fn chosen(is_new: bool, new: &Name, old: &Name) -> Result<Name, AllocError>
    ensures { IfOk result (λ n. n ≡ (if is_new then new.now else old.now)) }
{
    if is_new { new.copy() } else { old.copy() }
}

fn top_name_to(g: &NewName, name: &Name) -> Result<Name, AllocError>
    ensures { IfOk result (λ n. n
        ≡ pure.name_to (renaming_of g.now) (class_decl (top_key name.now)) name.now) }
{
    let is_new = is_renamed_top(g, name);
    chosen(is_new, &g.name, name)
}

fn class_name_to(g: &NewName, key: &ClassKey) -> Result<Name, AllocError>
    ensures { IfOk result (λ n. n
        ≡ pure.name_to (renaming_of g.now) (class_decl (class_key_of key.now)) key.now.name) }
{
    let is_new = is_renamed_class(g, key);
    chosen(is_new, &g.name, &key.name)
}

fn field_name_to(g: &NewName, key: &FieldKey) -> Result<Name, AllocError>
    ensures { IfOk result (λ n. n
        ≡ pure.name_to (renaming_of g.now) (field_decl (field_key_of key.now)) key.now.name) }
{
    let is_new = is_renamed_field(g, key);
    chosen(is_new, &g.name, &key.name)
}

fn method_name_to(g: &NewName, key: &MethodKey) -> Result<Name, AllocError>
    ensures { IfOk result (λ n. n
        ≡ pure.name_to (renaming_of g.now) (method_decl (method_key_of key.now)) key.now.name) }
{
    let is_new = is_renamed_method(g, key);
    chosen(is_new, &g.name, &key.name)
}

fn outer_to(g: &NewName, outer: &Option<Name>) -> Result<Option<Name>, AllocError>
    ensures { IfOk result (λ o. o ≡ pure.outer_to (renaming_of g.now) outer.now) }
{
    match outer {
        None => Ok(None),
        Some(name) => Ok(Some(top_name_to(g, name)?)),
    }
}

// ---- keys

/// The image of a class.
pub fn class_to(g: &NewName, key: &ClassKey) -> Result<ClassKey, AllocError>
    ensures { IfOk result (λ k. class_key_of k
        ≡ pure.class_to (renaming_of g.now) (class_key_of key.now)) }
{
    let outer = outer_to(g, &key.outer)?;
    let name = class_name_to(g, key)?;
    Ok(ClassKey { outer, name })
}

/// The image of a type.
pub fn type_to(g: &NewName, ty: &Ty) -> Result<Ty, AllocError>
    ensures { IfOk result (λ t. ty_of t ≡ pure.type_to (renaming_of g.now) (ty_of ty.now)) }
{
    match ty {
        Ty::Int => Ok(Ty::Int),
        Ty::Boolean => Ok(Ty::Boolean),
        Ty::Void => Ok(Ty::Void),
        Ty::Null => Ok(Ty::Null),
        Ty::Class(key) => Ok(Ty::Class(class_to(g, key)?)),
    }
}

fn list_to(alloc: Global, g: &NewName, types: &[Ty]) -> Result<Vec<Ty>, AllocError>
    ensures { IfOk result (λ ts. map ty_of ts.items
        ≡ pure.types_to (renaming_of g.now) (map ty_of types.now)) }
{
    let mut images = Vec::with_capacity(alloc, types.len())?;
    for ty in types {
        let image = type_to(g, ty)?;
        images.push(image)?;
    }
    Ok(images)
}

/// The images of types.
pub fn types_to(alloc: Global, g: &NewName, types: &Tys) -> Result<Tys, AllocError>
    ensures { IfOk result (λ ts. ts ≡ pure.types_to (renaming_of g.now) types.now) }
{
    let images = list_to(alloc, g, types.as_slice())?;
    Tys::from_vec(images)
}

/// The image of a field.
pub fn field_to(g: &NewName, key: &FieldKey) -> Result<FieldKey, AllocError>
    ensures { IfOk result (λ k. field_key_of k
        ≡ pure.field_to (renaming_of g.now) (field_key_of key.now)) }
{
    let class = class_to(g, &key.class)?;
    let name = field_name_to(g, key)?;
    Ok(FieldKey { class, name })
}

/// The image of a method.
pub fn method_to(alloc: Global, g: &NewName, key: &MethodKey) -> Result<MethodKey, AllocError>
    ensures { IfOk result (λ k. method_key_of k
        ≡ pure.method_to (renaming_of g.now) (method_key_of key.now)) }
{
    let class = class_to(g, &key.class)?;
    let name = method_name_to(g, key)?;
    let params = types_to(alloc, g, &key.params)?;
    Ok(MethodKey {
        class,
        name,
        params,
    })
}

/// The image of a constructor.
pub fn ctor_to(alloc: Global, g: &NewName, key: &CtorKey) -> Result<CtorKey, AllocError>
    ensures { IfOk result (λ k. ctor_key_of k
        ≡ pure.ctor_to (renaming_of g.now) (ctor_key_of key.now)) }
{
    let class = class_to(g, &key.class)?;
    let params = types_to(alloc, g, &key.params)?;
    Ok(CtorKey { class, params })
}

/// The image of a member.
pub fn member_to(alloc: Global, g: &NewName, key: &MemberKey) -> Result<MemberKey, AllocError>
    ensures { IfOk result (λ k. member_key_of k
        ≡ pure.member_to (renaming_of g.now) (member_key_of key.now)) }
{
    match key {
        MemberKey::Head(key) => Ok(MemberKey::Head(class_to(g, key)?)),
        MemberKey::Field(key) => Ok(MemberKey::Field(field_to(g, key)?)),
        MemberKey::Method(key) => Ok(MemberKey::Method(method_to(alloc, g, key)?)),
        MemberKey::Ctor(key) => Ok(MemberKey::Ctor(ctor_to(alloc, g, key)?)),
    }
}

/// The image of a local, which keeps its number.
pub fn local_to(alloc: Global, g: &NewName, key: &LocalKey) -> Result<LocalKey, AllocError>
    ensures { IfOk result (λ k. local_key_of k
        ≡ pure.local_to (renaming_of g.now) (local_key_of key.now)) }
{
    let number = key.number;
    let member = member_to(alloc, g, &key.member)?;
    Ok(LocalKey { member, number })
}

/// The image of a declaration.
pub fn decl_to(alloc: Global, g: &NewName, decl: &Decl) -> Result<Decl, AllocError>
    ensures { IfOk result (λ d. decl_of d ≡ pure.decl_to (renaming_of g.now) (decl_of decl.now)) }
{
    match decl {
        Decl::Class(key) => Ok(Decl::Class(class_to(g, key)?)),
        Decl::Field(key) => Ok(Decl::Field(field_to(g, key)?)),
        Decl::Method(key) => Ok(Decl::Method(method_to(alloc, g, key)?)),
        Decl::Ctor(key) => Ok(Decl::Ctor(ctor_to(alloc, g, key)?)),
        Decl::Local(key) => Ok(Decl::Local(local_to(alloc, g, key)?)),
    }
}

// ---- rows

fn maybe_class_to(g: &NewName, key: &Option<ClassKey>) -> Result<Option<ClassKey>, AllocError>
    ensures { IfOk result (λ k. option_map class_key_of k
        ≡ option_map (pure.class_to (renaming_of g.now)) (option_map class_key_of key.now)) }
{
    match key {
        None => Ok(None),
        Some(key) => Ok(Some(class_to(g, key)?)),
    }
}

fn maybe_type_to(g: &NewName, ty: &Option<Ty>) -> Result<Option<Ty>, AllocError>
    ensures { IfOk result (λ t. option_map ty_of t
        ≡ option_map (pure.type_to (renaming_of g.now)) (option_map ty_of ty.now)) }
{
    match ty {
        None => Ok(None),
        Some(ty) => Ok(Some(type_to(g, ty)?)),
    }
}

fn row_to(alloc: Global, g: &NewName, old: &Row) -> Result<Row, AllocError>
    ensures { IfOk result (λ r. row_of r ≡ pure.row_to (renaming_of g.now) (row_of old.now)) }
{
    let has_init = old.has_init;
    let modifiers = old.modifiers.copy(alloc)?;
    let parent = maybe_class_to(g, &old.parent)?;
    let ty = maybe_type_to(g, &old.ty)?;
    let decl = decl_to(alloc, g, &old.decl)?;
    Ok(Row {
        decl,
        modifiers,
        ty,
        parent,
        has_init,
    })
}

/// The rows of the new program: the images, in the old order.
pub fn rows_to(alloc: Global, g: &NewName, rows: &[Row]) -> Result<Vec<Row>, AllocError>
    ensures { IfOk result (λ rs. map row_of rs.items
        ≡ pure.rows_to (renaming_of g.now) (map row_of rows.now)) }
{
    let mut images = Vec::with_capacity(alloc, rows.len())?;
    for old in rows {
        let image = row_to(alloc, g, old)?;
        images.push(image)?;
    }
    Ok(images)
}
