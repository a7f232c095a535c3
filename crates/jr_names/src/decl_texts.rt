//! How declarations are written.
ghost use Rattle.std.specs.Prelude.{◌≡◌, ◌∷◌, ◌++◌, map, codes, IfOk, string_bytes};
ghost use Rattle.jr_table.specs.TypeView.{class_key_of, ty_of};
ghost use Rattle.jr_table.specs.KeyView.{field_key_of, method_key_of, ctor_key_of, member_key_of};
ghost use Rattle.jr_table.specs.KeyView.{local_key_of, decl_of};
ghost use Rattle.jr_names.specs.DeclTexts as texts;

use jr_ast::Name;
use jr_table::{ClassKey, CtorKey, Decl, FieldKey, LocalKey, MemberKey, MethodKey, Ty};
use std::alloc::{AllocError, Global};

/// The text of a class: `K`, and `O.K` where K is a member of O.
pub fn class_text(alloc: Global, key: &ClassKey) -> Result<String, AllocError>
    ensures { IfOk result (λ text. string_bytes text ≡ texts.class_text (class_key_of key.now)) }
{
    let name = key.name.as_str();
    match &key.outer {
        Some(outer) => member_class_text(alloc, outer, name),
        None => String::from_str(alloc, name),
    }
}

fn member_class_text(alloc: Global, outer: &Name, name: &str) -> Result<String, AllocError>
    ensures { IfOk result (λ text. string_bytes text ≡ outer.now ++ codes "." ++ name.now) }
{
    let outer = outer.as_str();
    format!(in alloc; "{outer}.{name}")
}

fn ty_text(alloc: Global, ty: &Ty) -> Result<String, AllocError>
    ensures { IfOk result (λ text. string_bytes text ≡ texts.ty_text (ty_of ty.now)) }
{
    match ty {
        Ty::Int => String::from_str(alloc, "int"),
        Ty::Boolean => String::from_str(alloc, "boolean"),
        Ty::Void => String::from_str(alloc, "void"),
        Ty::Null => String::from_str(alloc, "null"),
        Ty::Class(key) => class_text(alloc, key),
    }
}

// The types with a comma between each two.
fn types_text(alloc: Global, tys: &[Ty]) -> Result<String, AllocError>
    ensures { IfOk result (λ text. string_bytes text ≡ texts.types_text (map ty_of tys.now)) }
{
    match tys {
        [] => Ok(String::new(alloc)),
        [first, rest @ ..] => joined_text(alloc, first, rest),
    }
}

fn joined_text(alloc: Global, first: &Ty, rest: &[Ty]) -> Result<String, AllocError>
    ensures { IfOk result (λ text. string_bytes text
        ≡ texts.types_text (ty_of first.now ∷ map ty_of rest.now)) }
{
    let mut text = ty_text(alloc, first)?;
    for ty in rest {
        let one = ty_text(alloc, ty)?;
        text.push_str(",")?;
        text.push_str(one.as_str())?;
    }
    Ok(text)
}

/// The text of a field: `K.x`.
pub fn field_text(alloc: Global, key: &FieldKey) -> Result<String, AllocError>
    ensures { IfOk result (λ text. string_bytes text ≡ texts.field_text (field_key_of key.now)) }
{
    let class = class_text(alloc, &key.class)?;
    let name = key.name.as_str();
    format!(in alloc; "{class}.{name}")
}

/// The text of a method: `K.m(int,B)`.
pub fn method_text(alloc: Global, key: &MethodKey) -> Result<String, AllocError>
    ensures { IfOk result (λ text. string_bytes text ≡ texts.method_text (method_key_of key.now)) }
{
    let class = class_text(alloc, &key.class)?;
    let types = types_text(alloc, key.params.as_slice())?;
    let name = key.name.as_str();
    format!(in alloc; "{class}.{name}({types})")
}

/// The text of a constructor: `K.new(int)`.
pub fn constructor_text(alloc: Global, key: &CtorKey) -> Result<String, AllocError>
    ensures { IfOk result (λ text.
        string_bytes text ≡ texts.constructor_text (ctor_key_of key.now)) }
{
    let class = class_text(alloc, &key.class)?;
    let types = types_text(alloc, key.params.as_slice())?;
    format!(in alloc; "{class}.new({types})")
}

/// The text of a member. The head of a class is written as the class.
pub fn member_text(alloc: Global, key: &MemberKey) -> Result<String, AllocError>
    ensures { IfOk result (λ text. string_bytes text ≡ texts.member_text (member_key_of key.now)) }
{
    match key {
        MemberKey::Head(key) => class_text(alloc, key),
        MemberKey::Field(key) => field_text(alloc, key),
        MemberKey::Method(key) => method_text(alloc, key),
        MemberKey::Ctor(key) => constructor_text(alloc, key),
    }
}

/// The text of a parameter or local: its member's, `#` and its number, which counts from 0.
pub fn local_text(alloc: Global, key: &LocalKey) -> Result<String, AllocError>
    ensures { IfOk result (λ text. string_bytes text ≡ texts.local_text (local_key_of key.now)) }
{
    let member = member_text(alloc, &key.member)?;
    let number = key.number;
    format!(in alloc; "{member}#{number}")
}

/// The text of a declaration.
pub fn decl_text(alloc: Global, decl: &Decl) -> Result<Name, AllocError>
    ensures { IfOk result (λ text. text ≡ texts.decl_text (decl_of decl.now)) }
{
    let text = decl_string(alloc, decl)?;
    Name::new(alloc, text.as_str())
}

fn decl_string(alloc: Global, decl: &Decl) -> Result<String, AllocError>
    ensures { IfOk result (λ text. string_bytes text ≡ texts.decl_text (decl_of decl.now)) }
{
    match decl {
        Decl::Class(key) => class_text(alloc, key),
        Decl::Field(key) => field_text(alloc, key),
        Decl::Method(key) => method_text(alloc, key),
        Decl::Ctor(key) => constructor_text(alloc, key),
        Decl::Local(key) => local_text(alloc, key),
    }
}
