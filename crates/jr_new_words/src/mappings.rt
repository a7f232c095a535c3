//! What becomes of the keys of a program.
ghost use Rattle.std.specs.Prelude.{◌≡◌, IfOk, if◌then◌else◌};
ghost use Rattle.jr_table.specs.Decls.{local_decl};
ghost use Rattle.jr_table.specs.TypeView.{class_key_of, ty_of};
ghost use Rattle.jr_table.specs.Keys.{class};
ghost use Rattle.jr_table.specs.KeyView.{member_key_of, decl_of};
ghost use Rattle.jr_scopes.specs.Helds.{key_of};
ghost use Rattle.jr_rewrite.specs.Rewrites.{declared_by};
ghost use Rattle.jr_new_words.specs.Mappings as pure;
ghost use Rattle.jr_new_words.specs.MappingView.{keys_of};

use jr_ast::Name;
use jr_images::NewName;
use jr_table::{ClassKey, Decl, MemberKey, Ty, Tys};
use std::alloc::{AllocError, Global};

/// What becomes of the keys of declarations.
#[derive(Clone, Copy, Drop)]
pub enum KeyMapping<'a> {
    /// They stay.
    Same,
    /// Declarations get another name.
    Renamed(&'a NewName),
}

// ---- keys

/// The image of a class.
pub(crate) fn class_to(keys: &KeyMapping<'_>, key: &ClassKey) -> Result<ClassKey, AllocError>
    ensures { IfOk result (λ k. class_key_of k
        ≡ pure.class_by (keys_of keys.now) (class_key_of key.now)) }
{
    match *keys {
        KeyMapping::Same => key.copy(),
        KeyMapping::Renamed(name) => jr_images::class_to(name, key),
    }
}

/// The same, as a type.
pub fn class_type_to(keys: &KeyMapping<'_>, key: &ClassKey) -> Result<Ty, AllocError>
    ensures { IfOk result (λ t. ty_of t
        ≡ pure.type_by (keys_of keys.now) (class (class_key_of key.now))) }
{
    let key = class_to(keys, key)?;
    Ok(Ty::Class(key))
}

/// The image of a type.
pub fn type_to(keys: &KeyMapping<'_>, ty: &Ty) -> Result<Ty, AllocError>
    ensures { IfOk result (λ t. ty_of t ≡ pure.type_by (keys_of keys.now) (ty_of ty.now)) }
{
    match *keys {
        KeyMapping::Same => ty.copy(),
        KeyMapping::Renamed(name) => jr_images::type_to(name, ty),
    }
}

/// The image of a member.
pub(crate) fn member_to(
    alloc: Global,
    keys: &KeyMapping<'_>,
    key: &MemberKey,
) -> Result<MemberKey, AllocError>
    ensures { IfOk result (λ k. member_key_of k
        ≡ pure.member_by (keys_of keys.now) (member_key_of key.now)) }
{
    match *keys {
        KeyMapping::Same => key.copy(),
        KeyMapping::Renamed(name) => jr_images::member_to(alloc, name, key),
    }
}

/// The image of a declaration, which keeps its number where it is a local.
pub(crate) fn keyed_to(
    alloc: Global,
    keys: &KeyMapping<'_>,
    decl: &Decl,
) -> Result<Decl, AllocError>
    ensures { IfOk result (λ d. decl_of d ≡ pure.decl_by (keys_of keys.now) (decl_of decl.now)) }
{
    match *keys {
        KeyMapping::Same => decl.copy(),
        KeyMapping::Renamed(name) => jr_images::decl_to(alloc, name, decl),
    }
}

/// The images of types.
pub fn types_to(alloc: Global, keys: &KeyMapping<'_>, types: &Tys) -> Result<Tys, AllocError>
    ensures { IfOk result (λ ts. ts ≡ pure.types_by (keys_of keys.now) types.now) }
{
    match *keys {
        KeyMapping::Same => types.copy(),
        KeyMapping::Renamed(name) => jr_images::types_to(alloc, name, types),
    }
}

// ---- names

/// Whether the local gets another name.
pub(crate) fn is_renamed_local(keys: &KeyMapping<'_>, member: &MemberKey, number: u32) -> bool
    ensures { result ≡ pure.is_renamed_by (keys_of keys.now)
        (local_decl (key_of (member_key_of member.now) number)) }
{
    match *keys {
        KeyMapping::Same => false,
        KeyMapping::Renamed(name) => name.decls.has_local(member, number),
    }
}

/// The new name, or the old one.
fn either_name<'a>(is_new: bool, g: &'a NewName, name: &'a Name) -> &'a Name
    ensures { result.now ≡ (if is_new then g.now.name else name.now) }
{
    if is_new { &g.name } else { name }
}

/// The name that the declaration gets, where this is its old one.
pub(crate) fn name_of<'a>(keys: &KeyMapping<'a>, decl: &Decl, name: &'a Name) -> &'a Name
    ensures { result.now ≡ pure.name_by (keys_of keys.now) (decl_of decl.now) name.now }
{
    match *keys {
        KeyMapping::Same => name,
        KeyMapping::Renamed(g) => either_name(g.decls.has(decl), g, name),
    }
}

/// The name that a local gets.
pub(crate) fn local_name<'a>(
    keys: &KeyMapping<'a>,
    member: &MemberKey,
    number: u32,
    name: &'a Name,
) -> &'a Name
    ensures { result.now ≡ pure.name_by (keys_of keys.now)
        (local_decl (key_of (member_key_of member.now) number)) name.now }
{
    match *keys {
        KeyMapping::Same => name,
        KeyMapping::Renamed(g) => either_name(g.decls.has_local(member, number), g, name),
    }
}

/// The name that what the member's own name declares gets: of a constructor that is its class (JLS
/// 8.8).
pub(crate) fn member_name<'a>(keys: &KeyMapping<'a>, key: &MemberKey, name: &'a Name) -> &'a Name
    ensures { result.now ≡ pure.name_by (keys_of keys.now) (declared_by (member_key_of key.now))
        name.now }
{
    match *keys {
        KeyMapping::Same => name,
        KeyMapping::Renamed(g) => either_name(g.decls.has_member(key), g, name),
    }
}
