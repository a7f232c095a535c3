//! Tests of declarations, and of one of several.
ghost use Rattle.std.specs.Prelude.{◌≡◌, None, nat_eq};
ghost use Rattle.std.specs.List.{list_any};
ghost use Rattle.std.specs.Option.{option_eq};
ghost use Rattle.std.specs.Cmp.Lexicographic.{pointwise};
ghost use Rattle.jr_table.specs.Decls.{class_decl, field_decl, method_decl, local_decl};
ghost use Rattle.jr_table.specs.SameDecls.{same_decl};
ghost use Rattle.jr_table.specs.Prelude.{top_key};
ghost use Rattle.jr_table.specs.TypeView.{class_key_of};
ghost use Rattle.jr_table.specs.KeyView.{field_key_of, method_key_of, member_key_of, decl_of};
ghost use Rattle.jr_images.specs.DeclSets.{is_no_method};

use jr_ast::Name;
use jr_table::{ClassKey, Decl, FieldKey, MemberKey, MethodKey};

// ---- whether a declaration is a certain one

fn is_none(name: &Option<Name>) -> bool
    ensures { result ≡ option_eq (pointwise nat_eq) None name.now }
{
    match name {
        None => true,
        Some(_) => false,
    }
}

fn is_top_class(decl: &Decl, name: &Name) -> bool
    ensures { result ≡ same_decl (class_decl (top_key name.now)) (decl_of decl.now) }
{
    match decl {
        Decl::Class(key) => (name == &key.name) & is_none(&key.outer),
        Decl::Field(_) => false,
        Decl::Method(_) => false,
        Decl::Ctor(_) => false,
        Decl::Local(_) => false,
    }
}

fn is_class(decl: &Decl, key: &ClassKey) -> bool
    ensures { result ≡ same_decl (class_decl (class_key_of key.now)) (decl_of decl.now) }
{
    match decl {
        Decl::Class(other) => key == other,
        Decl::Field(_) => false,
        Decl::Method(_) => false,
        Decl::Ctor(_) => false,
        Decl::Local(_) => false,
    }
}

fn is_field(decl: &Decl, key: &FieldKey) -> bool
    ensures { result ≡ same_decl (field_decl (field_key_of key.now)) (decl_of decl.now) }
{
    match decl {
        Decl::Field(other) => key == other,
        Decl::Class(_) => false,
        Decl::Method(_) => false,
        Decl::Ctor(_) => false,
        Decl::Local(_) => false,
    }
}

pub(crate) fn is_method(decl: &Decl, key: &MethodKey) -> bool
    ensures { result ≡ same_decl (method_decl (method_key_of key.now)) (decl_of decl.now) }
{
    match decl {
        Decl::Method(other) => key == other,
        Decl::Class(_) => false,
        Decl::Field(_) => false,
        Decl::Ctor(_) => false,
        Decl::Local(_) => false,
    }
}

fn is_local(decl: &Decl, member: &MemberKey, number: u32) -> bool
    ensures { result ≡ same_decl
        (local_decl (record { member = member_key_of member.now; number = number }))
        (decl_of decl.now) }
{
    match decl {
        Decl::Local(other) => (number == other.number) & (member == &other.member),
        Decl::Class(_) => false,
        Decl::Field(_) => false,
        Decl::Method(_) => false,
        Decl::Ctor(_) => false,
    }
}

/// Whether it is no method.
fn is_no_method(decl: &Decl) -> bool
    ensures { result ≡ is_no_method (decl_of decl.now) }
{
    match decl {
        Decl::Method(_) => false,
        Decl::Class(_) => true,
        Decl::Field(_) => true,
        Decl::Ctor(_) => true,
        Decl::Local(_) => true,
    }
}

// ---- whether one of several is

pub(crate) fn any_top_class(decls: &[Decl], name: &Name) -> bool
    ensures { result ≡ list_any (λ d. same_decl (class_decl (top_key name.now)) (decl_of d))
        decls.now }
{
    decls.iter().any(|decl| is_top_class(decl, name))
}

pub(crate) fn any_class(decls: &[Decl], key: &ClassKey) -> bool
    ensures { result
        ≡ list_any (λ d. same_decl (class_decl (class_key_of key.now)) (decl_of d)) decls.now }
{
    decls.iter().any(|decl| is_class(decl, key))
}

pub(crate) fn any_field(decls: &[Decl], key: &FieldKey) -> bool
    ensures { result
        ≡ list_any (λ d. same_decl (field_decl (field_key_of key.now)) (decl_of d)) decls.now }
{
    decls.iter().any(|decl| is_field(decl, key))
}

pub(crate) fn any_method(decls: &[Decl], key: &MethodKey) -> bool
    ensures { result
        ≡ list_any (λ d. same_decl (method_decl (method_key_of key.now)) (decl_of d)) decls.now }
{
    decls.iter().any(|decl| is_method(decl, key))
}

pub(crate) fn any_local(decls: &[Decl], member: &MemberKey, number: u32) -> bool
    ensures { result ≡ list_any (λ d. same_decl
        (local_decl (record { member = member_key_of member.now; number = number })) (decl_of d))
        decls.now }
{
    decls.iter().any(|decl| is_local(decl, member, number))
}

pub(crate) fn any_decl(decls: &[Decl], decl: &Decl) -> bool
    ensures { result ≡ list_any (λ d. same_decl (decl_of decl.now) (decl_of d)) decls.now }
{
    decls.iter().any(|other| decl == other)
}

pub(crate) fn any_no_method(decls: &[Decl]) -> bool
    ensures { result ≡ list_any (λ d. is_no_method (decl_of d)) decls.now }
{
    decls.iter().any(|decl| is_no_method(decl))
}
