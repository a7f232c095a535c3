//! Sets of declarations that are asked for their members.
ghost use Rattle.std.specs.Prelude.{◌≡◌, ◌<◌, ◌^◌, IsTrue, IfOk, IfSome, length};
ghost use Rattle.jr_images.specs.DeclSets.{AreMethods};

use crate::decl_tests::{
    any_class, any_decl, any_field, any_local, any_method, any_no_method, any_top_class,
};
use crate::method_index::MethodIndex;
use jr_ast::Name;
use jr_table::{ClassKey, Decl, FieldKey, MemberKey, MethodKey};
use std::alloc::{AllocError, Global};
use std::marker::Model;

/// A set of declarations. Contracts see the list of them.
#[derive(Drop)]
pub struct DeclSet {
    decls: Vec<Decl>,
    /// Where they are several and all are methods: each by its class.
    methods: Option<MethodIndex>,
}

impl Model for DeclSet {
    ghost use Rattle.std.specs.Prelude.{List, IfSome, map};
    ghost use Rattle.jr_table.specs.Decls as pure;
    ghost use Rattle.jr_table.specs.KeyView.{decl_of};
    ghost use Rattle.jr_images.specs.DeclSets.{AreMethods};

    ghost Value = { List pure.Decl };

    ghost view = { λ s. map decl_of s.decls.items };

    ghost invariant = { λ s. IfSome s.methods (AreMethods s.decls.items) };
}

/// Whether there are several, and no more than numbers.
fn are_several(decls: &[Decl]) -> bool
    ensures { IsTrue result → length decls.now < 2 ^ 32 }
{
    let count = decls.len();
    (1 < count) & (count < 4_294_967_296)
}

/// Where they are several and all are methods: each by its class.
fn index_of(alloc: Global, decls: &[Decl]) -> Result<Option<MethodIndex>, AllocError>
    ensures { IfOk result (λ o. IfSome o (AreMethods decls.now)) }
{
    if !are_several(decls) {
        return Ok(None);
    }
    if any_no_method(decls) {
        return Ok(None);
    }
    let methods = MethodIndex::of_decls(alloc, decls)?;
    Ok(Some(methods))
}

impl DeclSet {
    ghost use Rattle.std.specs.Prelude.{◌≡◌, true, map, IfOk};
    ghost use Rattle.std.specs.List.{list_any};
    ghost use Rattle.jr_table.specs.Decls.{class_decl, field_decl, method_decl, local_decl};
    ghost use Rattle.jr_table.specs.SameDecls.{same_decl};
    ghost use Rattle.jr_table.specs.Prelude.{top_key};
    ghost use Rattle.jr_table.specs.TypeView.{class_key_of};
    ghost use Rattle.jr_table.specs.KeyView.{
      field_key_of,
      method_key_of,
      member_key_of,
      decl_of,
    };
    ghost use Rattle.jr_rewrite.specs.Rewrites.{declared_by};
    ghost use Rattle.jr_images.specs.DeclSets.{is_no_method};

    /// The set of these declarations.
    pub fn from_vec(alloc: Global, decls: Vec<Decl>) -> Result<DeclSet, AllocError>
        ensures { IfOk result (λ s. s ≡ map decl_of decls.items) }
    {
        let methods = index_of(alloc, decls.as_slice())?;
        Ok(DeclSet { decls, methods })
    }

    /// The declarations.
    pub fn as_slice(&self) -> &[Decl]
        ensures { map decl_of result.now ≡ self.now }
    {
        self.decls.as_slice()
    }

    /// Whether the top-level class of the name is among them.
    pub(crate) fn has_top_class(&self, name: &Name) -> bool
        ensures { result ≡ list_any (same_decl (class_decl (top_key name.now))) self.now }
    {
        match &self.methods {
            None => any_top_class(self.decls.as_slice(), name),
            Some(_) => false,
        }
    }

    /// Whether the class is among them.
    pub(crate) fn has_class(&self, key: &ClassKey) -> bool
        ensures { result ≡ list_any (same_decl (class_decl (class_key_of key.now))) self.now }
    {
        match &self.methods {
            None => any_class(self.decls.as_slice(), key),
            Some(_) => false,
        }
    }

    /// Whether the field is among them.
    pub(crate) fn has_field(&self, key: &FieldKey) -> bool
        ensures { result ≡ list_any (same_decl (field_decl (field_key_of key.now))) self.now }
    {
        match &self.methods {
            None => any_field(self.decls.as_slice(), key),
            Some(_) => false,
        }
    }

    /// Whether the method is among them.
    pub(crate) fn has_method(&self, key: &MethodKey) -> bool
        ensures { result ≡ list_any (same_decl (method_decl (method_key_of key.now))) self.now }
    {
        match &self.methods {
            None => any_method(self.decls.as_slice(), key),
            Some(methods) => methods.has(self.decls.as_slice(), key),
        }
    }

    /// Whether the local of this number of the member is among them.
    pub fn has_local(&self, member: &MemberKey, number: u32) -> bool
        ensures { result ≡ list_any (same_decl
            (local_decl (record { member = member_key_of member.now; number = number })))
            self.now }
    {
        match &self.methods {
            None => any_local(self.decls.as_slice(), member, number),
            Some(_) => false,
        }
    }

    /// Whether what a member's own name declares is among them: a constructor's is its class (JLS
    /// 8.8).
    pub fn has_member(&self, key: &MemberKey) -> bool
        ensures { result ≡ list_any (same_decl (declared_by (member_key_of key.now))) self.now }
    {
        match key {
            MemberKey::Head(key) => self.has_class(key),
            MemberKey::Field(key) => self.has_field(key),
            MemberKey::Method(key) => self.has_method(key),
            MemberKey::Ctor(key) => self.has_class(&key.class),
        }
    }

    /// Whether what is no method is among them.
    fn has_other(&self, decl: &Decl) -> bool
        requires { is_no_method (decl_of decl.now) ≡ true }
        ensures { result ≡ list_any (same_decl (decl_of decl.now)) self.now }
    {
        match &self.methods {
            None => any_decl(self.decls.as_slice(), decl),
            Some(_) => false,
        }
    }

    /// Whether the declaration is among them. Of several methods only those of its class are asked.
    pub fn has(&self, decl: &Decl) -> bool
        ensures { result ≡ list_any (same_decl (decl_of decl.now)) self.now }
    {
        match decl {
            Decl::Method(key) => self.has_method(key),
            Decl::Class(_) => self.has_other(decl),
            Decl::Field(_) => self.has_other(decl),
            Decl::Ctor(_) => self.has_other(decl),
            Decl::Local(_) => self.has_other(decl),
        }
    }
}
