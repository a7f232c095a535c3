//! Members and declarations by their keys.
ghost use Rattle.std.specs.Prelude.{◌≡◌, ◌↔◌, IfOk, IsTrue};
ghost use Rattle.jr_table.specs.KeyView.{member_key_of, local_key_of, decl_of};

use crate::classes::ClassKey;
use crate::keys::{CtorKey, FieldKey, MethodKey};
use std::alloc::AllocError;

/// What has code or types of its own: the head of a class, a field, a method, a constructor.
#[derive(Drop)]
pub enum MemberKey {
    Head(ClassKey),
    Field(FieldKey),
    Method(MethodKey),
    Ctor(CtorKey),
}

/// A parameter or local of a member: parameters first, then locals in text order, from 0.
#[derive(Drop)]
pub struct LocalKey {
    pub member: MemberKey,
    pub number: u32,
}

/// A declaration.
#[derive(Drop)]
pub enum Decl {
    Class(ClassKey),
    Field(FieldKey),
    Method(MethodKey),
    Ctor(CtorKey),
    Local(LocalKey),
}

impl MemberKey {
    /// The same key once more.
    pub fn copy(&self) -> Result<MemberKey, AllocError>
        ensures { IfOk result (λ k. member_key_of k ≡ member_key_of self.now) }
    {
        match self {
            MemberKey::Head(key) => Ok(MemberKey::Head(key.copy()?)),
            MemberKey::Field(key) => Ok(MemberKey::Field(key.copy()?)),
            MemberKey::Method(key) => Ok(MemberKey::Method(key.copy()?)),
            MemberKey::Ctor(key) => Ok(MemberKey::Ctor(key.copy()?)),
        }
    }
}

impl LocalKey {
    /// The same key once more.
    pub fn copy(&self) -> Result<LocalKey, AllocError>
        ensures { IfOk result (λ k. local_key_of k ≡ local_key_of self.now) }
    {
        let number = self.number;
        let member = self.member.copy()?;
        Ok(LocalKey { member, number })
    }
}

impl Decl {
    /// The same declaration once more.
    pub fn copy(&self) -> Result<Decl, AllocError>
        ensures { IfOk result (λ d. decl_of d ≡ decl_of self.now) }
    {
        match self {
            Decl::Class(key) => Ok(Decl::Class(key.copy()?)),
            Decl::Field(key) => Ok(Decl::Field(key.copy()?)),
            Decl::Method(key) => Ok(Decl::Method(key.copy()?)),
            Decl::Ctor(key) => Ok(Decl::Ctor(key.copy()?)),
            Decl::Local(key) => Ok(Decl::Local(key.copy()?)),
        }
    }
}

impl PartialEq for MemberKey {
    ghost use Rattle.std.specs.Ordering.{on};
    ghost use Rattle.std.specs.Cmp as cmp;
    ghost use Rattle.jr_table.specs.KeyView.{member_key_of};
    ghost use Rattle.jr_table.specs.SameDecls.{same_member, same_member_equiv};

    ghost eq = { on member_key_of same_member };

    ghost laws = { cmp.partial_equiv_from_equiv (cmp.on_equiv member_key_of same_member_equiv) };

    fn eq(&self, other: &MemberKey) -> bool
        ensures { IsTrue result ↔ (member_key_of self.now ≡ member_key_of other.now) }
    {
        match (self, other) {
            (MemberKey::Head(left), MemberKey::Head(right)) => left == right,
            (MemberKey::Field(left), MemberKey::Field(right)) => left == right,
            (MemberKey::Method(left), MemberKey::Method(right)) => left == right,
            (MemberKey::Ctor(left), MemberKey::Ctor(right)) => left == right,
            _ => false,
        }
    }
}

impl Eq for MemberKey {
    ghost use Rattle.std.specs.Cmp as order;
    ghost use Rattle.jr_table.specs.KeyView.{member_key_of};
    ghost use Rattle.jr_table.specs.SameDecls.{same_member_equiv};

    ghost laws = { order.on_equiv member_key_of same_member_equiv };
}

impl PartialEq for LocalKey {
    ghost use Rattle.std.specs.Ordering.{on};
    ghost use Rattle.std.specs.Cmp as order;
    ghost use Rattle.jr_table.specs.KeyView.{local_key_of};
    ghost use Rattle.jr_table.specs.SameDecls.{same_local, same_local_equiv};

    ghost eq = { on local_key_of same_local };

    ghost laws = { order.partial_equiv_from_equiv (order.on_equiv local_key_of same_local_equiv) };

    fn eq(&self, other: &LocalKey) -> bool
        ensures { IsTrue result ↔ (local_key_of self.now ≡ local_key_of other.now) }
    {
        (self.number == other.number) & (self.member == other.member)
    }
}

impl Eq for LocalKey {
    ghost use Rattle.std.specs.Cmp as order;
    ghost use Rattle.jr_table.specs.KeyView.{local_key_of};
    ghost use Rattle.jr_table.specs.SameDecls.{same_local_equiv};

    ghost laws = { order.on_equiv local_key_of same_local_equiv };
}

impl PartialEq for Decl {
    ghost use Rattle.std.specs.Ordering.{on};
    ghost use Rattle.std.specs.Cmp as order;
    ghost use Rattle.jr_table.specs.KeyView.{decl_of};
    ghost use Rattle.jr_table.specs.SameDecls.{same_decl, same_decl_equiv};

    ghost eq = { on decl_of same_decl };

    ghost laws = { order.partial_equiv_from_equiv (order.on_equiv decl_of same_decl_equiv) };

    fn eq(&self, other: &Decl) -> bool
        ensures { IsTrue result ↔ (decl_of self.now ≡ decl_of other.now) }
    {
        match (self, other) {
            (Decl::Class(left), Decl::Class(right)) => left == right,
            (Decl::Field(left), Decl::Field(right)) => left == right,
            (Decl::Method(left), Decl::Method(right)) => left == right,
            (Decl::Ctor(left), Decl::Ctor(right)) => left == right,
            (Decl::Local(left), Decl::Local(right)) => left == right,
            _ => false,
        }
    }
}

impl Eq for Decl {
    ghost use Rattle.std.specs.Cmp as order;
    ghost use Rattle.jr_table.specs.KeyView.{decl_of};
    ghost use Rattle.jr_table.specs.SameDecls.{same_decl_equiv};

    ghost laws = { order.on_equiv decl_of same_decl_equiv };
}
