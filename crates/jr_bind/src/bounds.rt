//! What binding knows of one member.
ghost use Rattle.std.specs.Prelude.{◌≡◌, map, option_map, slice_get};
ghost use Rattle.std.specs.List.Sorted.{IsNonDecreasingBy};
ghost use Rattle.jr_table.specs.KeyView.{member_key_of, decl_of};
ghost use Rattle.jr_table.specs.TypeView.{ty_of};
ghost use Rattle.jr_bind.specs.BoundView.{reference_of};
ghost use Rattle.jr_bind.specs.ErrorView.{error_of};
ghost use Rattle.jr_bind.specs.Bounds.{decl_in};

use crate::errors::BindError;
use jr_ast::Path;
use jr_expr_types::Types;
use jr_table::{Decl, Facts, MemberKey, Ty};
use std::marker::Model;
use std::rc::Rc;

/// A reference, by its place from the member's first byte, and what it means; those that mean the
/// same share it.
#[derive(Drop)]
pub struct Reference {
    pub at: u32,
    pub decl: Rc<Decl>,
}

/// What binding knows of one member: what its references mean, the types of its expressions, and
/// the rules that it breaks. Places are counted from the member's first byte.
#[derive(Drop)]
pub struct Bound {
    pub(crate) member: MemberKey,
    /// By their places.
    pub(crate) references: Vec<Reference>,
    pub(crate) errors: Vec<BindError>,
    pub(crate) types: Types,
}

impl Model for Bound {
    ghost use Rattle.std.specs.Prelude.{map};
    ghost use Rattle.std.specs.List.Sorted.{IsNonDecreasingBy};
    ghost use Rattle.jr_bind.specs.Bounds as pure;
    ghost use Rattle.jr_bind.specs.BoundView.{bound_of};

    ghost Value = { pure.Bound };

    ghost view = { λ b. bound_of b.member b.references.items b.errors.items b.types };

    ghost invariant = { λ b. IsNonDecreasingBy (λ r. r.at) b.references.items };
}

/// The reference of a number.
fn reference_at(references: &[Reference], number: usize) -> Option<&Reference>
    ensures { option_map (λ r. r.now) result ≡ slice_get references.now number }
{
    references.get(number)
}

/// What the reference at a place means, if one is there.
fn decl_at(references: &[Reference], at: u32) -> Option<&Decl>
    requires { IsNonDecreasingBy (λ r. r.at) references.now }
    ensures { option_map (λ d. decl_of d.now) result
        ≡ decl_in (map reference_of references.now) at }
{
    let number = references.partition_point(|r| r.at < at);
    match reference_at(references, number) {
        None => None,
        Some(reference) => {
            if reference.at == at {
                Some(reference.decl.as_ref())
            } else {
                None
            }
        }
    }
}

impl Bound {
    /// Its references that are bound, by their places.
    pub fn references(&self) -> &[Reference]
        ensures { map reference_of result.now ≡ self.now.references }
    {
        self.references.as_slice()
    }

    /// The rules that the member breaks, by place and rule.
    pub fn errors(&self) -> &[BindError]
        ensures { map error_of result.now ≡ self.now.errors }
    {
        self.errors.as_slice()
    }
}

impl Facts for Bound {
    ghost use Rattle.jr_bind.specs.Bounds.{decl_in};
    ghost use Rattle.jr_expr_types.specs.Slots.{find_type};

    ghost key = { λ b. b.member };

    ghost decls = { λ b at. decl_in b.references at };

    ghost types = { λ b path. find_type b.types path };

    fn member(&self) -> &MemberKey {
        &self.member
    }

    fn decl(&self, at: u32) -> Option<&Decl> {
        decl_at(self.references.as_slice(), at)
    }

    fn ty(&self, path: &Path) -> Option<&Ty> {
        self.types.ty(path)
    }
}
