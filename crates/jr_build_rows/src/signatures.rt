//! What members are told apart by, and numbers by it.
ghost use Rattle.std.specs.Prelude.{◌≡◌, IfOk, Option, Some, map, option_map};
ghost use Rattle.jr_build_hierarchy.specs.Hierarchies.{meaning};
ghost use Rattle.jr_build_hierarchy.specs.HierarchyView.{hierarchy_of, meaning_of};
ghost use Rattle.jr_build_rows.specs.Signatures.{signature_view, meanings, signature_of};
ghost use Rattle.jr_build_declared.specs.DeclaredView.{text_of, declaration_key_of, param_declaration_of, item_of};

use jr_build_declared::declarations::{DeclaredKey, DeclaredKind, DeclaredParam};
use jr_build_hierarchy::hierarchies::Hierarchy;
use jr_build_hierarchy::meanings::{Meaning, means};
use std::alloc::{AllocError, Global};
use std::collections::HashMap;

/// A member's class, its name and the types of its parameters. A constructor has no name, and a
/// field no parameters.
#[derive(PartialEq, Eq, Hash, Drop)]
pub struct Signature<'a> {
    of: DeclaredKey<'a>,
    name: Option<&'a str>,
    params: Option<Vec<Meaning<'a>>>,
}

/// What the types of parameters mean in a class, if each means something.
pub fn meanings_of<'a>(
    alloc: Global,
    h: &Hierarchy<'a>,
    of: &DeclaredKey<'a>,
    params: &[DeclaredParam<'a>],
) -> Result<Option<Vec<Meaning<'a>>>, AllocError>
    ensures { IfOk result (λ r. option_map (λ v. map meaning_of v.items) r
        ≡ meanings (hierarchy_of h.now) (declaration_key_of of.now) (map param_declaration_of params.now)) }
{
    let mut list = Vec::new(alloc);
    for param in params {
        let Some(meaning) = means(h, of, &param.written) else {
            return Ok(None);
        };
        list.push(meaning)?;
    }
    Ok(Some(list))
}

/// The signature of a member with these parameters, if each of their types means something.
fn with_params<'a>(
    of: &DeclaredKey<'a>,
    name: Option<&'a str>,
    params: Option<Vec<Meaning<'a>>>,
) -> Option<Signature<'a>>
    ensures { option_map signature_view result ≡ option_map (λ ts. record {
      of = declaration_key_of of.now;
      name = option_map text_of name.entry;
      params = Some ts;
    }) (option_map (λ v. map meaning_of v.items) params.entry) }
{
    match params {
        None => None,
        Some(params) => Some(Signature {
            of: *of,
            name,
            params: Some(params),
        }),
    }
}

/// The signature of a field, a method or a constructor, if each type in it means something.
pub fn item_signature<'a>(
    alloc: Global,
    h: &Hierarchy<'a>,
    item: &DeclaredKind<'a>,
) -> Result<Option<Signature<'a>>, AllocError>
    ensures { IfOk result (λ s. option_map signature_view s
        ≡ signature_of (hierarchy_of h.now) (item_of item.now)) }
{
    match item {
        DeclaredKind::Class(_) => Ok(None),
        DeclaredKind::Field(field) => Ok(Some(Signature {
            of: field.of,
            name: Some(field.name.as_str()),
            params: None,
        })),
        DeclaredKind::Method(method) => {
            let params = meanings_of(alloc, h, &method.of, &method.params)?;
            Ok(with_params(&method.of, Some(method.name.as_str()), params))
        }
        DeclaredKind::Ctor(ctor) => {
            let params = meanings_of(alloc, h, &ctor.of, &ctor.params)?;
            Ok(with_params(&ctor.of, None, params))
        }
    }
}

/// Numbers by signatures.
#[derive(Drop)]
pub struct SignatureIndex<'a> {
    numbers: HashMap<Signature<'a>, u32>,
}

impl<'a> SignatureIndex<'a> {
    ghost use Rattle.std.specs.Prelude.{◌≡◌, None, IfOk, OnOk, option_map, option_and_then};
    ghost use Rattle.jr_build_rows.specs.declared.signatures.Signature as raw;
    ghost use Rattle.jr_build_rows.specs.Signatures.{number_under, PutsSignature};

    /// No signatures.
    pub fn new(alloc: Global) -> SignatureIndex<'a>
        ensures { (s : raw.Signature) → number_under result s ≡ None }
    {
        SignatureIndex {
            numbers: HashMap::new(alloc),
        }
    }

    /// Puts the number under the signature, if there is one, and answers the one before.
    pub fn put(
        &mut self,
        signature: Option<Signature<'a>>,
        number: u32,
    ) -> Result<Option<u32>, AllocError>
        ensures before { IfOk result (λ before.
            before ≡ option_and_then (number_under self.old) signature.entry) }
        ensures put { OnOk result (PutsSignature self.old signature.entry number self.new) }
    {
        let Some(signature) = signature else {
            return Ok(None);
        };
        let before = self.numbers.insert(signature, number)?;
        Ok(before)
    }
}
