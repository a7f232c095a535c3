//! Members that are declared twice, and parameters of one name.
ghost use Rattle.std.specs.Prelude.{◌≡◌, ◌<◌, ◌^◌, IfOk, List, Option, length, map, option_map};
ghost use Rattle.jr_table.specs.declared.kinds.DeclKind.TheVariants as kind;
ghost use Rattle.jr_table.specs.Faults as faults;
ghost use Rattle.jr_table.specs.Faults.{PackageLine, HasFault, ParamTwice};
ghost use Rattle.jr_build_hierarchy.specs.HierarchyView.{hierarchy_of};
ghost use Rattle.jr_build_places.specs.Places.{place_of, IsEarliest};
ghost use Rattle.jr_build_rows.specs.Signatures.{member_twice};
ghost use Rattle.jr_build_declared.specs.DeclarationFaults.{IsLeastAt};
ghost use Rattle.jr_build_declared.specs.DeclaredView.{param_declaration_of, item_of, declaration_of};
ghost use Rattle.jr_build_rows.specs.TypeFaults.{KnowsMeanings};

use crate::signatures::{SignatureIndex, item_signature};
use crate::type_faults::lesser_of;
use jr_build_declared::declaration_faults::name_place;
use jr_build_declared::declarations::{DeclaredItem, DeclaredKind, DeclaredParam};
use jr_build_hierarchy::hierarchies::Hierarchy;
use jr_build_places::places::{earlier, in_file};
use jr_index::Names;
use jr_text::Place;
use std::alloc::{AllocError, Global};

/// Where an item is at fault of which another was under its signature before, or wasn't.
fn member_twice_at(item: &DeclaredKind<'_>, before: Option<u32>) -> Option<u32>
    ensures { result ≡ member_twice (item_of item.now) before }
{
    match before {
        None => None,
        Some(_) => Some(name_place(item)),
    }
}

/// The place, if there is a number.
fn place_if(before: Option<u32>, at: u32) -> Option<u32>
    ensures { result ≡ option_map (λ w. at) before }
{
    match before {
        None => None,
        Some(_) => Some(at),
    }
}

/// Where the first parameter stands that has the name of an earlier one. Among fewer than two there
/// is none.
fn param_twice(alloc: Global, params: &[DeclaredParam<'_>]) -> Result<Option<u32>, AllocError>
    ensures { IfOk result (λ at. IsLeastAt (ParamTwice (map param_declaration_of params.now)) at) }
{
    if params.len() < 2 {
        return Ok(None);
    }
    let mut names = Names::new(alloc);
    let mut least = None;
    for param in params {
        let before = names.put(param.name, param.at)?;
        least = lesser_of(least, place_if(before, param.at));
    }
    Ok(least)
}

/// The parameters of an item.
fn params_of<'s, 'a>(item: &'s DeclaredKind<'a>) -> &'s [DeclaredParam<'a>]
    ensures { map param_declaration_of result.now ≡ faults.params_of (item_of item.now) }
{
    match item {
        DeclaredKind::Method(method) => &method.params,
        DeclaredKind::Ctor(ctor) => &ctor.params,
        DeclaredKind::Class(_) | DeclaredKind::Field(_) => &[],
    }
}

/// The earliest member that declares what an earlier one does, or parameter that has the name of
/// an earlier one.
pub fn twice_member<'a>(
    alloc: Global,
    declarations: &[DeclaredItem<'a>],
    h: &Hierarchy<'a>,
) -> Result<Option<Place>, AllocError>
    requires few { length declarations.now < 2 ^ 32 }
    requires known { KnowsMeanings (map declaration_of declarations.now) (hierarchy_of h.now) }
    ensures { IfOk result (λ place. (packages : List (Option PackageLine)) →
        IsEarliest (HasFault packages (map declaration_of declarations.now) kind.TwiceMember)
        (option_map place_of place)) }
{
    let mut index = SignatureIndex::new(alloc);
    let mut first = None;
    for (number, declaration) in declarations.iter().enumerate() {
        let signature = item_signature(alloc, h, &declaration.item)?;
        let before = index.put(signature, number as u32)?;
        let in_params = param_twice(alloc, params_of(&declaration.item))?;
        let at = lesser_of(member_twice_at(&declaration.item, before), in_params);
        first = earlier(first, in_file(declaration.file, at));
    }
    Ok(first)
}
