//! Types that mean nothing.
ghost use Rattle.std.specs.Prelude.{◌≡◌, List, Option, map, option_map};
ghost use Rattle.jr_table.specs.declared.kinds.DeclKind.TheVariants as kind;
ghost use Rattle.jr_table.specs.Faults.{PackageLine, HasFault};
ghost use Rattle.jr_build_hierarchy.specs.HierarchyView.{hierarchy_of};
ghost use Rattle.jr_build_places.specs.Places.{place_of, IsEarliest};
ghost use Rattle.jr_build_declared.specs.DeclarationFaults.{IsLeastAt};
ghost use Rattle.jr_build_declared.specs.DeclaredView.{declaration_key_of, written_of, param_declaration_of};
ghost use Rattle.jr_build_declared.specs.DeclaredView.{method_declaration_of, item_of, declaration_of};
ghost use Rattle.jr_table.specs.DeclaredItems.{method_item};
ghost use Rattle.jr_build_rows.specs.TypeFaults.{lesser, MeansNothing, MaybeNothing};
ghost use Rattle.jr_build_rows.specs.TypeFaults.{AnyNothing, NothingAt, KnowsMeanings};

use jr_build_declared::declarations::{
    DeclaredItem, DeclaredKey, DeclaredKind, DeclaredMethod, DeclaredParam, Written,
};
use jr_build_hierarchy::hierarchies::Hierarchy;
use jr_build_hierarchy::meanings::means;
use jr_build_places::places::{earlier, in_file};
use jr_text::Place;

/// The lesser of two numbers, where there is one.
pub fn lesser_of(first: Option<u32>, second: Option<u32>) -> Option<u32>
    ensures { result ≡ lesser first second }
{
    match (first, second) {
        (None, None) => None,
        (None, Some(at)) => Some(at),
        (Some(at), None) => Some(at),
        (Some(at), Some(other)) => Some(at.min(other)),
    }
}

/// Where a type stands that means nothing in a class.
fn nothing_at<'a>(h: &Hierarchy<'a>, of: &DeclaredKey<'a>, written: &Written<'a>) -> Option<u32>
    ensures { IsLeastAt
        (MeansNothing (hierarchy_of h.now) (declaration_key_of of.now) (written_of written.now))
        result }
{
    match means(h, of, written) {
        Some(_) => None,
        None => match written {
            Written::Int | Written::Boolean => None,
            Written::Named { at, .. } => Some(*at),
        },
    }
}

/// Where a type stands, if one is written, that means nothing in a class.
fn maybe_nothing_at<'a>(
    h: &Hierarchy<'a>,
    of: &DeclaredKey<'a>,
    written: &Option<Written<'a>>,
) -> Option<u32>
    ensures { IsLeastAt (MaybeNothing (hierarchy_of h.now) (declaration_key_of of.now)
        (option_map written_of written.now)) result }
{
    match written {
        None => None,
        Some(written) => nothing_at(h, of, written),
    }
}

/// Where the first of the parameters' types stands that mean nothing in a class.
fn any_nothing_at<'a>(
    h: &Hierarchy<'a>,
    of: &DeclaredKey<'a>,
    params: &[DeclaredParam<'a>],
) -> Option<u32>
    ensures { IsLeastAt (AnyNothing (hierarchy_of h.now) (declaration_key_of of.now)
        (map param_declaration_of params.now)) result }
{
    let mut least = None;
    for param in params {
        least = lesser_of(least, nothing_at(h, of, &param.written));
    }
    least
}

/// Where the first type of a method stands that means nothing.
fn method_nothing_at<'a>(h: &Hierarchy<'a>, method: &DeclaredMethod<'a>) -> Option<u32>
    ensures { IsLeastAt
        (NothingAt (hierarchy_of h.now) (method_item (method_declaration_of method.now))) result }
{
    let in_result = maybe_nothing_at(h, &method.of, &method.result);
    let in_params = any_nothing_at(h, &method.of, &method.params);
    lesser_of(in_result, in_params)
}

/// Where the first type that an item writes stands that means nothing.
fn item_nothing_at<'a>(h: &Hierarchy<'a>, item: &DeclaredKind<'a>) -> Option<u32>
    ensures { IsLeastAt (NothingAt (hierarchy_of h.now) (item_of item.now)) result }
{
    match item {
        DeclaredKind::Class(_) => None,
        DeclaredKind::Field(field) => nothing_at(h, &field.of, &field.written),
        DeclaredKind::Method(method) => method_nothing_at(h, method),
        DeclaredKind::Ctor(ctor) => any_nothing_at(h, &ctor.of, &ctor.params),
    }
}

/// The earliest type that means nothing.
pub fn no_type<'a>(declarations: &[DeclaredItem<'a>], h: &Hierarchy<'a>) -> Option<Place>
    requires { KnowsMeanings (map declaration_of declarations.now) (hierarchy_of h.now) }
    ensures { (packages : List (Option PackageLine)) →
        IsEarliest (HasFault packages (map declaration_of declarations.now) kind.NoTy)
        (option_map place_of result) }
{
    let mut first = None;
    for declaration in declarations {
        first = earlier(
            first,
            in_file(declaration.file, item_nothing_at(h, &declaration.item)),
        );
    }
    first
}
