//! What extract local finds, or why it is refused there.
ghost use Rattle.std.specs.Prelude.{◌≡◌, ◌<◌, IfOk, codes, length, map};
ghost use Rattle.jr_table.specs.Decls as decls;
ghost use Rattle.jr_table.specs.HeadRules.{types_of};
ghost use Rattle.jr_table.specs.KeyView.{member_key_of};
ghost use Rattle.jr_members.specs.PartView.{written_of};
ghost use Rattle.jr_names.specs.Refusals as refusals;
ghost use Rattle.jr_names.specs.RefusalView.{refusal_of};
ghost use Rattle.jr_local_search.specs.PlaceView.{extract_of};
ghost use Rattle.jr_local_finds.specs.Chosen.{members_of};
ghost use Rattle.jr_local_finds.specs.Extracts as pure;
ghost use Rattle.jr_local_finds.specs.ExtractView.{extracted_of};
ghost use Rattle.jr_local_finds.specs.ValueView.{chosen_of};

use crate::selecting::{SelectedValue, selected_value};
use jr_ast::Name;
use jr_bind::View;
use jr_bodies::bodies_have_types;
use jr_local_search::{ExtractPlace, at_body, extract_place};
use jr_members::WrittenMember;
use jr_names::{Need, Refusal};
use jr_table::{Decl, Facts, LocalKey, MemberKey};
use jr_text::{Place, Span};
use jr_way_places::typed_are_no_classes;
use std::alloc::{AllocError, Global};

/// What extract local finds: the expression, and the number of the new local; or why it is refused.
#[derive(Drop)]
pub enum ExtractFound<'a> {
    Refused(Refusal),
    Found(SelectedValue<'a>, u32),
}

/// How many types a member's parameters have.
fn count_types(key: &MemberKey) -> usize
    ensures { result ≡ length (types_of (member_key_of key.now)) }
{
    match key {
        MemberKey::Head(_) => 0,
        MemberKey::Field(_) => 0,
        MemberKey::Method(key) => key.params.as_slice().len(),
        MemberKey::Ctor(key) => key.params.as_slice().len(),
    }
}

/// No such expression is there.
fn no_value<'a>(alloc: Global, file: u32, at: u32) -> Result<ExtractFound<'a>, AllocError>
    ensures { IfOk result (λ r. extracted_of r ≡ pure.refused
        (refusals.bad_target (record { file = file; at = at }) (codes "Value"))) }
{
    let need = Name::new(alloc, Need::Value.name())?;
    Ok(ExtractFound::Refused(Refusal::BadTarget {
        at: Place { file, at },
        need,
    }))
}

/// The construct at the byte bars it.
fn barred<'a>(file: u32, at: u32) -> ExtractFound<'a>
    ensures { extracted_of result
        ≡ pure.refused (refusals.conditional (record { file = file; at = at })) }
{
    ExtractFound::Refused(Refusal::Conditional {
        at: Place { file, at },
    })
}

/// The local of the number has the name.
fn taken<'a>(key: &MemberKey, number: u32) -> Result<ExtractFound<'a>, AllocError>
    ensures { IfOk result (λ r. extracted_of r ≡ pure.refused (refusals.clash (decls.local_decl
        (record { member = member_key_of key.now; number = number })))) }
{
    let member = key.copy()?;
    let with = Decl::Local(LocalKey { member, number });
    Ok(ExtractFound::Refused(Refusal::Clash { with }))
}

/// What stands against it at its place.
fn place_of(
    name: &Name,
    key: &MemberKey,
    selected: &SelectedValue<'_>,
) -> Result<ExtractPlace, AllocError>
    ensures { IfOk result (λ r. pure.IsPlaced name.now (member_key_of key.now)
        (chosen_of selected.now) (extract_of r)) }
{
    let code = selected.code;
    let at = at_body(name, count_types(key), code.params)?;
    let steps = selected.value.path.steps.as_slice();
    extract_place(
        name,
        at,
        code.front,
        code.list,
        steps,
        &selected.value.found,
    )
}

fn at_place<'a>(
    file: u32,
    key: &MemberKey,
    selected: SelectedValue<'a>,
    place: ExtractPlace,
) -> Result<ExtractFound<'a>, AllocError>
    ensures { IfOk result (λ r. extracted_of r ≡ pure.at_place file (member_key_of key.now)
        (chosen_of selected.entry) (extract_of place)) }
{
    match place {
        ExtractPlace::Barred(at) => {
            drop(selected);
            Ok(barred(file, at))
        }
        ExtractPlace::Taken(number) => {
            drop(selected);
            taken(key, number)
        }
        ExtractPlace::Free(number) => Ok(ExtractFound::Found(selected, number)),
    }
}

/// Where the expression is known, of the member of the key.
fn of_selected<'a>(
    file: u32,
    name: &Name,
    key: &MemberKey,
    selected: SelectedValue<'a>,
) -> Result<ExtractFound<'a>, AllocError>
    ensures { IfOk result (λ r. pure.IsAnswer name.now file (member_key_of key.now)
        (chosen_of selected.entry) (extracted_of r)) }
{
    match place_of(name, key, &selected) {
        Err(error) => {
            drop(selected);
            Err(error)
        }
        Ok(place) => at_place(file, key, selected, place),
    }
}

/// What extract local finds at a span of a file: the expression, and the number of the new local of
/// this name. Or why it is refused, by the first that applies: there is no such expression
/// (`BadTarget`), a construct of its statement may leave it out or evaluate it again
/// (`Conditional`), a local has the name there (`Clash`). `members` are the written members of the
/// program. The only fault is want of memory.
pub fn extract_found<'a, V: View<Span>>(
    alloc: Global,
    view: &'a V,
    members: &[WrittenMember<'a, Span>],
    file: u32,
    from: u32,
    to: u32,
    name: &Name,
) -> Result<ExtractFound<'a>, AllocError>
    requires { map written_of members.now ≡ members_of (V.program view.now) }
    ensures { IfOk result (λ r.
        pure.Extracts (V.program view.now) file from to name.now (extracted_of r)) }
{
    typed_are_no_classes::<Span>();
    bodies_have_types();
    view.keeps_program();
    let selected = selected_value(alloc, view, members, file, &Span { from, to })?;
    match selected {
        None => no_value(alloc, file, from),
        Some(selected) => {
            let bound = view.bound(selected.member);
            of_selected(file, name, bound.member(), selected)
        }
    }
}
