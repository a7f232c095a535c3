//! How refusals are written.

ghost use Rattle.std.specs.Prelude.{◌≡◌, ◌<◌, [], ◌∷◌, length, codes, decimal, IfOk, string_bytes};
ghost use Rattle.jr_table.specs.TypeView.{class_key_of};
ghost use Rattle.jr_table.specs.KeyView.{decl_of, local_key_of, member_key_of, method_key_of};
ghost use Rattle.jr_table.specs.FoundView.{found_of};
ghost use Rattle.jr_dependences.specs.KindNames as kinds;
ghost use Rattle.jr_names.specs.DeclTexts as decls;
ghost use Rattle.jr_names.specs.RefusalView.{refusal_of};
ghost use Rattle.jr_names.specs.SiteView.{site_at_of};
ghost use Rattle.jr_script.specs.Texts as texts;
ghost use Rattle.jr_script.specs.RefusalTexts as refusals;

use crate::texts::{at_text, found_text, place_text, site_at_text};
use jr_ast::Name;
use jr_dependences::kind_name;
use jr_names::{Refusal, SiteAt, class_text, decl_text, local_text, member_text, method_text};
use jr_sync::DepKind;
use jr_table::{ClassKey, Decl, Found, LocalKey, MemberKey, MethodKey};
use jr_text::Place;
use std::alloc::{AllocError, Global};

/// The text of a refusal: its name and then its fields, with one space between. A place is
/// `FILE:AT`, with the byte counted from the start of the file, and the other fields are written as
/// declarations, names and numbers are.
pub fn refusal_text(alloc: Global, files: &[Name], refusal: &Refusal) -> Result<String, AllocError>
    requires { refusals.ArePlacesIn files.now (refusals.places_of (refusal_of refusal.now)) }
    ensures { IfOk result (λ text. string_bytes text
        ≡ refusals.refusal_text files.now (refusal_of refusal.now)) }
{
    let name = refusal.name();
    let fields = fields_text(alloc, files, refusal)?;
    format!(in alloc; "{name}{fields}")
}

// Each field of the refusal, behind a space.
fn fields_text(alloc: Global, files: &[Name], refusal: &Refusal) -> Result<String, AllocError>
    requires { refusals.ArePlacesIn files.now (refusals.places_of (refusal_of refusal.now)) }
    ensures { IfOk result (λ text. string_bytes text
        ≡ refusals.spaced (refusals.fields_of files.now (refusal_of refusal.now))) }
{
    match refusal {
        Refusal::NoSuchFile { name } | Refusal::BadName { name } => name_field(alloc, name),
        Refusal::BadPlace { file, at } => at_field(alloc, file, *at),
        Refusal::SourceError { file, at, kind } => source_fields(alloc, file, *at, kind),
        Refusal::BadTarget { at, need } => place_and_name(alloc, files, *at, need),
        Refusal::PreludeMethod { method } => name_field(alloc, method),
        Refusal::Conditional { at } | Refusal::HasReturn { at } => place_field(alloc, files, *at),
        Refusal::TwoResults { first, second } => two_locals(alloc, first, second),
        Refusal::ManyTargets { call, method } => place_and_method(alloc, files, *call, method),
        Refusal::MayBeNull { at } => place_field(alloc, files, *at),
        Refusal::Recursive { call } => place_field(alloc, files, *call),
        Refusal::Assigned { local, at } => local_and_place(alloc, files, local, *at),
        Refusal::Clash { with } => decl_field(alloc, with),
        Refusal::OverrideChanged { class, method } => class_and_method(alloc, class, method),
        Refusal::LostBinding {
            reference,
            declaration,
            found,
        } => binding_fields(alloc, files, *reference, declaration, found),
        Refusal::WouldNotCompile { at, rule } => place_and_name(alloc, files, *at, rule),
        Refusal::LostDependence {
            kind,
            first,
            second,
        } => dependence_fields(alloc, files, *kind, first, second),
        Refusal::BadSpan { from, to } => two_numbers(alloc, *from, *to),
        Refusal::TooLong { len } | Refusal::ReportFull { len } => number_field(alloc, *len),
        Refusal::NothingToUndo | Refusal::NothingToRedo => Ok(String::new(alloc)),
        Refusal::TooManySites { member, count } => member_and_number(alloc, member, *count),
    }
}

fn at_field(alloc: Global, file: &Name, at: u32) -> Result<String, AllocError>
    ensures { IfOk result (λ text. string_bytes text ≡ refusals.spaced
        (texts.at_text file.now at ∷ [])) }
{
    let place = at_text(alloc, file, at)?;
    format!(in alloc; " {place}")
}

fn source_fields(alloc: Global, file: &Name, at: u32, kind: &Name) -> Result<String, AllocError>
    ensures { IfOk result (λ text. string_bytes text ≡ refusals.spaced
        (texts.at_text file.now at ∷ kind.now ∷ [])) }
{
    let place = at_text(alloc, file, at)?;
    let kind = kind.as_str();
    format!(in alloc; " {place} {kind}")
}

fn name_field(alloc: Global, name: &Name) -> Result<String, AllocError>
    ensures { IfOk result (λ text. string_bytes text ≡ refusals.spaced
        (name.now ∷ [])) }
{
    let name = name.as_str();
    format!(in alloc; " {name}")
}

fn place_field(alloc: Global, files: &[Name], place: Place) -> Result<String, AllocError>
    requires { place.file < length files.now }
    ensures { IfOk result (λ text. string_bytes text ≡ refusals.spaced
        (texts.place_text files.now place ∷ [])) }
{
    let place = place_text(alloc, files, place)?;
    format!(in alloc; " {place}")
}

fn place_and_name(
    alloc: Global,
    files: &[Name],
    place: Place,
    name: &Name,
) -> Result<String, AllocError>
    requires { place.file < length files.now }
    ensures { IfOk result (λ text. string_bytes text ≡ refusals.spaced
        (texts.place_text files.now place ∷ name.now ∷ [])) }
{
    let place = place_text(alloc, files, place)?;
    let name = name.as_str();
    format!(in alloc; " {place} {name}")
}

fn two_locals(alloc: Global, first: &LocalKey, second: &LocalKey) -> Result<String, AllocError>
    ensures { IfOk result (λ text. string_bytes text ≡ refusals.spaced
        (decls.local_text (local_key_of first.now)
        ∷ decls.local_text (local_key_of second.now) ∷ [])) }
{
    let first = local_text(alloc, first)?;
    let second = local_text(alloc, second)?;
    format!(in alloc; " {first} {second}")
}

fn place_and_method(
    alloc: Global,
    files: &[Name],
    call: Place,
    method: &MethodKey,
) -> Result<String, AllocError>
    requires { call.file < length files.now }
    ensures { IfOk result (λ text. string_bytes text ≡ refusals.spaced
        (texts.place_text files.now call
        ∷ decls.method_text (method_key_of method.now) ∷ [])) }
{
    let call = place_text(alloc, files, call)?;
    let method = method_text(alloc, method)?;
    format!(in alloc; " {call} {method}")
}

fn local_and_place(
    alloc: Global,
    files: &[Name],
    local: &LocalKey,
    at: Place,
) -> Result<String, AllocError>
    requires { at.file < length files.now }
    ensures { IfOk result (λ text. string_bytes text ≡ refusals.spaced
        (decls.local_text (local_key_of local.now)
        ∷ texts.place_text files.now at ∷ [])) }
{
    let local = local_text(alloc, local)?;
    let at = place_text(alloc, files, at)?;
    format!(in alloc; " {local} {at}")
}

fn decl_field(alloc: Global, decl: &Decl) -> Result<String, AllocError>
    ensures { IfOk result (λ text. string_bytes text ≡ refusals.spaced
        (decls.decl_text (decl_of decl.now) ∷ [])) }
{
    let decl = decl_text(alloc, decl)?;
    let decl = decl.as_str();
    format!(in alloc; " {decl}")
}

fn class_and_method(
    alloc: Global,
    class: &ClassKey,
    method: &MethodKey,
) -> Result<String, AllocError>
    ensures { IfOk result (λ text. string_bytes text ≡ refusals.spaced
        (decls.class_text (class_key_of class.now)
        ∷ decls.method_text (method_key_of method.now) ∷ [])) }
{
    let class = class_text(alloc, class)?;
    let method = method_text(alloc, method)?;
    format!(in alloc; " {class} {method}")
}

fn binding_fields(
    alloc: Global,
    files: &[Name],
    reference: Place,
    declaration: &Decl,
    found: &Found,
) -> Result<String, AllocError>
    requires { reference.file < length files.now }
    ensures { IfOk result (λ text. string_bytes text ≡ refusals.spaced
        (texts.place_text files.now reference
        ∷ decls.decl_text (decl_of declaration.now)
        ∷ codes "found"
        ∷ texts.found_text (found_of found.now) ∷ [])) }
{
    let reference = place_text(alloc, files, reference)?;
    let declaration = decl_text(alloc, declaration)?;
    let declaration = declaration.as_str();
    let found = found_text(alloc, found)?;
    format!(in alloc; " {reference} {declaration} found {found}")
}

fn dependence_fields(
    alloc: Global,
    files: &[Name],
    kind: DepKind,
    first: &SiteAt,
    second: &SiteAt,
) -> Result<String, AllocError>
    requires first { first.now.place.file < length files.now }
    requires second { second.now.place.file < length files.now }
    ensures { IfOk result (λ text. string_bytes text ≡ refusals.spaced
        (kinds.kind_name kind
        ∷ texts.site_at_text files.now (site_at_of first.now)
        ∷ codes "before"
        ∷ texts.site_at_text files.now (site_at_of second.now) ∷ [])) }
{
    let kind = kind_name(kind);
    let first = site_at_text(alloc, files, first)?;
    let second = site_at_text(alloc, files, second)?;
    format!(in alloc; " {kind} {first} before {second}")
}

fn two_numbers(alloc: Global, from: u32, to: u32) -> Result<String, AllocError>
    ensures { IfOk result (λ text. string_bytes text ≡ refusals.spaced
        (decimal from ∷ decimal to ∷ [])) }
{
    format!(in alloc; " {from} {to}")
}

fn number_field(alloc: Global, number: u64) -> Result<String, AllocError>
    ensures { IfOk result (λ text. string_bytes text ≡ refusals.spaced
        (decimal number ∷ [])) }
{
    format!(in alloc; " {number}")
}

fn member_and_number(alloc: Global, member: &MemberKey, number: u32) -> Result<String, AllocError>
    ensures { IfOk result (λ text. string_bytes text ≡ refusals.spaced
        (decls.member_text (member_key_of member.now) ∷ decimal number ∷ [])) }
{
    let member = member_text(alloc, member)?;
    format!(in alloc; " {member} {number}")
}
