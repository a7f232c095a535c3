//! What inline local finds, or why it is refused there.
ghost use Rattle.std.specs.Prelude.{◌≡◌, ◌<◌, IfOk, MatchOption, codes, length, map, option_map};
ghost use Rattle.jr_table.specs.KeyView.{local_key_of};
ghost use Rattle.jr_members.specs.PartView.{written_of};
ghost use Rattle.jr_names.specs.Needs.{need_name};
ghost use Rattle.jr_names.specs.Refusals as refusals;
ghost use Rattle.jr_names.specs.RefusalView.{refusal_of};
ghost use Rattle.jr_local_search.specs.NamingView.{naming_of};
ghost use Rattle.jr_local_search.specs.PlaceView.{inline_of};
ghost use Rattle.jr_local_asked.specs.Asking.{HasAsked, LacksAsked};
ghost use Rattle.jr_local_asked.specs.AskedView.{asked_of};
ghost use Rattle.jr_local_asked.specs.Declaring.{members_of};
ghost use Rattle.jr_local_uses.specs.Inlines as pure;
ghost use Rattle.jr_local_uses.specs.InlineView.{inlined_of, uses_of as seen};

use crate::namings::{declaration_head, local_namings, written_at};
use crate::plain::{member_in, reads_alone};
use jr_ast::Name;
use jr_bind::View;
use jr_local_asked::{AskedLocal, asked_local};
use jr_local_search::{InlinePlace, Naming, inline_place};
use jr_members::WrittenMember;
use jr_names::{Need, Refusal};
use jr_table::LocalKey;
use jr_text::{Place, Span};
use std::alloc::{AllocError, Global};

/// What inline local finds: the local, and where it is named behind its declaration; or why it is
/// refused.
#[derive(Drop)]
pub enum InlineFound<'a> {
    Refused(Refusal),
    Found(AskedLocal<'a>, Vec<Naming>),
}

/// Where a local is named, and what stands against inline local there.
#[derive(Drop)]
struct Uses {
    namings: Vec<Naming>,
    place: InlinePlace,
}

/// Something else is needed at the byte.
fn needs(alloc: Global, file: u32, at: u32, need: Need) -> Result<Refusal, AllocError>
    ensures { IfOk result (λ r. refusal_of r ≡ refusals.bad_target
        (record { file = file; at = at }) (need_name need)) }
{
    let need = Name::new(alloc, need.name())?;
    Ok(Refusal::BadTarget {
        at: Place { file, at },
        need,
    })
}

/// What is answered of a place that is refused.
fn refusal_at(
    alloc: Global,
    file: u32,
    at: u32,
    key: &LocalKey,
    place: InlinePlace,
) -> Result<Option<Refusal>, AllocError>
    ensures { IfOk result (λ o. option_map refusal_of o
        ≡ pure.refusal_at file at (local_key_of key.now) (inline_of place)) }
{
    match place {
        InlinePlace::UsedOtherwise => Ok(Some(needs(alloc, file, at, Need::OneUse)?)),
        InlinePlace::Barred(at) => Ok(Some(Refusal::Conditional {
            at: Place { file, at },
        })),
        InlinePlace::Returns(span) => Ok(Some(Refusal::HasReturn {
            at: Place {
                file,
                at: span.from,
            },
        })),
        InlinePlace::Assigned(at) => Ok(Some(Refusal::Assigned {
            local: key.copy()?,
            at: Place { file, at },
        })),
        InlinePlace::Free => Ok(None),
    }
}

/// Whether the initializer of the local only reads locals.
fn init_is_plain<V: View<Span>>(
    alloc: Global,
    view: &V,
    members: &[WrittenMember<'_, Span>],
    asked: &AskedLocal<'_>,
) -> Result<bool, AllocError>
    requires members { map written_of members.now ≡ members_of (V.program view.now) }
    requires there { pure.StandsThere (V.program view.now) (asked_of asked.now) }
    ensures { IfOk result (λ q. pure.TellsInit (V.program view.now) (asked_of asked.now) q) }
{
    view.keeps_program();
    match declaration_head(asked.declared.list) {
        None => Ok(true),
        Some(head) => {
            let written = written_at(members, asked.declared.member);
            let member = member_in(&written.part);
            let bound = view.bound(asked.declared.member);
            let table = view.table();
            let code = asked.declared.code;
            let is_plain = reads_alone(alloc, table, bound, member, &code, head.init)?;
            Ok(is_plain)
        }
    }
}

/// What stands against inline local where the local's names are known.
fn place_among(is_plain: bool, asked: &AskedLocal<'_>, namings: &[Naming]) -> InlinePlace
    ensures { pure.IsPlaced is_plain (asked_of asked.now) (map naming_of namings.now)
        (inline_of result) }
{
    match declaration_head(asked.declared.list) {
        None => InlinePlace::Free,
        Some(head) => inline_place(is_plain, head.rest, namings),
    }
}

/// Where the local is named, and what stands against inline local there.
fn uses_of<V: View<Span>>(
    alloc: Global,
    view: &V,
    members: &[WrittenMember<'_, Span>],
    asked: &AskedLocal<'_>,
) -> Result<Uses, AllocError>
    requires members { map written_of members.now ≡ members_of (V.program view.now) }
    requires there { pure.StandsThere (V.program view.now) (asked_of asked.now) }
    ensures { IfOk result (λ u. pure.AreUses (V.program view.now) (asked_of asked.now) (seen u)) }
{
    let is_plain = init_is_plain(alloc, view, members, asked)?;
    let namings = local_namings(alloc, view, members, asked)?;
    let names = namings.as_slice();
    let place = place_among(is_plain, asked, names);
    Ok(Uses { namings, place })
}

/// What is answered of a local and its names.
fn answer<'a>(
    asked: AskedLocal<'a>,
    namings: Vec<Naming>,
    refusal: Option<Refusal>,
) -> InlineFound<'a>
    ensures { inlined_of result ≡ pure.answer (asked_of asked.entry)
        (map naming_of namings.items) (option_map refusal_of refusal) }
{
    match refusal {
        None => InlineFound::Found(asked, namings),
        Some(refusal) => {
            drop(asked);
            drop(namings);
            InlineFound::Refused(refusal)
        }
    }
}

/// What is answered where the local's uses are known.
fn of_uses<'a>(
    alloc: Global,
    file: u32,
    at: u32,
    asked: AskedLocal<'a>,
    uses: Uses,
) -> Result<InlineFound<'a>, AllocError>
    ensures { IfOk result (λ r. inlined_of r
        ≡ pure.of_uses file at (asked_of asked.entry) (seen uses)) }
{
    let Uses { namings, place } = uses;
    match refusal_at(alloc, file, at, &asked.key, place) {
        Err(error) => {
            drop(asked);
            drop(namings);
            Err(error)
        }
        Ok(refusal) => Ok(answer(asked, namings, refusal)),
    }
}

/// What is answered of a local that is asked for.
fn of_asked<'a, V: View<Span>>(
    alloc: Global,
    view: &V,
    members: &[WrittenMember<'a, Span>],
    file: u32,
    at: u32,
    asked: AskedLocal<'a>,
) -> Result<InlineFound<'a>, AllocError>
    requires members { map written_of members.now ≡ members_of (V.program view.now) }
    requires has { HasAsked (V.program view.now) file at (asked_of asked) }
    ensures { IfOk result (λ r. pure.Inlines (V.program view.now) file at (inlined_of r)) }
{
    match uses_of(alloc, view, members, &asked) {
        Err(error) => {
            drop(asked);
            Err(error)
        }
        Ok(uses) => of_uses(alloc, file, at, asked, uses),
    }
}

/// No local that a statement declares is there.
fn no_local<'a>(alloc: Global, file: u32, at: u32) -> Result<InlineFound<'a>, AllocError>
    ensures { IfOk result (λ r. inlined_of r ≡ pure.refused
        (refusals.bad_target (record { file = file; at = at }) (codes "Local"))) }
{
    let refusal = needs(alloc, file, at, Need::Local)?;
    Ok(InlineFound::Refused(refusal))
}

/// What inline local finds at a byte of a file: the local that the identifier there declares or is
/// bound to, which a statement declares, and where it is named behind its declaration. Or why it is
/// refused, by the first that applies: there is no such local (5 `BadTarget`, `Local`); its
/// initializer does more than read locals, and it isn't read just once (5 `OneUse`), a construct
/// may leave the read out or come to it again (7 `Conditional`), or a `return` stands in front of
/// the read (8 `HasReturn`); or the local is assigned behind its declaration (13 `Assigned`).
/// `members` are the written members of the program. The only fault is want of memory.
pub fn inline_found<'a, V: View<Span>>(
    alloc: Global,
    view: &V,
    members: &[WrittenMember<'a, Span>],
    file: u32,
    at: u32,
) -> Result<InlineFound<'a>, AllocError>
    requires file { file < length (V.program view.now).files }
    requires members { map written_of members.now ≡ members_of (V.program view.now) }
    ensures { IfOk result (λ r. pure.Inlines (V.program view.now) file at (inlined_of r)) }
{
    let asked = asked_local(view, members, file, at)?;
    match asked {
        None => no_local(alloc, file, at),
        Some(asked) => of_asked(alloc, view, members, file, at, asked),
    }
}
