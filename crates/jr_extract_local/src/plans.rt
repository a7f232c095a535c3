//! The plan of extract local.
ghost use Rattle.std.specs.Prelude.{◌≡◌, ◌<◌, IfOk, length, map};
ghost use Rattle.jr_lex.specs.Replacing.{IsName};
ghost use Rattle.jr_members.specs.PartView.{written_of};
ghost use Rattle.jr_names.specs.ReplyView.{outcome_of};
ghost use Rattle.jr_local_finds.specs.Chosen.{members_of};
ghost use Rattle.jr_local_finds.specs.Extracts.{IsFound};
ghost use Rattle.jr_local_finds.specs.ValueView.{chosen_of};
ghost use Rattle.jr_extract_lists.specs.Targets.{IsTarget};
ghost use Rattle.jr_extract_lists.specs.Walked as walked;
ghost use Rattle.jr_extract_local.specs.Plans.{AnswersFound, Plans};

use crate::moves::lost_dependence;
use jr_ast::Name;
use jr_bind::View;
use jr_extract_lists::{
    ListOutput, Request, StatementPlace, Target, find_statement, list_output, piece_output,
    target_of, written_at,
};
use jr_local_finds::{ExtractFound, SelectedValue, extract_found};
use jr_local_parts::{edits_in, first_lost, lost_binding};
use jr_members::{WrittenMember, written_members};
use jr_names::{EditLists, Outcome, Renaming};
use jr_new_bodies::Output;
use jr_rewrite::Change;
use jr_text::Span;
use jr_untouched_parts::{extracts_are_in_order, extracts_are_whole};
use std::alloc::{AllocError, Global};

/// The value, behind which the other is let go. A function that lets it go itself, and knows both
/// types, is proved by their variants.
fn kept<T, G: Drop>(value: T, gone: G) -> T
    ensures { result ≡ value }
{
    drop(gone);
    value
}

/// How many references are respelled. There are never more than a number counts.
fn count_of(respelled: u64) -> Result<u32, AllocError>
    ensures { IfOk result (λ n. n ≡ respelled) }
{
    match u32::try_from(respelled) {
        Err(_) => Err(AllocError),
        Ok(count) => Ok(count),
    }
}

/// Where no reference is lost: the edits of the one file, no declaration that becomes another, and
/// the dependence that would be lost.
fn planned<V: View<Span>>(
    alloc: Global,
    view: &V,
    of: &Target<'_>,
    at: &StatementPlace,
    changes: &[Change],
    respelled: u64,
) -> Result<Outcome, AllocError>
    requires name { IsName of.now.request.name.now }
    requires list { walked.IsOfList (V.program view.now) of.now at.now changes.now respelled }
    ensures { IfOk result (λ o. AnswersFound (V.program view.now) of.now (outcome_of o)) }
{
    extracts_are_whole();
    extracts_are_in_order();
    let respelled = count_of(respelled)?;
    let edits = edits_in(alloc, view.file_count(), of.request.file, changes)?;
    let lost = lost_dependence(alloc, view.table(), of, at)?;
    Ok(Outcome::Planned {
        edits: EditLists::from_vec(edits),
        renaming: Renaming::from_vec(Vec::new(alloc)),
        respelled,
        lost,
    })
}

/// What is answered where the list becomes this (16).
fn of_list<V: View<Span>>(
    alloc: Global,
    view: &V,
    of: &Target<'_>,
    at: &StatementPlace,
    listed: ListOutput,
) -> Result<Outcome, AllocError>
    requires name { IsName of.now.request.name.now }
    requires list { walked.IsListOf (V.program view.now) of.now at.now listed }
    ensures { IfOk result (λ o. AnswersFound (V.program view.now) of.now (outcome_of o)) }
{
    extracts_are_whole();
    let ListOutput { out, lost } = listed;
    let Output {
        changes,
        respelled,
        losses,
    } = out;
    match first_lost(losses, lost) {
        Some(lost) => {
            drop(changes);
            Ok(lost_binding(of.request.file, lost))
        }
        None => {
            let outcome = planned(alloc, view, of, at, changes.as_slice(), respelled);
            kept(outcome, changes)
        }
    }
}

/// What is answered where the expression is known (16, and what is planned).
fn of_target<V: View<Span>>(alloc: Global, view: &V, of: &Target<'_>) -> Result<Outcome, AllocError>
    requires name { IsName of.now.request.name.now }
    requires target { IsTarget (V.program view.now) of.now }
    ensures { IfOk result (λ o. AnswersFound (V.program view.now) of.now (outcome_of o)) }
{
    let at = find_statement(alloc, of)?;
    let piece = piece_output(alloc, of, &at)?;
    let listed = list_output(alloc, of, &at, piece)?;
    of_list(alloc, view, of, &at, listed)
}

/// What is answered where the expression is found.
fn of_selected<'a, V: View<Span>>(
    alloc: Global,
    view: &'a V,
    members: &[WrittenMember<'a, Span>],
    request: Request<'a>,
    selected: &'a SelectedValue<'a>,
    number: u32,
) -> Result<Outcome, AllocError>
    requires members { map written_of members.now ≡ members_of (V.program view.now) }
    requires file { request.file < length (V.program view.now).files }
    requires name { IsName request.name.now }
    requires found { IsFound (V.program view.now) request.file request.from request.to
        request.name.now (chosen_of selected.now) number }
    ensures { IfOk result (λ o. Plans (V.program view.now) request.entry.file request.entry.from
        request.entry.to request.entry.name.now (outcome_of o)) }
{
    let written = written_at(members, selected.member);
    let target = target_of(view, written, request, selected, number);
    of_target(alloc, view, &target)
}

/// The written members of the program.
fn all_members<'a, V: View<Span>>(
    alloc: Global,
    view: &'a V,
) -> Result<Vec<WrittenMember<'a, Span>>, AllocError>
    ensures { IfOk result (λ v. map written_of v.items ≡ members_of (V.program view.now)) }
{
    view.keeps_program();
    written_members(alloc, view.table(), view.units())
}

/// What is answered, by the written members of the program (5, 7, 14, and what comes of what is
/// found).
fn plan_among<V: View<Span>>(
    alloc: Global,
    view: &V,
    members: &[WrittenMember<'_, Span>],
    request: Request<'_>,
) -> Result<Outcome, AllocError>
    requires members { map written_of members.now ≡ members_of (V.program view.now) }
    requires file { request.file < length (V.program view.now).files }
    requires name { IsName request.name.now }
    ensures { IfOk result (λ o. Plans (V.program view.now) request.entry.file request.entry.from
        request.entry.to request.entry.name.now (outcome_of o)) }
{
    let found = extract_found(
        alloc,
        view,
        members,
        request.file,
        request.from,
        request.to,
        request.name,
    )?;
    match found {
        ExtractFound::Refused(refusal) => Ok(Outcome::Refused(refusal)),
        ExtractFound::Found(selected, number) => {
            let outcome = of_selected(alloc, view, members, request, &selected, number);
            kept(outcome, selected)
        }
    }
}

/// What extracting a local does (JLS 14.4, 15.7, 17.4): the expression that has exactly the span
/// from the byte `from` up to and without the byte `to` of the file becomes the initializer of a
/// local of the name, which is declared in front of the nearest element of a statement list that
/// holds the expression, with the expression's type; the name takes the expression's place.
/// Answered are the edits of each file, of which one has any; no declaration that becomes another;
/// how many references are spelled otherwise; and the pair of sites that would change places, if
/// there is one.
///
/// Or why it is refused, by the first that applies: no such expression is there (5 `BadTarget`,
/// `Value`), a construct of its statement may leave it out or evaluate it again (7 `Conditional`),
/// a local or parameter has the name there (14 `Clash`), a reference, or the type's class, has no
/// spelling (16 `LostBinding`). Dispatch never changes (15). Places in refusals and pairs are bytes
/// of the file's old text. What the new text is, how long and whether it compiles (20, 17), and
/// that a pair refuses the step (18), is the session's to say. The only fault is want of memory.
pub fn plan_at<V: View<Span>>(
    alloc: Global,
    view: &V,
    file: u32,
    from: u32,
    to: u32,
    name: &Name,
) -> Result<Outcome, AllocError>
    requires file { file < length (V.program view.now).files }
    requires name { IsName name.now }
    ensures { IfOk result (λ o. Plans (V.program view.now) file from to name.now (outcome_of o)) }
{
    let members = all_members(alloc, view)?;
    let request = Request {
        file,
        from,
        to,
        name,
    };
    let outcome = plan_among(alloc, view, members.as_slice(), request);
    kept(outcome, members)
}
