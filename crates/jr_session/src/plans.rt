//! A refactoring is planned, over what is analysed.
ghost use Rattle.std.specs.Prelude.{◌<◌, ◌≡◌, IfOk, Some, length};
ghost use Rattle.jr_names.specs.ReplyView.{outcome_of};
ghost use Rattle.jr_sources.specs.Analysed.{CostsBinding, IsAnalysis, IsKeptAnalysis, IsFilled};
ghost use Rattle.jr_sources.specs.BindingErrors.{AreSound};
ghost use Rattle.jr_sources.specs.KeptReadings.{AreReadings};
ghost use Rattle.jr_sources.specs.Sources.{AreSources, texts_of};
ghost use Rattle.jr_sources.specs.WholeView.{whole_of};
ghost use Rattle.jr_rename.specs.declared.afters.After.TheVariants.{Unknown};
ghost use Rattle.jr_session.specs.Requests.{IsGoodName};
ghost use Rattle.jr_session.specs.RequestView.{IsAfterBy, PlansBy, ask_of};
ghost use Rattle.jr_session.specs.TableTells.{PlanTells};
ghost use Rattle.jr_session.specs.Planning.{IsPlannedSo, IsOfOutcome};

use crate::laws::new_tables;
use jr_ast::Name;
use jr_extract_local::plan_at as plan_extract_local;
use jr_names::{DepPair, EditLists, Outcome, Refusal, Renaming};
use jr_rename::{After, plan_at};
use jr_sources::{Analysis, Readings, SourceFault, Sources, Whole, first_error, keep_analysis};
use jr_steps::Steps;
use std::alloc::{AllocError, Global};
use std::sync::ledger::Ledger;

/// What a refactoring is asked for with, beside its file.
#[derive(Clone, Copy, Drop)]
pub(crate) enum Asked<'a> {
    /// What the identifier at this byte names gets the name.
    Rename { at: u32, new: &'a Name },
    /// The expression of exactly these bytes becomes the initializer of a local of the name.
    ExtractLocal { from: u32, to: u32, name: &'a Name },
}

/// A refactoring that is asked for, in the file of this name and number.
#[derive(Clone, Copy, Drop)]
pub(crate) struct RefactoringRequest<'a> {
    pub file: &'a Name,
    pub number: u32,
    pub asked: Asked<'a>,
}

/// What comes of planning a refactoring.
#[derive(Drop)]
pub(crate) enum Planned {
    /// A member breaks a rule: the first.
    Wrong(SourceFault),
    Refused(Refusal),
    /// The edits of each file, how many references are respelled, and the dependence that would be
    /// lost.
    Edits {
        edits: EditLists,
        respelled: u32,
        lost: Option<DepPair>,
    },
}

/// The value, behind which the other is let go. A function that lets it go itself, and knows both
/// types, is proved by their variants.
pub(crate) fn kept<T, G: Drop>(value: T, gone: G) -> T
    ensures { result ≡ value }
{
    drop(gone);
    value
}

// What a session has no use for.
fn forget(renaming: Renaming) {
    drop(renaming);
}

// What an outcome says.
fn of_outcome(outcome: Outcome) -> Planned
    ensures { IsOfOutcome (outcome_of outcome) result }
{
    match outcome {
        Outcome::Refused(refusal) => Planned::Refused(refusal),
        Outcome::Planned {
            edits,
            renaming,
            respelled,
            lost,
        } => {
            forget(renaming);
            Planned::Edits {
                edits,
                respelled,
                lost,
            }
        }
    }
}

// The plan by what is asked. To `after` goes the table of the new program, where one is made.
fn plan_asked(
    alloc: Global,
    whole: &Whole<'_>,
    request: &RefactoringRequest<'_>,
    after: &mut After,
) -> Result<Outcome, AllocError>
    requires file { request.now.number < length (whole_of whole.now).files }
    requires name { IsGoodName (ask_of request.now).name }
    requires blank { after.old ≡ Unknown }
    ensures plan { IfOk result (λ o. PlansBy (whole_of whole.now) request.now.number
        request.now.asked (outcome_of o)) }
    ensures after { IfOk result (λ o. IsAfterBy (whole_of whole.now) request.now.number
        request.now.asked (outcome_of o) after.new) }
{
    let number = request.number;
    match request.asked {
        Asked::Rename { at, new } => plan_at(alloc, whole, number, at, new, after),
        Asked::ExtractLocal { from, to, name } => {
            plan_extract_local(alloc, whole, number, from, to, name)
        }
    }
}

// The plan over analysed sources of which no member breaks a rule. To `after` goes the table of the
// new program, where one is made.
fn sound(
    alloc: Global,
    sources: &Sources,
    readings: &Readings,
    analysis: &Analysis,
    request: &RefactoringRequest<'_>,
    after: &mut After,
) -> Result<Planned, AllocError>
    requires readings { AreReadings (texts_of sources.now) readings.now }
    requires analysis { IsAnalysis sources.now analysis.now }
    requires sound { AreSound sources.now }
    requires number { request.now.number < length sources.now }
    requires name { IsGoodName (ask_of request.now).name }
    requires blank { after.old ≡ Unknown }
    ensures planned { IfOk result
        (IsPlannedSo sources.now (ask_of request.now) request.now.number) }
    ensures told { IfOk result (λ planned.
        PlanTells sources.now (Some analysis.now) planned after.new) }
{
    new_tables();
    let whole = Whole::new(sources, readings, analysis);
    let planned = plan_asked(alloc, &whole, request, after);
    let outcome = kept(planned, whole)?;
    Ok(of_outcome(outcome))
}

// What a refactoring does to analysed sources.
fn plan_analysed(
    alloc: Global,
    sources: &Sources,
    readings: &Readings,
    kept: &Option<Analysis>,
    request: &RefactoringRequest<'_>,
    after: &mut After,
) -> Result<Planned, AllocError>
    requires readings { AreReadings (texts_of sources.now) readings.now }
    requires kept { IsKeptAnalysis sources.now kept.now }
    requires filled { IsFilled kept.now }
    requires number { request.now.number < length sources.now }
    requires name { IsGoodName (ask_of request.now).name }
    requires blank { after.old ≡ Unknown }
    ensures planned { IfOk result
        (IsPlannedSo sources.now (ask_of request.now) request.now.number) }
    ensures told { IfOk result (λ planned. PlanTells sources.now kept.now planned after.new) }
{
    match kept {
        None => unreachable!(),
        Some(analysis) => match first_error(sources, analysis) {
            Some(fault) => Ok(Planned::Wrong(fault)),
            None => sound(alloc, sources, readings, analysis, request, after),
        },
    }
}

/// What a refactoring does to sources, which are analysed first, if they aren't yet. To `after`
/// goes the table of the new program, where one is made.
pub(crate) fn plan_refactoring<L: Ledger>(
    alloc: Global,
    sources: &Sources,
    readings: &Readings,
    kept: &mut Option<Analysis>,
    request: &RefactoringRequest<'_>,
    after: &mut After,
    steps: &mut Steps<L>,
) -> Result<Planned, AllocError>
    requires valid { AreSources sources.now }
    requires readings { AreReadings (texts_of sources.now) readings.now }
    requires kept { IsKeptAnalysis sources.now kept.old }
    requires number { request.now.number < length sources.now }
    requires name { IsGoodName (ask_of request.now).name }
    requires blank { after.old ≡ Unknown }
    ensures kept { IsKeptAnalysis sources.now kept.new }
    ensures planned { IfOk result
        (IsPlannedSo sources.now (ask_of request.now) request.now.number) }
    ensures told { IfOk result (λ planned. PlanTells sources.now kept.new planned after.new) }
    ensures cost { CostsBinding sources.now steps.old steps.new }
{
    let found = keep_analysis(alloc, sources, readings, kept, steps)?;
    match found {
        Some(fault) => Ok(Planned::Wrong(fault)),
        None => plan_analysed(alloc, sources, readings, kept, request, after),
    }
}
