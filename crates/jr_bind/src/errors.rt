//! The errors of a member, by place and rule.
ghost use Rattle.std.specs.Prelude.{◌≡◌, ◌++◌, [], ◌∷◌, map, IfOk, if◌then◌else◌};
ghost use Rattle.std.specs.List.Sorted.{IsPermutation, IsNonDecreasingBy};
ghost use Rattle.jr_table.specs.Decls.{MemberKey};
ghost use Rattle.jr_table.specs.Lookup.{shown};
ghost use Rattle.jr_table.specs.Notes.{missing_rule};
ghost use Rattle.jr_table.specs.Notes as notes;
ghost use Rattle.jr_table.specs.ErrorLists as lists;
ghost use Rattle.jr_bind_expr.specs.Findings.{note_of, sought_of};
ghost use Rattle.jr_bind_expr.specs.Logs.{notes_of};
ghost use Rattle.jr_bind.specs.ErrorView.{error_of, found_rule};

use jr_bind_expr::{Finding, Note, Sought, is_nothing};
use jr_table::{Answer, Rule, Table, errors_are_told};
use std::alloc::{AllocError, Global};

/// A rule that a member breaks, at a place counted from the member's first byte.
#[derive(Clone, Copy, PartialEq, Eq, Debug, Drop)]
pub struct BindError {
    pub at: u32,
    pub rule: Rule,
}

/// A number by which errors are in order.
fn order(error: &BindError) -> u64
    ensures { result ≡ lists.order_number (error_of error.now) }
{
    u64::from(error.at) * 32 + error.rule.rank()
}

fn is_same(error: BindError, other: BindError) -> bool
    ensures { result ≡ lists.same_error (error_of error) (error_of other) }
{
    (error.at == other.at) & (error.rule.rank() == other.rule.rank())
}

/// The rule that is broken where nothing is found.
fn missing(sought: Sought) -> Rule
    ensures { result ≡ missing_rule (sought_of sought) }
{
    match sought {
        Sought::Variable => Rule::NoVariable,
        Sought::Type => Rule::NoType,
        Sought::Method => Rule::NoMethod,
    }
}

/// The rule that a reference breaks which finds this.
fn found_rule(table: &Table, sought: Sought, answer: Answer) -> Option<Rule>
    ensures { result ≡ found_rule (sought_of sought) (shown table.now answer) }
{
    if is_nothing(table, answer) {
        return Some(missing(sought));
    }
    match answer {
        Answer::One(_) => None,
        Answer::Nothing => Some(missing(sought)),
        Answer::Many(_, _) => Some(Rule::Ambiguous),
        Answer::NotAccessible(_) => Some(Rule::Private),
        Answer::FromStatic(_) => Some(Rule::StaticContext),
    }
}

/// The rule and the place of an error, counted from `start`, unless it stands before.
fn push_at(start: u32, at: u32, rule: Rule, errors: &mut Vec<BindError>) -> Result<(), AllocError>
    ensures { IfOk result (λ _. map error_of errors.new.items ≡ map error_of errors.old.items
        ++ lists.error_of start (notes.breaks at rule)) }
{
    if at < start {
        return Ok(());
    }
    errors.push(BindError {
        at: at - start,
        rule,
    })?;
    Ok(())
}

/// The error that a reference is, if it is one.
fn push_found(
    table: &Table,
    start: u32,
    at: u32,
    sought: Sought,
    answer: Answer,
    errors: &mut Vec<BindError>,
) -> Result<(), AllocError>
    ensures { IfOk result (λ _. map error_of errors.new.items ≡ map error_of errors.old.items
        ++ lists.error_of start (notes.found_note at (sought_of sought) (shown table.now answer))) }
{
    match found_rule(table, sought, answer) {
        None => Ok(()),
        Some(rule) => push_at(start, at, rule, errors),
    }
}

/// The error that a note tells, if it tells one.
fn push_error(
    table: &Table,
    start: u32,
    note: Note,
    errors: &mut Vec<BindError>,
) -> Result<(), AllocError>
    ensures { (k : MemberKey) → IfOk result (λ _. map error_of errors.new.items
        ≡ map error_of errors.old.items ++ lists.error_of start (note_of table.now k note)) }
{
    match note {
        Note::Finds {
            at,
            sought,
            finding,
        } => match finding {
            Finding::Local(_) => Ok(()),
            Finding::Rows(answer) => push_found(table, start, at, sought, answer, errors),
        },
        Note::Breaks { at, rule } => push_at(start, at, rule, errors),
    }
}

/// The errors of a log, as they stand in it.
fn errors_in(
    alloc: Global,
    table: &Table,
    start: u32,
    log: &[Note],
) -> Result<Vec<BindError>, AllocError>
    ensures { (k : MemberKey) → IfOk result (λ v. map error_of v.items
        ≡ lists.errors_in start (notes_of table.now k log.now)) }
{
    let mut errors = Vec::new(alloc);
    for note in log {
        push_error(table, start, *note, &mut errors)?;
    }
    Ok(errors)
}

/// Puts errors in order.
fn sort(errors: &mut Vec<BindError>) -> Result<(), AllocError>
    ensures all { IfOk result (λ _. IsPermutation errors.old.items errors.new.items) }
    ensures in_order { IfOk result (λ _.
        IsNonDecreasingBy (λ e. lists.order_number (error_of e)) errors.new.items) }
{
    errors.sort_by_key(order)?;
    Ok(())
}

/// The one that is kept behind this one.
fn later(last: BindError, error: BindError) -> BindError
    ensures { result ≡ (if lists.same_error (error_of last) (error_of error) then last else error) }
{
    if is_same(last, error) { last } else { error }
}

/// Puts an error behind others, unless it is the one that comes next.
fn push_other(
    kept: &mut Vec<BindError>,
    last: BindError,
    error: BindError,
) -> Result<(), AllocError>
    ensures { IfOk result (λ _. kept.new.items ≡ kept.old.items
        ++ (if lists.same_error (error_of last) (error_of error) then [] else last ∷ [])) }
{
    if is_same(last, error) {
        return Ok(());
    }
    kept.push(last)?;
    Ok(())
}

/// Each error once, where the first is apart.
fn each_behind(
    alloc: Global,
    first: BindError,
    rest: &[BindError],
) -> Result<Vec<BindError>, AllocError>
    ensures { IfOk result (λ v. map error_of v.items
        ≡ lists.drop_repeats (error_of first) (map error_of rest.now)) }
{
    let mut kept = Vec::new(alloc);
    let mut last = first;
    for error in rest {
        push_other(&mut kept, last, *error)?;
        last = later(last, *error);
    }
    kept.push(last)?;
    Ok(kept)
}

/// Each error once.
fn each_once(alloc: Global, errors: &[BindError]) -> Result<Vec<BindError>, AllocError>
    ensures { IfOk result (λ v. map error_of v.items ≡ lists.each_once (map error_of errors.now)) }
{
    match errors.split_first() {
        None => Ok(Vec::new(alloc)),
        Some((first, rest)) => each_behind(alloc, *first, rest),
    }
}

/// The errors of a log, by place and rule, each once, with places counted from `start`.
pub(crate) fn errors_of_log(
    alloc: Global,
    table: &Table,
    start: u32,
    log: &[Note],
) -> Result<Vec<BindError>, AllocError>
    ensures { (k : MemberKey) → IfOk result (λ v. map error_of v.items
        ≡ lists.errors_of_log start (notes_of table.now k log.now)) }
{
    errors_are_told();
    let mut errors = errors_in(alloc, table, start, log)?;
    sort(&mut errors)?;
    each_once(alloc, errors.as_slice())
}
