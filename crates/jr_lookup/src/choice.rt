//! The choice among methods or constructors (JLS 15.12.2.1, 15.12.2.2, 15.12.2.5).
ghost use Rattle.std.specs.Prelude.{◌≡◌, ◌∷◌, ◌++◌, [], IfOk, OnOk, filter, if◌then◌else◌};
ghost use Rattle.jr_table.specs.Entries.{entries_of};
ghost use Rattle.jr_table.specs.Access as access;
ghost use Rattle.jr_table.specs.Choice as choice;
ghost use Rattle.jr_table.specs.Calls as calls;

use crate::access::is_accessible;
use jr_table::{Answer, Kind, Table};
use std::alloc::{AllocError, Global};

/// Whether types fit the parameters of a row.
fn takes(table: &Table, kinds: &[Kind], number: u32) -> bool
    ensures { result ≡ calls.fits (entries_of table.now) kinds.now
        (calls.params_at (entries_of table.now) number) }
{
    match table.entry(number) {
        None => table.fit(kinds, &[]),
        Some(entry) => table.fit(kinds, entry.params.as_slice()),
    }
}

/// Whether the parameter types of a row may be assigned to those of another.
#[tactic(auto, unfolding(jr_table::specs::Calls::as_specific))]
fn as_specific(table: &Table, left: u32, right: u32) -> bool
    ensures { result ≡ calls.as_specific (entries_of table.now) left right }
{
    match table.entry(left) {
        None => takes(table, &[], right),
        Some(entry) => takes(table, entry.params.as_slice(), right),
    }
}

/// Puts a number behind the others, if it passes.
fn push_if(numbers: &mut Vec<u32>, number: u32, passes: bool) -> Result<(), AllocError>
    ensures { OnOk result (numbers.new.items
        ≡ numbers.old.items ++ (if passes then number ∷ [] else [])) }
{
    if passes {
        numbers.push(number)?;
    }
    Ok(())
}

/// Those to which the arguments fit.
#[tactic(auto, using(crate::proofs::Keeping::keep_one))]
fn fitting(
    alloc: Global,
    table: &Table,
    args: &[Kind],
    numbers: &[u32],
) -> Result<Vec<u32>, AllocError>
    ensures { IfOk result (λ v.
        v.items ≡ calls.fitting (entries_of table.now) args.now numbers.now) }
{
    let mut kept = Vec::new(alloc);
    let mut rest = numbers;
    loop {
        match rest.split_first() {
            None => return Ok(kept),
            Some((number, others)) => {
                push_if(&mut kept, *number, takes(table, args, *number))?;
                rest = others;
            }
        }
    }
}

/// Those that are accessible at a place of a class.
#[tactic(auto, using(crate::proofs::Keeping::keep_one))]
fn accessible(
    alloc: Global,
    table: &Table,
    place: u32,
    numbers: &[u32],
) -> Result<Vec<u32>, AllocError>
    ensures { IfOk result (λ v.
        v.items ≡ filter (access.is_accessible (entries_of table.now) place) numbers.now) }
{
    let mut kept = Vec::new(alloc);
    let mut rest = numbers;
    loop {
        match rest.split_first() {
            None => return Ok(kept),
            Some((number, others)) => {
                push_if(&mut kept, *number, is_accessible(table, place, *number))?;
                rest = others;
            }
        }
    }
}

/// The more specific of two, the first where neither is.
fn better(table: &Table, best: u32, number: u32) -> u32
    ensures { result ≡ choice.better (calls.as_specific (entries_of table.now)) best number }
{
    if as_specific(table, best, number) {
        best
    } else {
        number
    }
}

/// The one that is left when each in turn is set against the best so far.
fn winner(table: &Table, first: u32, numbers: &[u32]) -> u32
    ensures { result
        ≡ choice.winner (calls.as_specific (entries_of table.now)) first numbers.now }
{
    let mut best = first;
    let mut rest = numbers;
    loop {
        match rest.split_first() {
            None => return best,
            Some((number, others)) => {
                best = better(table, best, *number);
                rest = others;
            }
        }
    }
}

/// Whether one is as specific as every other.
fn is_best(table: &Table, numbers: &[u32], best: u32) -> bool
    ensures { result
        ≡ choice.is_best (calls.as_specific (entries_of table.now)) numbers.now best }
{
    let mut rest = numbers;
    loop {
        match rest.split_first() {
            None => return true,
            Some((number, others)) => {
                if (*number != best) & !as_specific(table, best, *number) {
                    return false;
                }
                rest = others;
            }
        }
    }
}

fn second_of(first: u32, rest: &[u32]) -> u32
    ensures { result ≡ choice.second_of first rest.now }
{
    match rest.first() {
        None => first,
        Some(second) => *second,
    }
}

/// The answer where some are accessible.
fn choose_best(table: &Table, opens: &[u32], first: u32, rest: &[u32]) -> Answer
    requires { opens.now ≡ first ∷ rest.now }
    ensures { result
        ≡ choice.choose_best (calls.as_specific (entries_of table.now)) first rest.now }
{
    let best = winner(table, first, rest);
    if is_best(table, opens, best) {
        Answer::One(best)
    } else {
        Answer::Many(first, second_of(first, rest))
    }
}

/// The answer where there are candidates.
fn choose_open(table: &Table, candidate: u32, opens: &[u32]) -> Answer
    ensures { result
        ≡ choice.choose_open (calls.as_specific (entries_of table.now)) candidate opens.now }
{
    match opens.split_first() {
        None => Answer::NotAccessible(candidate),
        Some((first, rest)) => choose_best(table, opens, *first, rest),
    }
}

fn choose(table: &Table, candidates: &[u32], opens: &[u32]) -> Answer
    ensures { result
        ≡ choice.choose (calls.as_specific (entries_of table.now)) candidates.now opens.now }
{
    match candidates.first() {
        None => Answer::Nothing,
        Some(candidate) => choose_open(table, *candidate, opens),
    }
}

/// What is chosen of these rows at a place of a class, for arguments of these types.
#[tactic(auto, unfolding(jr_table::specs::Calls::choose_at))]
pub(crate) fn choose_at(
    alloc: Global,
    table: &Table,
    place: u32,
    args: &[Kind],
    numbers: &[u32],
) -> Result<Answer, AllocError>
    ensures { IfOk result (λ a.
        a ≡ calls.choose_at (entries_of table.now) place args.now numbers.now) }
{
    let candidates = fitting(alloc, table, args, numbers)?;
    let opens = accessible(alloc, table, place, candidates.as_slice())?;
    Ok(choose(table, candidates.as_slice(), opens.as_slice()))
}
