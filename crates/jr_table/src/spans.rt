//! Whether one class is below another, by two comparisons.
ghost use Rattle.std.specs.Prelude.{◌≡◌, ◌<◌, ◌≤◌, ◌+◌, ◌^◌, ℕ, Some, None, IsTrue, length};
ghost use Rattle.std.specs.Prelude.{unwrap_or, slice_get};
ghost use Rattle.jr_table.specs.Chains.{parent_of};
ghost use Rattle.jr_table.specs.Spans.{enter_of, exit_of, before_of, Fits, AreNumbered};

use crate::entries::Entry;
use crate::numbered::Numbered;
use std::alloc::{AllocError, Global};

/// When each row was entered and left; nothing, where the numbers failed their test.
#[derive(Drop)]
pub(crate) struct Spans {
    enter: Vec<u32>,
    exit: Vec<u32>,
}

fn number(values: &[u32], at: u32) -> u32
    ensures { result ≡ unwrap_or (slice_get values.now at) 0 }
{
    match values.get(at as usize) {
        None => 0,
        Some(value) => *value,
    }
}

fn parent(entries: &[Entry], at: u32) -> Option<u32>
    ensures { result ≡ parent_of entries.now at }
{
    match entries.get(at as usize) {
        None => None,
        Some(entry) => entry.parent,
    }
}

fn before(numbered: &Numbered, at: u32) -> Option<u32>
    ensures { result ≡ before_of numbered.now at }
{
    match numbered.before.get(at as usize) {
        None => None,
        Some(before) => *before,
    }
}

fn same(left: Option<u32>, right: Option<u32>) -> bool
    ensures { IsTrue result → left ≡ right }
{
    match (left, right) {
        (None, None) => true,
        (None, Some(_)) => false,
        (Some(_), None) => false,
        (Some(left), Some(right)) => left == right,
    }
}

/// Whether a row is the one that was entered at its number.
fn is_placed(numbered: &Numbered, at: u32) -> bool
    ensures { IsTrue result
        → slice_get numbered.now.order.items (enter_of numbered.now at) ≡ Some at }
{
    match numbered.order.get(number(&numbered.enter, at) as usize) {
        None => false,
        Some(row) => *row == at,
    }
}

/// Whether a row is entered behind the one above it, and left before that.
fn is_inside(numbered: &Numbered, at: u32, above: Option<u32>) -> bool
    ensures { IsTrue result → (p : ℕ) → above ≡ Some p
        → (enter_of numbered.now p < enter_of numbered.now at)
        × (exit_of numbered.now at ≤ exit_of numbered.now p) }
{
    match above {
        None => true,
        Some(above) => {
            (number(&numbered.enter, above) < number(&numbered.enter, at))
                & (number(&numbered.exit, at) <= number(&numbered.exit, above))
        }
    }
}

/// Whether a row with none before it is entered first of all that are below the one above.
fn is_first(numbered: &Numbered, at: u32, above: Option<u32>) -> bool
    ensures first { IsTrue result → (p : ℕ) → above ≡ Some p
        → enter_of numbered.now at ≡ enter_of numbered.now p + 1 }
    ensures root { IsTrue result → above ≡ None → enter_of numbered.now at ≡ 0 }
{
    let entered = number(&numbered.enter, at);
    match above {
        None => entered == 0,
        Some(above) => (entered != 0) && (number(&numbered.enter, above) == entered - 1),
    }
}

/// Whether a row is entered where the one before it is left.
fn is_behind(entries: &[Entry], numbered: &Numbered, at: u32, before: u32) -> bool
    ensures { IsTrue result → (before < length entries.now)
        × (parent_of entries.now before ≡ parent_of entries.now at)
        × (exit_of numbered.now before ≡ enter_of numbered.now at) }
{
    if before as usize >= entries.len() {
        return false;
    }
    if !same(parent(entries, before), parent(entries, at)) {
        return false;
    }
    number(&numbered.exit, before) == number(&numbered.enter, at)
}

/// Whether a row follows the one before it, or the one above.
fn follows(entries: &[Entry], numbered: &Numbered, at: u32) -> bool
    ensures first { IsTrue result → before_of numbered.now at ≡ None → (p : ℕ)
        → parent_of entries.now at ≡ Some p
        → enter_of numbered.now at ≡ enter_of numbered.now p + 1 }
    ensures root { IsTrue result → before_of numbered.now at ≡ None
        → parent_of entries.now at ≡ None → enter_of numbered.now at ≡ 0 }
    ensures behind { IsTrue result → (s : ℕ) → before_of numbered.now at ≡ Some s
        → (s < length entries.now) × (parent_of entries.now s ≡ parent_of entries.now at)
        × (exit_of numbered.now s ≡ enter_of numbered.now at) }
{
    match before(numbered, at) {
        None => is_first(numbered, at, parent(entries, at)),
        Some(before) => is_behind(entries, numbered, at, before),
    }
}

fn fits(entries: &[Entry], numbered: &Numbered, at: u32) -> bool
    ensures { IsTrue result → Fits entries.now numbered.now at }
{
    if number(&numbered.enter, at) >= number(&numbered.exit, at) {
        return false;
    }
    if !is_placed(numbered, at) {
        return false;
    }
    if !is_inside(numbered, at, parent(entries, at)) {
        return false;
    }
    follows(entries, numbered, at)
}

/// Tests the numbers of all rows.
fn all_fit(entries: &[Entry], numbered: &Numbered) -> bool
    requires { length entries.now < 2 ^ 32 }
    ensures { IsTrue result → AreNumbered entries.now numbered.now }
{
    if numbered.enter.len() != entries.len() {
        return false;
    }
    if numbered.exit.len() != entries.len() {
        return false;
    }
    for at in 0..entries.len() as u32 {
        if !fits(entries, numbered, at) {
            return false;
        }
    }
    true
}

impl Spans {
    ghost use Rattle.std.specs.Prelude.{◌≡◌, ◌<◌, ◌^◌, ◌↔◌, List, Bool, Some, IsTrue, IfOk, length};
    ghost use Rattle.jr_table.specs.declared.entries.Entry.{Entry};
    ghost use Rattle.jr_table.specs.Chains.{IsAcyclic, IsSubclassAt};
    ghost use Rattle.jr_table.specs.Spans.{AreSpans, ParentsStand};

    /// The spans of the rows.
    pub(crate) fn of_rows(alloc: Global, entries: &[Entry]) -> Result<Spans, AllocError>
        requires few { length entries.now < 2 ^ 32 }
        requires stand { ParentsStand entries.now }
        requires acyclic { IsAcyclic entries.now }
        ensures { IfOk result (AreSpans entries.now) }
    {
        let numbered = Numbered::of_rows(alloc, entries)?;
        if all_fit(entries, &numbered) {
            return Ok(Spans {
                enter: numbered.enter,
                exit: numbered.exit,
            });
        }
        Ok(Spans {
            enter: Vec::new(alloc),
            exit: Vec::new(alloc),
        })
    }

    /// Whether one row's span is within the other's; `None` where they have none.
    pub(crate) fn is_within(&self, sub: u32, sup: u32) -> Option<bool>
        ensures { (rows : List Entry) → AreSpans rows self.now → (b : Bool) → result ≡ Some b
            → IsTrue b ↔ IsSubclassAt rows sub sup }
    {
        let entered = self.enter.get(sub as usize)?;
        let from = self.enter.get(sup as usize)?;
        let to = self.exit.get(sup as usize)?;
        Some((*from <= *entered) & (*entered < *to))
    }
}
