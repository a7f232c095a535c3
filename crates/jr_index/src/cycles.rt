//! Numbers that lie on a cycle: one walk, and each number is passed twice at most.
ghost use Rattle.std.specs.Prelude.{◌≡◌, ◌≢◌, ℕ, ◌+◌, ◌<◌, ◌≤◌, ◌^◌, IfOk, IfSome, length, map};
ghost use Rattle.jr_index.specs.Firsts.{IsFirst};
ghost use Rattle.jr_index.specs.Parents.{AreWithin, Returns};
ghost use Rattle.jr_index.specs.Walked.{Walked};
ghost use Rattle.jr_index.specs.Cycles.{AreMarked, AreOnCycle, is_even};

use std::alloc::{AllocError, Global};

/// Where a walk upwards ended.
#[derive(Clone, Copy)]
struct Ascent {
    /// The number that it met, which wasn't free; none where it came to the top.
    met: Option<usize>,
    /// The least number that it passed.
    least: usize,
}

/// Stamps the free numbers upwards from one.
fn ascend(
    parents: &[Option<u32>],
    from: usize,
    free: usize,
    stamp: usize,
    marks: &mut [usize],
) -> Ascent
    requires from { from < length marks.old }
    requires within { AreWithin parents.now (length marks.old) }
    requires differ { free ≢ stamp }
    requires size { length marks.old ≡ length parents.now }
    ensures within { IfSome result.met (λ c. c < length marks.old) }
    ensures walked { Walked parents.now from free stamp marks.old marks.new
        result.met result.least }
{
    let mut class = from;
    let mut least = from;
    while marks[class] == free {
        marks[class] = stamp;
        least = least.min(class);
        let above = parents[class];
        match above {
            None => return Ascent { met: None, least },
            Some(parent) => class = parent as usize,
        }
    }
    Ascent {
        met: Some(class),
        least,
    }
}

/// The least of the numbers so far and those of the cycle above one, if that is a new cycle.
fn with_cycle_of(
    parents: &[Option<u32>],
    start: usize,
    marks: &mut [usize],
    first: Option<usize>,
) -> Option<usize>
    requires from { start < length marks.old }
    requires within { AreWithin parents.now (length marks.old) }
    requires size { length marks.old ≡ length parents.now }
    requires few { length parents.now < 2 ^ 32 }
    requires marked { AreMarked parents.now start marks.old first }
    ensures size { length marks.new ≡ length marks.old }
    ensures marked { AreMarked parents.now (start + 1) marks.new result }
{
    let visited = 2 * start + 1;
    let walked = ascend(parents, start, 0, visited, marks);
    let Some(met) = walked.met else {
        return first;
    };
    if marks[met] != visited {
        return first;
    }
    let around = ascend(parents, met, visited, visited + 1, marks);
    match first {
        None => Some(around.least),
        Some(first) => Some(first.min(around.least)),
    }
}

/// What is known of cycles once all numbers have been looked at.
#[derive(Drop)]
struct Marks {
    marks: Vec<usize>,
    /// The first number on a cycle.
    first: Option<usize>,
}

/// Marks all numbers.
fn marks_of(alloc: Global, parents: &[Option<u32>]) -> Result<Marks, AllocError>
    requires within { AreWithin parents.now (length parents.now) }
    requires few { length parents.now < 2 ^ 32 }
    ensures size { IfOk result (λ m. length m.marks.items ≡ length parents.now) }
    ensures marked { IfOk result (λ m. (n : ℕ) × (length parents.now ≤ n)
        × AreMarked parents.now n m.marks.items m.first) }
{
    let count = parents.len();
    let mut marks = vec![in alloc; 0; count]?;
    let mut first = None;
    for start in 0..count {
        first = with_cycle_of(parents, start, &mut marks, first);
    }
    Ok(Marks { marks, first })
}

/// The first number from which the way upwards comes back to it.
///
/// A number has the parent that stands at its place, or none.
pub fn first_on_cycle(alloc: Global, parents: &[Option<u32>]) -> Result<Option<usize>, AllocError>
    requires within { AreWithin parents.now (length parents.now) }
    requires few { length parents.now < 2 ^ 32 }
    ensures { IfOk result (λ number.
        IsFirst (Returns parents.now) (length parents.now) number) }
{
    let known = marks_of(alloc, parents)?;
    Ok(known.first)
}

/// Of each mark, whether it is one of a cycle.
fn evens(alloc: Global, marks: &[usize]) -> Result<Vec<bool>, AllocError>
    ensures { IfOk result (λ on. on.items ≡ map is_even marks.now) }
{
    let mut on = Vec::new(alloc);
    for mark in marks {
        on.push(*mark % 2 == 0)?;
    }
    Ok(on)
}

/// Of each number, whether the way upwards from it comes back to it.
///
/// A number has the parent that stands at its place, or none.
pub fn on_cycle(alloc: Global, parents: &[Option<u32>]) -> Result<Vec<bool>, AllocError>
    requires within { AreWithin parents.now (length parents.now) }
    requires few { length parents.now < 2 ^ 32 }
    ensures { IfOk result (λ on. AreOnCycle parents.now on.items) }
{
    let known = marks_of(alloc, parents)?;
    evens(alloc, &known.marks)
}
