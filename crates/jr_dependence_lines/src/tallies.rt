//! Lines that are counted, or counted and kept.
ghost use Rattle.std.specs.Prelude.{◌≡◌, ◌∷◌, ◌++◌, [], ◌+◌, ℕ, List, false, length};
ghost use Rattle.jr_lines.specs.Lines.{bytes_of};
ghost use Rattle.std.specs.Prelude.{IfOk, IfSome, OnOk, string_bytes};
ghost use Rattle.jr_dependence_lines.specs.Tallies.{Puts, Tallies, text_of};

use jr_ast::Name;
use std::alloc::{AllocError, Global};

/// How many bytes there are with all lines that were counted; and the lines, if it keeps them.
#[derive(Drop)]
pub(crate) struct Tally {
    pub lines: Vec<Name>,
    pub len: u64,
    pub keeps: bool,
}

/// The words of a line: its member, the kind, and the places of the two sites.
#[derive(Clone, Copy, Drop)]
pub(crate) struct Words<'a> {
    pub head: &'a str,
    pub kind: &'a str,
    pub first: &'a str,
    pub second: &'a str,
}

/// No lines, with so many bytes before them.
pub(crate) fn begin(alloc: Global, before: u64, keeps: bool) -> Tally
    ensures { Tallies before keeps result [] }
{
    Tally {
        lines: Vec::new(alloc),
        len: before,
        keeps,
    }
}

// How many bytes there are with those of a line, if they can be counted.
fn with_line(len: u64, words: &Words<'_>) -> Option<u64>
    ensures { IfSome result (λ n. n ≡ len + length (text_of words.now)) }
{
    let len = len.checked_add(words.head.len() as u64)?;
    let len = len.checked_add(words.kind.len() as u64)?;
    let len = len.checked_add(words.first.len() as u64)?;
    let len = len.checked_add(words.second.len() as u64)?;
    len.checked_add(3)
}

fn line_string(alloc: Global, words: &Words<'_>) -> Result<String, AllocError>
    ensures { IfOk result (λ text. string_bytes text ≡ text_of words.now) }
{
    let head = words.head;
    let kind = words.kind;
    let first = words.first;
    let second = words.second;
    format!(in alloc; "{head} {kind} {first} {second}")
}

fn line_name(alloc: Global, words: &Words<'_>) -> Result<Name, AllocError>
    ensures { IfOk result (λ name. name ≡ text_of words.now) }
{
    let text = line_string(alloc, words)?;
    Name::new(alloc, text.as_str())
}

// Keeps a line, behind the others.
fn keep(alloc: Global, lines: &mut Vec<Name>, words: &Words<'_>) -> Result<(), AllocError>
    ensures { OnOk result (lines.new.items ≡ lines.old.items ++ text_of words.now ∷ []) }
{
    let name = line_name(alloc, words)?;
    lines.push(name)?;
    Ok(())
}

/// Counts a line, and keeps it. Where 64 bits don't count the bytes the answer is want of memory.
pub(crate) fn put(alloc: Global, tally: &mut Tally, words: &Words<'_>) -> Result<(), AllocError>
    ensures { OnOk result (Puts tally.old tally.new (text_of words.now ∷ [])) }
{
    let Some(len) = with_line(tally.len, words) else {
        return Err(AllocError);
    };
    keep(alloc, &mut tally.lines, words)?;
    tally.len = len;
    Ok(())
}

/// Counts lines that have so many bytes together, and keeps none. Where 64 bits don't count them
/// the answer is want of memory.
pub(crate) fn count(tally: &mut Tally, bytes: u64) -> Result<(), AllocError>
    requires { tally.old.keeps ≡ false }
    ensures { OnOk result ((texts : List (List ℕ)) → bytes ≡ bytes_of texts
        → Puts tally.old tally.new texts) }
{
    match tally.len.checked_add(bytes) {
        None => Err(AllocError),
        Some(len) => {
            tally.len = len;
            Ok(())
        }
    }
}
