ghost use Rattle.std.specs.Prelude.{◌≤◌, ◌++◌, ◌≡◌, length, IfOk, string_bytes};
ghost use Rattle.jr_layout.specs.Layouts.{IsGap, IsClassEnd};

use crate::lines::{indent_at, line_end};
use jr_text::Text;
use std::alloc::{AllocError, Global};

/// What comes between a statement that is put in front of another and that one, and between a
/// member and one that is put behind it, where the other statement or the member begins at the
/// place: a line end and its indent where it is first on its line, else one space.
pub fn gap_at(alloc: Global, text: &Text, at: u32) -> Result<String, AllocError>
    requires { at ≤ length text.now }
    ensures { IfOk result (λ gap. IsGap text.now at (string_bytes gap)) }
{
    match indent_at(text, at) {
        Some(indent) => join(alloc, "", line_end(text).as_str(), text.part(indent)),
        None => String::from_str(alloc, " "),
    }
}

/// What is put in front of the last brace of a class, which stands at the place: four spaces, the
/// member, a line end and the brace's indent where the brace is first on its line, else the member
/// between two spaces.
pub fn class_end(alloc: Global, text: &Text, at: u32, member: &str) -> Result<String, AllocError>
    requires { at ≤ length text.now }
    ensures { IfOk result (λ put. IsClassEnd text.now at member.now (string_bytes put)) }
{
    let gap = gap_at(alloc, text, at)?;
    match indent_at(text, at) {
        Some(_) => join(alloc, "    ", member, gap.as_str()),
        None => join(alloc, " ", member, gap.as_str()),
    }
}

fn join(alloc: Global, one: &str, two: &str, three: &str) -> Result<String, AllocError>
    ensures { IfOk result (λ all. string_bytes all ≡ one.now ++ two.now ++ three.now) }
{
    let mut all = String::from_str(alloc, one)?;
    all.push_str(two)?;
    all.push_str(three)?;
    Ok(all)
}
