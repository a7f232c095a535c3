//! Written members are bound, by what was bound of earlier ones where that is given.
ghost use Rattle.std.specs.Prelude.{◌≡◌, ◌+◌, ◌≤◌, length, map, IfOk, None};
ghost use Rattle.jr_members.specs.PartView.{written_of};
ghost use Rattle.jr_program.specs.Members.{EachOf, CanBind, AreKnown, AreEachBound};
ghost use Rattle.jr_program.specs.Members.{AreInFileOrder, AreWrittenInOrder};
ghost use Rattle.jr_cache.specs.Rebinding.{IsRebinding};
ghost use Rattle.jr_sources.specs.Earlier.{CanRebind};
ghost use Rattle.jr_sources.specs.HadBack.{HasBack, CanHaveBack};

use crate::analyses::{EarlierAnalysis, FormerAnalysis};
use jr_cache::{ChangedProgram, rebind_members};
use jr_members::WrittenMember;
use jr_program::{MemberBound, Tokens, bind_members};
use jr_steps::Steps;
use jr_table::Table;
use jr_text::Span;
use std::alloc::{AllocError, Global};
use std::sync::ledger::Ledger;

/// Lets a table go. A call of this costs less than to let it go in each place, and an unused
/// parameter less than `drop`.
pub(crate) fn forget_table(_table: Table) {}

// What binding knows of written members, by what it knew of those of earlier sources; and what
// gives that back.
fn bind_by<L: Ledger>(
    alloc: Global,
    table: &Table,
    tokens: &[Tokens],
    written: &[WrittenMember<'_, Span>],
    earlier: EarlierAnalysis,
    steps: &mut Steps<L>,
) -> Result<(Vec<MemberBound>, Option<FormerAnalysis>), AllocError>
    requires each { EachOf (CanBind table.now tokens.now) (map written_of written.now) }
    requires earlier { IsRebinding earlier.analysis.table table.now tokens.now
        (map written_of written.now) earlier.stays.items earlier.analysis.members.items }
    ensures known { IfOk result (λ made.
        AreKnown table.now tokens.now (map written_of written.now) made.0.items) }
    ensures each { IfOk result (λ made.
        AreEachBound table.now tokens.now (map written_of written.now) made.0.items) }
    ensures order { IfOk result (λ made. AreWrittenInOrder (map written_of written.now)
        → AreInFileOrder made.0.items) }
    ensures back { IfOk result (λ made. HasBack earlier table.now made.0.items made.1) }
    ensures least { steps.old ≤ steps.new }
    ensures most { steps.new ≤ steps.old + length written.now }
{
    let parts = earlier.parts();
    let (before, members, stays) = parts;
    let program = &ChangedProgram {
        table,
        tokens,
        written,
        before: &before,
        stays: stays.as_slice(),
    };
    match rebind_members(alloc, program, members, steps) {
        Ok(made) => {
            let (bounds, members) = made;
            let former = FormerAnalysis {
                table: Some(before),
                members,
                stays,
            };
            Ok((bounds, Some(former)))
        }
        Err(error) => {
            forget_table(before);
            Err(error)
        }
    }
}

// The same by themselves.
fn bind_alone<L: Ledger>(
    alloc: Global,
    table: &Table,
    tokens: &[Tokens],
    written: &[WrittenMember<'_, Span>],
    steps: &mut Steps<L>,
) -> Result<(Vec<MemberBound>, Option<FormerAnalysis>), AllocError>
    requires { EachOf (CanBind table.now tokens.now) (map written_of written.now) }
    ensures known { IfOk result (λ made.
        AreKnown table.now tokens.now (map written_of written.now) made.0.items) }
    ensures each { IfOk result (λ made.
        AreEachBound table.now tokens.now (map written_of written.now) made.0.items) }
    ensures order { IfOk result (λ made. AreWrittenInOrder (map written_of written.now)
        → AreInFileOrder made.0.items) }
    ensures nothing { IfOk result (λ made. made.1 ≡ None) }
    ensures least { steps.old ≤ steps.new }
    ensures most { steps.new ≤ steps.old + length written.now }
{
    match bind_members(alloc, table, tokens, written, steps) {
        Ok(bounds) => Ok((bounds, None)),
        Err(error) => Err(error),
    }
}

/// What binding knows of written members, by what it knew of those of earlier sources, if that is
/// given, which is taken then; and what gives that back.
pub(crate) fn bind_written<L: Ledger>(
    alloc: Global,
    table: &Table,
    tokens: &[Tokens],
    written: &[WrittenMember<'_, Span>],
    earlier: &mut Option<EarlierAnalysis>,
    steps: &mut Steps<L>,
) -> Result<(Vec<MemberBound>, Option<FormerAnalysis>), AllocError>
    requires each { EachOf (CanBind table.now tokens.now) (map written_of written.now) }
    requires earlier { CanRebind table.now tokens.now (map written_of written.now) earlier.old }
    ensures known { IfOk result (λ made.
        AreKnown table.now tokens.now (map written_of written.now) made.0.items) }
    ensures each { IfOk result (λ made.
        AreEachBound table.now tokens.now (map written_of written.now) made.0.items) }
    ensures order { IfOk result (λ made. AreWrittenInOrder (map written_of written.now)
        → AreInFileOrder made.0.items) }
    ensures back { IfOk result (λ made.
        CanHaveBack earlier.old table.now made.0.items made.1) }
    ensures least { steps.old ≤ steps.new }
    ensures most { steps.new ≤ steps.old + length written.now }
{
    match earlier.take() {
        None => bind_alone(alloc, table, tokens, written, steps),
        Some(earlier) => bind_by(alloc, table, tokens, written, earlier, steps),
    }
}
