//! Members are bound anew, and some keep what was bound of them.
ghost use Rattle.std.specs.Prelude.{◌≡◌, ◌≤◌, ◌<◌, ◌+◌, IfOk, OnOk, length, map};
ghost use Rattle.jr_cache.specs.HadBack.{bounds_before, with_replaced};
ghost use Rattle.jr_members.specs.PartView.{written_of};
ghost use Rattle.jr_program.specs.Members.{CanBind};
ghost use Rattle.jr_mentions.specs.Apart.{AreApart};
ghost use Rattle.jr_mentions.specs.ApartView.{names_in};
ghost use Rattle.jr_cache.specs.ChangedPrograms.{CanBindEach, ComesOf, AreBoundOf};
ghost use Rattle.jr_cache.specs.ChangedPrograms.{AreKnownOf, AreOrderedAsWritten};
ghost use Rattle.jr_cache.specs.RebindSteps.{PutsBound, RebindsOne, AreRebound};

use crate::changed::ChangedProgram;
use crate::former::{Exchange, Former};
use crate::laws::bounds_last;
use crate::sparing::{keeps, same_files};
use jr_members::WrittenMember;
use jr_mentions::{Apart, apart};
use jr_program::{MemberBound, Tokens, bind_members, members_are_known};
use jr_steps::Steps;
use jr_table::Table;
use jr_text::Span;
use std::alloc::{AllocError, Global};
use std::slice;
use std::sync::ledger::Ledger;

/// Puts what is bound of a member in the place of what was.
fn bind_anew<L: Ledger>(
    alloc: Global,
    table: &Table,
    tokens: &[Tokens],
    member: &WrittenMember<'_, Span>,
    number: usize,
    exchange: &mut Exchange,
    steps: &mut Steps<L>,
) -> Result<(), AllocError>
    requires can { CanBind table.now tokens.now (written_of member.now) }
    requires within { number < length exchange.old.bounds.items }
    ensures puts { OnOk result (PutsBound table.now tokens.now (written_of member.now) number
        exchange.old.bounds.items exchange.new.bounds.items) }
    ensures back { OnOk result (with_replaced exchange.new.replaced.items exchange.new.bounds.items
        ≡ with_replaced exchange.old.replaced.items exchange.old.bounds.items) }
    ensures least { steps.old ≤ steps.new }
    ensures most { steps.new ≤ steps.old + 1 }
{
    let mut one = bind_members(alloc, table, tokens, slice::from_ref(member), steps)?;
    match one.pop() {
        None => Ok(()),
        Some(bound) => exchange.put(number, bound),
    }
}

/// Leaves what was bound of a member in its place, where the member keeps it.
fn rebind_one<L: Ledger>(
    alloc: Global,
    program: &ChangedProgram<'_, '_>,
    names: &Apart<'_>,
    member: &WrittenMember<'_, Span>,
    number: usize,
    exchange: &mut Exchange,
    steps: &mut Steps<L>,
) -> Result<(), AllocError>
    requires can { CanBind program.now.table.now program.now.tokens.now (written_of member.now) }
    requires within { number < length exchange.old.bounds.items }
    ensures rebinds { OnOk result (RebindsOne program.now.table.now program.now.tokens.now
        (names_in names.now) program.now.stays.now (written_of member.now) number
        exchange.old.bounds.items exchange.new.bounds.items) }
    ensures back { OnOk result (with_replaced exchange.new.replaced.items exchange.new.bounds.items
        ≡ with_replaced exchange.old.replaced.items exchange.old.bounds.items) }
    ensures least { steps.old ≤ steps.new }
    ensures most { steps.new ≤ steps.old + 1 }
{
    if keeps(names, program.stays, member, &exchange.bounds[number]) {
        return Ok(());
    }
    bind_anew(
        alloc,
        program.table,
        program.tokens,
        member,
        number,
        exchange,
        steps,
    )
}

/// Goes through the members, and binds those that don't keep what was bound.
fn rebind_each<L: Ledger>(
    alloc: Global,
    program: &ChangedProgram<'_, '_>,
    names: &Apart<'_>,
    exchange: &mut Exchange,
    steps: &mut Steps<L>,
) -> Result<(), AllocError>
    requires can { CanBindEach program.now }
    requires count { length program.now.written.now ≡ length exchange.old.bounds.items }
    ensures rebinds { OnOk result (AreRebound program.now.table.now program.now.tokens.now
        (names_in names.now) program.now.stays.now (map written_of program.now.written.now)
        exchange.old.bounds.items exchange.new.bounds.items) }
    ensures back { OnOk result (with_replaced exchange.new.replaced.items exchange.new.bounds.items
        ≡ with_replaced exchange.old.replaced.items exchange.old.bounds.items) }
    ensures least { steps.old ≤ steps.new }
    ensures most { steps.new ≤ steps.old + length program.now.written.now }
{
    let written = program.written;
    for number in 0..written.len() {
        let member = &written[number];
        rebind_one(alloc, program, names, member, number, exchange, steps)?;
    }
    Ok(())
}

/// All are bound anew.
fn bind_whole<L: Ledger>(
    alloc: Global,
    program: &ChangedProgram<'_, '_>,
    earlier: Vec<MemberBound>,
    steps: &mut Steps<L>,
) -> Result<(Vec<MemberBound>, Former), AllocError>
    requires { CanBindEach program.now }
    ensures each { IfOk result (λ made. AreBoundOf program.now made.0.items) }
    ensures back { IfOk result (λ made. bounds_before made.1 made.0.items ≡ earlier.items) }
    ensures least { steps.old ≤ steps.new }
    ensures most { steps.new ≤ steps.old + length program.now.written.now }
{
    match bind_members(alloc, program.table, program.tokens, program.written, steps) {
        Ok(bounds) => Ok((bounds, Former::Whole(earlier))),
        Err(error) => {
            drop(earlier);
            Err(error)
        }
    }
}

/// Where rows are the same but for some names: what was bound of a member that refers to nothing
/// by them lasts.
fn rebind_apart<L: Ledger>(
    alloc: Global,
    program: &ChangedProgram<'_, '_>,
    names: &Apart<'_>,
    earlier: Vec<MemberBound>,
    steps: &mut Steps<L>,
) -> Result<(Vec<MemberBound>, Former), AllocError>
    requires apart { AreApart (names_in names.now) program.now.before.now program.now.table.now }
    requires can { CanBindEach program.now }
    requires comes { ComesOf program.now earlier.items }
    ensures each { IfOk result (λ made. AreBoundOf program.now made.0.items) }
    ensures back { IfOk result (λ made. bounds_before made.1 made.0.items ≡ earlier.items) }
    ensures least { steps.old ≤ steps.new }
    ensures most { steps.new ≤ steps.old + length program.now.written.now }
{
    if !same_files(program.written, earlier.as_slice()) {
        return bind_whole(alloc, program, earlier, steps);
    }
    bounds_last::<Span>();
    program.before.keeps_rows();
    program.table.keeps_rows();
    let mut exchange = Exchange {
        bounds: earlier,
        replaced: Vec::new(alloc),
    };
    rebind_each(alloc, program, names, &mut exchange, steps)?;
    Ok(exchange.parts())
}

/// One bound each, those that were bound before where they last.
fn rebind<L: Ledger>(
    alloc: Global,
    program: &ChangedProgram<'_, '_>,
    earlier: Vec<MemberBound>,
    steps: &mut Steps<L>,
) -> Result<(Vec<MemberBound>, Former), AllocError>
    requires can { CanBindEach program.now }
    requires comes { ComesOf program.now earlier.items }
    ensures each { IfOk result (λ made. AreBoundOf program.now made.0.items) }
    ensures back { IfOk result (λ made. bounds_before made.1 made.0.items ≡ earlier.items) }
    ensures least { steps.old ≤ steps.new }
    ensures most { steps.new ≤ steps.old + length program.now.written.now }
{
    match apart(program.before, program.table) {
        None => bind_whole(alloc, program, earlier, steps),
        Some(names) => rebind_apart(alloc, program, &names, earlier, steps),
    }
}

/// What binding knows of the members of a program, in their order, and what gives back, with that,
/// what was bound before. `earlier` was bound of the members of the program before. A member of a
/// file that stays keeps what was bound of it, if it refers to nothing by the names in which the
/// programs differ.
///
/// Each member counts one step at most.
pub fn rebind_members<L: Ledger>(
    alloc: Global,
    program: &ChangedProgram<'_, '_>,
    earlier: Vec<MemberBound>,
    steps: &mut Steps<L>,
) -> Result<(Vec<MemberBound>, Former), AllocError>
    requires can { CanBindEach program.now }
    requires comes { ComesOf program.now earlier.items }
    ensures known { IfOk result (λ made. AreKnownOf program.now made.0.items) }
    // One each, in the same order.
    ensures each { IfOk result (λ made. AreBoundOf program.now made.0.items) }
    ensures order { IfOk result (λ made. AreOrderedAsWritten program.now made.0.items) }
    // Nothing of the earlier is lost.
    ensures back { IfOk result (λ made. bounds_before made.1 made.0.items ≡ earlier.items) }
    ensures least { steps.old ≤ steps.new }
    ensures most { steps.new ≤ steps.old + length program.now.written.now }
{
    members_are_known();
    rebind(alloc, program, earlier, steps)
}
