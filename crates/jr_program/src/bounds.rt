//! What binding knows of the members of a program.
ghost use Rattle.std.specs.Prelude.{◌≡◌, ◌≤◌, ◌+◌, ◌==◌, ℕ, map, filter, length};
ghost use Rattle.std.specs.Prelude.{IfOk, OnOk, MatchOption};
ghost use Rattle.jr_ast.specs.View.{member_of, class_of, args_of};
ghost use Rattle.jr_ast.specs.Marks.{class_mark, member_mark};
ghost use Rattle.jr_table.specs.Errors.{part_mark};
ghost use Rattle.jr_members.specs.PartView.{part_of, written_of};
ghost use Rattle.jr_program_laws.specs.FileParts.{begins};
ghost use Rattle.jr_program.specs.Members.{IsSuperPlace, IsMemberPlace, IsArgsPlace};
ghost use Rattle.jr_program.specs.Members.{AreKnown, CanBind, EachOf};
ghost use Rattle.jr_program.specs.Members.{AreInFileOrder, AreWrittenInOrder};
ghost use Rattle.jr_program.specs.Members.{AreEachBound, IsMemberBound};
ghost use Rattle.jr_program.specs.Binding.{CanBindAt, AddsMember};

use crate::tokens::Tokens;
use jr_ast::{Class, Expr, Member, MemberKind};
use jr_bind::{Bound, bind};
use jr_members::{PartRef, WrittenMember};
use jr_steps::Steps;
use jr_table::Table;
use jr_text::Span;
use std::alloc::{AllocError, Global};
use std::sync::ledger::Ledger;

/// What binding knows of a member, the number of its file, its first byte, and the byte where the
/// word of its written `super(..)` stands; 0 where it has none.
#[derive(Drop)]
pub struct MemberBound {
    pub file: u32,
    pub start: u32,
    pub super_at: u32,
    pub bound: Bound,
}

// Where the word of a written `super(..)` stands; 0 where there is none.
fn args_place(tokens: &Tokens, span: Span, args: &Option<Vec<Expr<Span>>>) -> Option<u32>
    ensures { MatchOption result ((at : ℕ) → IsArgsPlace tokens.now span (args_of args.now) at → ⊥)
        (IsArgsPlace tokens.now span (args_of args.now)) }
{
    match args {
        None => Some(0),
        Some(_) => tokens.super_in(span),
    }
}

#[tactic(auto, unfolding(jr_ast::specs::View::member_kind))]
fn member_place(tokens: &Tokens, member: &Member<Span>) -> Option<u32>
    ensures { MatchOption result ((at : ℕ) → IsMemberPlace tokens.now (member_of member.now) at → ⊥)
        (IsMemberPlace tokens.now (member_of member.now)) }
{
    match &member.kind {
        MemberKind::Ctor { parent_args, .. } => args_place(tokens, member.mark, parent_args),
        MemberKind::Field { .. } => Some(0),
        MemberKind::Method { .. } => Some(0),
        MemberKind::Inner(_) => Some(0),
    }
}

fn super_place(tokens: &Tokens, part: &PartRef<'_, Span>) -> Option<u32>
    ensures { MatchOption result ((at : ℕ) → IsSuperPlace tokens.now (part_of part.now) at → ⊥)
        (IsSuperPlace tokens.now (part_of part.now)) }
{
    match part {
        PartRef::Head(_) => Some(0),
        PartRef::Member(member) => member_place(tokens, member),
    }
}

fn class_byte(class: &Class<Span>) -> u32
    ensures { result ≡ (class_mark (class_of class.now)).from }
{
    class.mark.from
}

#[tactic(auto, unfolding(jr_ast::specs::View::member_kind))]
fn member_byte(member: &Member<Span>) -> u32
    ensures { result ≡ (member_mark (member_of member.now)).from }
{
    match &member.kind {
        MemberKind::Field { .. } => member.mark.from,
        MemberKind::Method { .. } => member.mark.from,
        MemberKind::Ctor { .. } => member.mark.from,
        MemberKind::Inner(_) => member.mark.from,
    }
}

/// The first byte of a part whose marks are spans.
pub fn first_byte(part: &PartRef<'_, Span>) -> u32
    ensures { result ≡ (part_mark (part_of part.now)).from }
{
    match part {
        PartRef::Head(class) => class_byte(class),
        PartRef::Member(member) => member_byte(member),
    }
}

// What binding knows of one member, whose written `super(..)` stands at `super_at`.
fn bind_one<L: Ledger>(
    alloc: Global,
    table: &Table,
    written: &WrittenMember<'_, Span>,
    super_at: u32,
    steps: &mut Steps<L>,
) -> Result<MemberBound, AllocError>
    requires { CanBindAt table.now super_at (written_of written.now) }
    ensures bound { IfOk result (IsMemberBound table.now super_at (written_of written.now)) }
    ensures place { IfOk result (λ b. b.super_at ≡ super_at) }
    ensures step { steps.new ≡ steps.old + 1 }
{
    let bound = bind(alloc, table, written, super_at, steps)?;
    Ok(MemberBound {
        file: written.file,
        start: first_byte(&written.part),
        super_at,
        bound,
    })
}

// Puts what binding knows of one more member behind the others.
fn push_bound<L: Ledger>(
    alloc: Global,
    table: &Table,
    tokens: &[Tokens],
    written: &WrittenMember<'_, Span>,
    bounds: &mut Vec<MemberBound>,
    steps: &mut Steps<L>,
) -> Result<(), AllocError>
    requires { CanBind table.now tokens.now (written_of written.now) }
    ensures known { OnOk result (AddsMember table.now tokens.now (written_of written.now)
        bounds.old.items bounds.new.items) }
    ensures least { steps.old ≤ steps.new }
    ensures most { steps.new ≤ steps.old + 1 }
{
    match super_place(&tokens[written.file as usize], &written.part) {
        None => Ok(()),
        Some(super_at) => {
            let bound = bind_one(alloc, table, written, super_at, steps)?;
            bounds.push(bound)?;
            Ok(())
        }
    }
}

/// What binding knows of written members, in their order. `tokens` has those of each file, by its
/// number. Each member counts one step at most.
pub fn bind_members<L: Ledger>(
    alloc: Global,
    table: &Table,
    tokens: &[Tokens],
    written: &[WrittenMember<'_, Span>],
    steps: &mut Steps<L>,
) -> Result<Vec<MemberBound>, AllocError>
    requires { EachOf (CanBind table.now tokens.now) (map written_of written.now) }
    ensures known { IfOk result (λ bounds.
        AreKnown table.now tokens.now (map written_of written.now) bounds.items) }
    // One each, in the same order.
    ensures each { IfOk result (λ bounds.
        AreEachBound table.now tokens.now (map written_of written.now) bounds.items) }
    ensures order { IfOk result (λ bounds. AreWrittenInOrder (map written_of written.now)
        → AreInFileOrder bounds.items) }
    ensures least { steps.old ≤ steps.new }
    ensures most { steps.new ≤ steps.old + length written.now }
{
    let mut bounds = Vec::with_capacity(alloc, written.len())?;
    for member in written {
        push_bound(alloc, table, tokens, member, &mut bounds, steps)?;
    }
    Ok(bounds)
}

/// Those of the file of the number, which stand together. They are found by halves.
pub fn members_of_file(members: &[MemberBound], file: u32) -> &[MemberBound]
    requires { AreInFileOrder members.now }
    ensures { result.now ≡ filter (λ b. b.file == file) members.now }
{
    let first = members.partition_point(|member| member.file < file);
    let rest = &members[first..];
    let count = rest.partition_point(|member| member.file <= file);
    &rest[..count]
}
