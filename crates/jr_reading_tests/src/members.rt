//! One member, bound by its key.
ghost use Rattle.std.specs.Prelude.{◌≡◌, ◌+◌, ◌<◌, ℕ, List, IsTrue, IfSome, Contains};
ghost use Rattle.std.specs.Prelude.{length, map};
ghost use Rattle.jr_lex.specs.declared.items.Item as pure;
ghost use Rattle.jr_lex.specs.Lexes.{Lexes};
ghost use Rattle.jr_ast.specs.View.{unit_of, member_of};
ghost use Rattle.jr_punit_laws.specs.Parsing.{IsUnitOf};
ghost use Rattle.jr_build_rows.specs.Heads.{UnitsHeads};
ghost use Rattle.jr_table.specs.Errors.{member_part};
ghost use Rattle.jr_table.specs.ProgramRows.{AreProgramRows};
ghost use Rattle.jr_table.specs.DeclaredItems.{declarations_of};
ghost use Rattle.jr_members.specs.PartView.{part_of};
ghost use Rattle.jr_program_laws.specs.FileParts.{begins, SuperStands};
ghost use Rattle.jr_program_laws.specs.PlaceLaws.{IsFile};

use crate::graphs::put;
use crate::rows::assert_same;
use jr_ast::{Member, MemberKind, Path, Unit};
use jr_bind::{Bound, bind_member};
use jr_build::build;
use jr_lex::{lex, measure};
use jr_members::{PartRef, WrittenMember, members_are_written, written_members};
use jr_names::{decl_text, member_text};
use jr_program_laws::parts_are_placed;
use jr_punit::parse_unit;
use jr_steps::Steps;
use jr_table::{Facts, Table, Ty};
use jr_text::{Span, Text};
use std::alloc::Global;
use std::marker::Brand;
use std::process::Abort;
use std::sync::ledger::{Blank, Ledger};

// The unit that a text is.
fn unit_in(rt: &impl Abort, alloc: Global, text: &Text) -> Unit<Span>
    ensures { (items : List pure.Item) × Lexes text.now items
        × IsUnitOf text.now items (unit_of result) }
{
    let items = lex(alloc, text).expect(rt, "items");
    measure(items.as_slice()).expect(rt, "tokens within the limits");
    parse_unit(alloc, text, items.as_slice()).expect(rt, "a unit")
}

// The units of a program of one file.
pub(crate) fn units_in(rt: &impl Abort, alloc: Global, text: &Text) -> Vec<Unit<Span>>
    ensures file { (items : List pure.Item)
        × IsFile (map unit_of result.items) 0 text.now items }
    ensures heads { UnitsHeads (map unit_of result.items) }
    ensures one { length result.items ≡ 1 }
{
    let unit = unit_in(rt, alloc, text);
    let mut units = Vec::new(alloc);
    units.push(unit).expect(rt, "memory");
    units
}

pub(crate) fn table_in(rt: &impl Abort, alloc: Global, units: &[Unit<Span>]) -> Table
    requires heads { UnitsHeads (map unit_of units.now) }
    requires one { length units.now ≡ 1 }
    ensures { AreProgramRows (declarations_of begins (map unit_of units.now)) result }
{
    let words = vec![in alloc; 0; 1].expect(rt, "memory");
    let mut known = None;
    build(alloc, units, words.as_slice(), &mut known).expect(rt, "a program without faults")
}

// Whether it is a method.
#[tactic(auto, unfolding(jr_ast::specs::View::member_kind))]
fn is_method_member(member: &Member<Span>) -> bool
    ensures { IsTrue result → (items : List pure.Item) → (at : ℕ)
        → SuperStands items (member_part (member_of member.now)) at }
{
    match &member.kind {
        MemberKind::Field { .. } => false,
        MemberKind::Method { .. } => true,
        MemberKind::Ctor { .. } => false,
        MemberKind::Inner(_) => false,
    }
}

fn is_method(part: &PartRef<'_, Span>) -> bool
    ensures { IsTrue result → (items : List pure.Item) → (at : ℕ)
        → SuperStands items (part_of part.now) at }
{
    match part {
        PartRef::Head(_) => false,
        PartRef::Member(member) => is_method_member(member),
    }
}

// The first of the members that is a method.
pub(crate) fn first_method<'m, 'a>(
    members: &'m [WrittenMember<'a, Span>],
) -> Option<&'m WrittenMember<'a, Span>>
    ensures { IfSome result (λ w. Contains members.now w.now × ((items : List pure.Item)
        → (at : ℕ) → SuperStands items (part_of w.now.part) at)) }
{
    for member in members {
        if is_method(&member.part) {
            return Some(member);
        }
    }
    None
}

// What is known of the first method of a program of one file: one step is counted.
fn bound_in<L: Ledger>(
    rt: &impl Abort,
    alloc: Global,
    units: &[Unit<Span>],
    steps: &mut Steps<L>,
) -> Option<Bound>
    requires file { (text : List ℕ) × (items : List pure.Item)
        × IsFile (map unit_of units.now) 0 text items }
    requires heads { UnitsHeads (map unit_of units.now) }
    requires one { length units.now ≡ 1 }
    ensures { IfSome result (λ _. steps.new ≡ steps.old + 1) }
{
    let table = table_in(rt, alloc, units);
    table.keeps_rows();
    members_are_written::<Span>();
    parts_are_placed();
    let members = written_members(alloc, &table, units).expect(rt, "memory");
    match first_method(members.as_slice()) {
        None => None,
        Some(member) => {
            let bound = bind_member(alloc, &table, units, &member.key, 0, steps);
            Some(bound.expect(rt, "memory"))
        }
    }
}

// Each declaration that is found at these places, with the place in front of it.
fn put_declarations(rt: &impl Abort, alloc: Global, text: &mut String, bound: &Bound, places: u32) {
    for at in 0..places {
        if let Some(decl) = bound.decl(at) {
            let decl = decl_text(alloc, decl).expect(rt, "memory");
            let decl = decl.as_str();
            write!(text, "{at} {decl};").expect(rt, "memory");
        }
    }
}

fn type_name(ty: Option<&Ty>) -> &'static str {
    match ty {
        None => "none",
        Some(Ty::Int) => "int",
        Some(_) => "another",
    }
}

fn put_type(rt: &impl Abort, alloc: Global, text: &mut String, bound: &Bound, steps: &[u32]) {
    let steps = steps.to_vec(alloc).expect(rt, "memory");
    put(rt, text, type_name(bound.ty(&Path { steps })));
    put(rt, text, ";");
}

// The member, what it refers to, the types of the returned value and of what stands in front of its
// last dot, and how many rules it breaks.
fn tell_bound(rt: &impl Abort, alloc: Global, bound: &Bound) -> String {
    let member = member_text(alloc, bound.member()).expect(rt, "memory");
    let mut text = member;
    put(rt, &mut text, ": ");
    put_declarations(rt, alloc, &mut text, bound, 30);
    put_type(rt, alloc, &mut text, bound, &[2, 0]);
    put_type(rt, alloc, &mut text, bound, &[2, 0, 0]);
    let errors = bound.errors().len();
    write!(text, "{errors}").expect(rt, "memory");
    text
}

fn bound_told<L: Ledger>(rt: &impl Abort, alloc: Global, blank: Blank) -> String
    requires name { blank.name ≡ L.name }
    requires parts { blank.parts ≡ L.parts }
    requires some { 0 < L.parts }
{
    let mut steps = Steps::<L>::new(blank);
    steps.tick();
    let text = "class O{static class K{static int x;}int m(){return O.K.x;}}";
    let text = Text::new(alloc, text.as_bytes()).expect(rt, "a text");
    let units = units_in(rt, alloc, &text);
    match bound_in(rt, alloc, units.as_slice(), &mut steps) {
        None => String::new(alloc),
        Some(bound) => tell_bound(rt, alloc, &bound),
    }
}

// Places are counted from the member's first byte.
#[test]
fn a_method_is_bound(rt: HostRuntime) {
    let told = bound_told::<Brand>(&rt, rt.alloc(), Blank::new(1));
    assert_same(&rt, told.as_str(), "O.m(): 15 O;17 O.K;19 O.K.x;int;none;0");
}
