//! The first method of a program of one file, bound, and what is asked of it.
ghost use Rattle.std.specs.Prelude.{◌≡◌, ◌<◌, ℕ, List, IsTrue, length, map};
ghost use Rattle.jr_ast.specs.View.{member_of, unit_of};
ghost use Rattle.jr_bind.specs.Bounds.{BindsOnce, FitsWhole};
ghost use Rattle.jr_build_rows.specs.Heads.{UnitsHeads};
ghost use Rattle.jr_cfg.specs.MemberRoutes.{HasKey};
ghost use Rattle.jr_lex.specs.declared.items.Item as pure;
ghost use Rattle.jr_piece_sites.specs.Pieces.{IsOwner};
ghost use Rattle.jr_program_laws.specs.FileParts.{begins};
ghost use Rattle.jr_program_laws.specs.PlaceLaws.{IsFile};
ghost use Rattle.jr_table.specs.DeclaredItems.{declarations_of};
ghost use Rattle.jr_table.specs.Decls as decls;
ghost use Rattle.jr_table.specs.Errors.{InUnits};
ghost use Rattle.jr_table.specs.KeyView.{member_key_of};
ghost use Rattle.jr_table.specs.ProgramRows.{AreProgramRows};

use crate::graphs::tell_made;
use crate::members::{first_method, table_in, units_in};
use crate::parts::tell_part;
use jr_ast::{Member, MemberKind, Unit};
use jr_bind::{Bound, bind_member};
use jr_member_graphs::{member_graph, own_flags};
use jr_members::{PartRef, WrittenMember, members_are_written, written_members};
use jr_program_laws::parts_are_placed;
use jr_steps::Steps;
use jr_table::{MemberKey, Table};
use jr_text::{Span, Text};
use std::alloc::Global;
use std::marker::Brand;
use std::process::Abort;
use std::sync::ledger::{Blank, Ledger};

/// A method, and what is known of it.
#[derive(Clone, Copy)]
pub(crate) struct Method<'a> {
    pub(crate) table: &'a Table,
    pub(crate) of: &'a Member<Span>,
    pub(crate) base: u32,
    pub(crate) bound: &'a Bound,
    pub(crate) flags: &'a [bool],
}

/// Whether it is a method.
#[tactic(auto, unfolding(jr_ast::specs::View::member_kind))]
fn is_method(member: &Member<Span>) -> bool
    ensures key { IsTrue result → (k : decls.MemberKey) → HasKey k (member_of member.now) }
    ensures owner { IsTrue result → IsOwner (member_of member.now) }
{
    match &member.kind {
        MemberKind::Field { .. } => false,
        MemberKind::Method { .. } => true,
        MemberKind::Ctor { .. } => false,
        MemberKind::Inner(_) => false,
    }
}

/// What binding knows of the member of a key.
fn bind_key<L: Ledger>(
    rt: &impl Abort,
    alloc: Global,
    table: &Table,
    units: &[Unit<Span>],
    key: &MemberKey,
    blank: Blank,
) -> Bound
    requires name { blank.name ≡ L.name }
    requires parts { blank.parts ≡ L.parts }
    requires some { 0 < L.parts }
    requires few { length units.now ≡ 1 }
    requires rows { AreProgramRows (declarations_of begins (map unit_of units.now)) table.now }
    requires written { InUnits begins (declarations_of begins (map unit_of units.now))
        (λ k base part. FitsWhole begins (λ m at. Prim.Unit {0}) base part
        × BindsOnce begins table.now 0 k base part)
        (map unit_of units.now) (member_key_of key.now) }
{
    let mut steps = Steps::<L>::new(blank);
    bind_member(alloc, table, units, key, 0, &mut steps).expect(rt, "memory")
}

/// What is asked of a method, or of one of its parts; of another member nothing.
fn tell_asked(
    rt: &impl Abort,
    alloc: Global,
    method: &Method<'_>,
    kind: &str,
    part: &str,
) -> String {
    if !is_method(method.of) {
        return String::new(alloc);
    }
    match kind {
        "graph" | "list" | "count" => {
            let made = member_graph(alloc, method.table, method.of, method.base, 0, method.bound);
            tell_made(rt, alloc, kind, made)
        }
        _ => tell_part(rt, alloc, method, kind, part),
    }
}

/// The same of what is written.
fn tell_written(
    rt: &impl Abort,
    alloc: Global,
    table: &Table,
    written: &WrittenMember<'_, Span>,
    bound: &Bound,
    kind: &str,
    part: &str,
) -> String {
    match &written.part {
        PartRef::Head(_) => String::new(alloc),
        PartRef::Member(of) => {
            let base = written.base;
            let flags = own_flags(alloc, table, of, base, bound).expect(rt, "memory");
            let flags = flags.as_slice();
            let method = Method {
                table,
                of: *of,
                base,
                bound,
                flags,
            };
            tell_asked(rt, alloc, &method, kind, part)
        }
    }
}

/// What is asked of the first method of a program of one file.
fn tell_first(
    rt: &impl Abort,
    alloc: Global,
    units: &[Unit<Span>],
    kind: &str,
    part: &str,
) -> String
    requires file { (text : List ℕ) × (items : List pure.Item)
        × IsFile (map unit_of units.now) 0 text items }
    requires heads { UnitsHeads (map unit_of units.now) }
    requires one { length units.now ≡ 1 }
{
    let table = table_in(rt, alloc, units);
    table.keeps_rows();
    members_are_written::<Span>();
    parts_are_placed();
    let members = written_members(alloc, &table, units).expect(rt, "memory");
    match first_method(members.as_slice()) {
        None => String::new(alloc),
        Some(member) => {
            let key = &member.key;
            let bound = bind_key::<Brand>(rt, alloc, &table, units, key, Blank::new(1));
            tell_written(rt, alloc, &table, member, &bound, kind, part)
        }
    }
}

/// The same of a text.
pub(crate) fn tell_method(
    rt: &impl Abort,
    alloc: Global,
    text: &str,
    kind: &str,
    part: &str,
) -> String {
    let text = Text::new(alloc, text.as_bytes()).expect(rt, "a text");
    let units = units_in(rt, alloc, &text);
    tell_first(rt, alloc, units.as_slice(), kind, part)
}
