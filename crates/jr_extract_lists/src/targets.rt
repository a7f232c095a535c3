//! What is extracted, with all that is known of it.
ghost use Rattle.std.specs.Prelude.{◌≡◌, ◌<◌, Some, length, slice_get};
ghost use Rattle.jr_text.specs.declared.spans.Span as spans;
ghost use Rattle.jr_ast.specs.MemberTree as syntax;
ghost use Rattle.jr_ast.specs.View.{member_of};
ghost use Rattle.jr_table.specs.Errors as errors;
ghost use Rattle.jr_members.specs.PartView.{part_of, written_of};
ghost use Rattle.jr_local_finds.specs.ValueView.{chosen_of};
ghost use Rattle.jr_local_finds.specs.Extracts.{IsFound};
ghost use Rattle.jr_extract_lists.specs.Targets as pure;
ghost use Rattle.jr_extract_lists.specs.Targets.{IsMemberOf, IsTarget};

use jr_ast::{Expr, Member, MemberKind, Name, Path, Stmt};
use jr_bind::View;
use jr_lex::Item;
use jr_local_finds::SelectedValue;
use jr_local_parts::WalkedBody;
use jr_members::{PartRef, WrittenMember};
use jr_new_files::is_static;
use jr_new_words::{KeyMapping, Tables};
use jr_program::first_byte;
use jr_table::Ty;
use jr_text::{Span, Text};

/// What is asked for: a span of a file, and a name.
#[derive(Clone, Copy, Drop)]
pub struct Request<'a> {
    pub file: u32,
    pub from: u32,
    pub to: u32,
    pub name: &'a Name,
}

/// The expression of a body, the new local, and the file's text with its items.
#[derive(Clone, Copy, Drop)]
pub struct Target<'a> {
    pub request: Request<'a>,
    /// The number of the new local.
    pub number: u32,
    pub body: WalkedBody<'a>,
    pub member: &'a Member<Span>,
    pub value: &'a Expr<Span>,
    pub ty: &'a Ty,
    /// From the member to the expression.
    pub path: &'a Path,
    /// The list from the statement on.
    pub list: &'a [Stmt<Span>],
    pub text: &'a Text,
    pub items: &'a [Item],
}

/// Whether the code of a member has no object (JLS 8.4.3.2): of a static method alone.
#[tactic(auto, unfolding(jr_ast::specs::View::member_kind))]
fn has_no_object(member: &Member<Span>) -> bool
    ensures { result ≡ pure.has_no_object (member_of member.now) }
{
    match &member.kind {
        MemberKind::Method { modifiers, .. } => is_static(modifiers),
        MemberKind::Field { .. } => false,
        MemberKind::Ctor { .. } => false,
        MemberKind::Inner(_) => false,
    }
}

/// The member that a part is, which has code.
fn member_in<'a>(part: &PartRef<'a, Span>) -> &'a Member<Span>
    requires { (m : syntax.Member spans.Span) × (part_of part.now ≡ errors.member_part m) }
    ensures { part_of part.now ≡ errors.member_part (member_of result.now) }
{
    match part {
        PartRef::Member(member) => *member,
        PartRef::Head(_) => unreachable!(),
    }
}

/// The written member of the number of what is found.
pub fn written_at<'m, 'a>(
    members: &'m [WrittenMember<'a, Span>],
    number: u32,
) -> &'m WrittenMember<'a, Span>
    requires { number < length members.now }
    ensures { slice_get members.now number ≡ Some result.now }
{
    &members[number as usize]
}

/// What is extracted, of what is found in the program; the new local gets the number.
pub fn target_of<'a, V: View<Span>>(
    view: &'a V,
    written: &WrittenMember<'a, Span>,
    request: Request<'a>,
    selected: &'a SelectedValue<'a>,
    number: u32,
) -> Target<'a>
    requires file { request.file < length (V.program view.now).files }
    requires written { IsMemberOf (V.program view.now) (written_of written.now)
        (chosen_of selected.now) }
    requires found { IsFound (V.program view.now) request.file request.from request.to
        request.name.now (chosen_of selected.now) number }
    ensures target { IsTarget (V.program view.now) result }
    ensures request { result.request ≡ request.entry }
{
    view.keeps_program();
    let table = view.table();
    let facts = view.bound(selected.member);
    let member = member_in(&written.part);
    let from = first_byte(&written.part);
    let is_static = has_no_object(member);
    let text = view.text(request.file);
    let items = view.items(request.file);
    Target {
        request,
        number,
        body: WalkedBody {
            tables: Tables {
                before: table,
                after: table,
                keys: KeyMapping::Same,
            },
            bound: facts,
            from,
            is_static,
            code: selected.code,
        },
        member,
        value: selected.value.found.value,
        ty: selected.value.ty,
        path: &selected.value.path,
        list: selected.value.found.list,
        text,
        items,
    }
}
