//! The lines of a file's members.
ghost use Rattle.std.specs.Prelude.{◌≡◌, ◌+◌, ◌↔◌, ℕ, List, map, IfOk, OnOk};
ghost use Rattle.jr_lex.specs.Lexes.{Lexes};
ghost use Rattle.jr_table.specs.Decls as decls;
ghost use Rattle.jr_table.specs.KeyView.{decl_of};
ghost use Rattle.jr_bind.specs.ErrorView.{error_of};
ghost use Rattle.jr_lines.specs.Lines as pure;
ghost use Rattle.jr_lines.specs.LineView.{place_of, lines_of};
ghost use Rattle.jr_program.specs.Members.{AnyOf, MemberRefers};
ghost use Rattle.jr_lines.specs.MemberLines.{IsLineOf, Adds, IsLineAt, IsReferenceAt};
ghost use Rattle.jr_lines.specs.MemberLines.{HasReference, HasError, IsErrorAt, IsMemberLine};

use crate::line_texts::texts_of;
use crate::lines::{Byte, Line, in_order};
use jr_ast::Name;
use jr_bind::{BindError, Reference};
use jr_lex::items_are_placed;
use jr_program::{MemberBound, Tokens};
use jr_table::{Decl, Facts};
use jr_text::Text;
use std::alloc::{AllocError, Global};

// Puts the line of the token that begins there behind the others, if one does.
fn push_token<'a>(
    lines: &mut Vec<Line<'a>>,
    text: &'a Text,
    tokens: &Tokens,
    at: Byte,
    decl: &'a Decl,
) -> Result<(), AllocError>
    requires { Lexes text.now tokens.now }
    ensures { OnOk result (Adds (IsLineAt text.now tokens.now (place_of at) (decl_of decl.now))
        (lines_of lines.old.items) (lines_of lines.new.items)) }
{
    items_are_placed();
    match tokens.text_at(text, at.place()) {
        None => Ok(()),
        Some(name) => {
            lines.push(Line::Reference { at, name, decl })?;
            Ok(())
        }
    }
}

// The same of a place of a member, by what the reference there means.
fn push_reference<'a>(
    lines: &mut Vec<Line<'a>>,
    text: &'a Text,
    tokens: &Tokens,
    member: &'a MemberBound,
    offset: u32,
) -> Result<(), AllocError>
    requires { Lexes text.now tokens.now }
    ensures { OnOk result (Adds (IsReferenceAt text.now tokens.now member.now.start
        member.now.bound.references offset) (lines_of lines.old.items) (lines_of lines.new.items)) }
{
    match member.bound.decl(offset) {
        None => Ok(()),
        Some(decl) => {
            let at = Byte {
                start: member.start,
                offset,
            };
            push_token(lines, text, tokens, at, decl)
        }
    }
}

// The same of the places of some references.
fn push_each<'a>(
    lines: &mut Vec<Line<'a>>,
    text: &'a Text,
    tokens: &Tokens,
    member: &'a MemberBound,
    references: &[Reference],
) -> Result<(), AllocError>
    requires { Lexes text.now tokens.now }
    ensures { OnOk result (Adds (λ l. AnyOf (λ r. IsReferenceAt text.now tokens.now member.now.start
        member.now.bound.references r.at l) references.now)
        (lines_of lines.old.items) (lines_of lines.new.items)) }
{
    for reference in references {
        push_reference(lines, text, tokens, member, reference.at)?;
    }
    Ok(())
}

fn push_references<'a>(
    lines: &mut Vec<Line<'a>>,
    text: &'a Text,
    tokens: &Tokens,
    member: &'a MemberBound,
) -> Result<(), AllocError>
    requires { Lexes text.now tokens.now }
    ensures { OnOk result (Adds (HasReference text.now tokens.now member.now.start
        member.now.bound.references) (lines_of lines.old.items) (lines_of lines.new.items)) }
{
    push_each(lines, text, tokens, member, member.bound.references())
}

// The line of a rule that is broken.
fn push_error(lines: &mut Vec<Line<'_>>, start: u32, error: BindError) -> Result<(), AllocError>
    ensures { OnOk result (Adds (IsErrorAt start (error_of error))
        (lines_of lines.old.items) (lines_of lines.new.items)) }
{
    let at = Byte {
        start,
        offset: error.at,
    };
    let rule = error.rule;
    lines.push(Line::Broken { at, rule })?;
    Ok(())
}

fn push_broken(
    lines: &mut Vec<Line<'_>>,
    start: u32,
    errors: &[BindError],
) -> Result<(), AllocError>
    ensures { OnOk result (Adds (λ l. AnyOf (λ e. IsErrorAt start (error_of e) l) errors.now)
        (lines_of lines.old.items) (lines_of lines.new.items)) }
{
    for error in errors {
        push_error(lines, start, *error)?;
    }
    Ok(())
}

fn push_errors(lines: &mut Vec<Line<'_>>, member: &MemberBound) -> Result<(), AllocError>
    ensures { OnOk result (Adds (HasError member.now.start member.now.bound.errors)
        (lines_of lines.old.items) (lines_of lines.new.items)) }
{
    push_broken(lines, member.start, member.bound.errors())
}

// The lines of a member, if it is one of the file.
fn push_member<'a>(
    lines: &mut Vec<Line<'a>>,
    text: &'a Text,
    tokens: &Tokens,
    file: u32,
    member: &'a MemberBound,
) -> Result<(), AllocError>
    requires { Lexes text.now tokens.now }
    ensures { OnOk result (Adds (IsMemberLine text.now tokens.now member.now file)
        (lines_of lines.old.items) (lines_of lines.new.items)) }
{
    if member.file != file {
        return Ok(());
    }
    push_references(lines, text, tokens, member)?;
    push_errors(lines, member)
}

fn lines_in<'a>(
    alloc: Global,
    text: &'a Text,
    tokens: &Tokens,
    file: u32,
    members: &'a [MemberBound],
) -> Result<Vec<Line<'a>>, AllocError>
    requires { Lexes text.now tokens.now }
    ensures { IfOk result (λ lines. (l : pure.Line) → pure.Among (lines_of lines.items) l
        ↔ IsLineOf text.now tokens.now members.now file l) }
{
    let mut lines = Vec::new(alloc);
    for member in members {
        push_member(&mut lines, text, tokens, file, member)?;
    }
    Ok(lines)
}

/// The lines of the file of the number, by what binding knows of the members: `AT NAME DECL` for a
/// reference, `AT error RULE` for a rule that is broken, by place, a reference first and then rules
/// in their order. The text and the tokens are those of the file.
pub fn file_lines(
    alloc: Global,
    text: &Text,
    tokens: &Tokens,
    file: u32,
    members: &[MemberBound],
) -> Result<Vec<Name>, AllocError>
    requires lexes { Lexes text.now tokens.now }
    requires once { (at : ℕ) (d e : decls.Decl) → AnyOf (MemberRefers file at d) members.now
        → AnyOf (MemberRefers file at e) members.now → d ≡ e }
    ensures { IfOk result (λ texts. (lines : List pure.Line)
        × pure.AreLines (IsLineOf text.now tokens.now members.now file) lines
        × (texts.items ≡ map pure.line_text lines)) }
{
    items_are_placed();
    let mut lines = lines_in(alloc, text, tokens, file, members)?;
    in_order(&mut lines)?;
    texts_of(alloc, lines.as_slice())
}
