//! Lines as texts.
ghost use Rattle.std.specs.Prelude.{◌≡◌, map, IfOk, string_bytes};
ghost use Rattle.jr_table.specs.KeyView.{decl_of};
ghost use Rattle.jr_lines.specs.Lines as pure;
ghost use Rattle.jr_lines.specs.LineView.{line_of, lines_of};

use crate::lines::Line;
use jr_ast::Name;
use jr_names::decl_text;
use jr_table::{Decl, Rule};
use std::alloc::{AllocError, Global};

fn reference_text(alloc: Global, at: u64, name: &str, decl: &Decl) -> Result<String, AllocError>
    ensures { IfOk result (λ text. string_bytes text
        ≡ pure.line_text (pure.reference at name.now (decl_of decl.now))) }
{
    let told = decl_text(alloc, decl)?;
    let decl = told.as_str();
    format!(in alloc; "{at} {name} {decl}")
}

fn broken_text(alloc: Global, at: u64, rule: Rule) -> Result<String, AllocError>
    ensures { IfOk result (λ text. string_bytes text ≡ pure.line_text (pure.broken at rule)) }
{
    let name = rule.name();
    format!(in alloc; "{at} error {name}")
}

fn line_string(alloc: Global, line: &Line<'_>) -> Result<String, AllocError>
    ensures { IfOk result (λ text. string_bytes text ≡ pure.line_text (line_of line.now)) }
{
    match line {
        Line::Reference { at, name, decl } => reference_text(alloc, at.place(), name, decl),
        Line::Broken { at, rule } => broken_text(alloc, at.place(), *rule),
    }
}

fn text_of(alloc: Global, line: &Line<'_>) -> Result<Name, AllocError>
    ensures { IfOk result (λ text. text ≡ pure.line_text (line_of line.now)) }
{
    let text = line_string(alloc, line)?;
    Name::new(alloc, text.as_str())
}

/// The texts of lines: `AT NAME DECL` for a reference, `AT error RULE` for what is broken.
pub(crate) fn texts_of(alloc: Global, lines: &[Line<'_>]) -> Result<Vec<Name>, AllocError>
    ensures { IfOk result (λ texts. texts.items ≡ map pure.line_text (lines_of lines.now)) }
{
    let mut texts = Vec::new(alloc);
    for line in lines {
        let text = text_of(alloc, line)?;
        texts.push(text)?;
    }
    Ok(texts)
}
