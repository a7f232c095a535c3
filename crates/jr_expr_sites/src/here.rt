//! What is known of a member.
ghost use Rattle.std.specs.Prelude.{◌≡◌, ◌++◌, ◌∷◌, [], Some, IfOk, option_map};
ghost use Rattle.jr_table.specs.TypeView.{ty_of};
ghost use Rattle.jr_expr_sites.specs.KnownFacts.{is_checked, is_kept, meaning_at};
ghost use Rattle.jr_table.specs.KeyView.{decl_of};
ghost use Rattle.jr_expr_sites.specs.Meanings.{meaning_of};
ghost use Rattle.jr_expr_sites.specs.StepView.{given, meaning_view};

use jr_ast::Path;
use jr_table::{Decl, Facts, FieldKey, MemberKey, Table, Ty};
use std::alloc::{AllocError, Global};

/// A member that begins at the byte `start` of its file, and what is known of it: the table, what
/// binding says, and which of its locals are never null, by their numbers.
#[derive(Drop)]
pub struct Here<'a, F> {
    pub table: &'a Table,
    pub facts: &'a F,
    pub member: &'a MemberKey,
    pub start: u32,
    pub never_null: &'a [bool],
}

/// What a name means.
#[derive(Drop)]
pub(crate) enum Meaning<'a> {
    Local(u32),
    Field(&'a FieldKey),
    Class,
    Nothing,
}

/// What a declaration is to sites.
fn decl_meaning(decl: &Decl) -> Meaning<'_>
    ensures { meaning_view result ≡ meaning_of (Some (decl_of decl.now)) }
{
    match decl {
        Decl::Class(_) => Meaning::Class,
        Decl::Field(key) => Meaning::Field(key),
        Decl::Method(_) => Meaning::Nothing,
        Decl::Ctor(_) => Meaning::Nothing,
        Decl::Local(key) => Meaning::Local(key.number),
    }
}

/// What the reference that begins at a byte of the file means.
pub(crate) fn meaning_at<'a, F: Facts>(here: &Here<'a, F>, at: u32) -> Meaning<'a>
    ensures { meaning_view result ≡ meaning_at (given F.decls F.types here.now) at }
{
    match here.facts.decl(at.saturating_sub(here.start)) {
        None => Meaning::Nothing,
        Some(decl) => decl_meaning(decl),
    }
}

/// Whether the name at a byte means a local that is never null.
pub(crate) fn is_kept_local<F: Facts>(here: &Here<'_, F>, at: u32) -> bool
    ensures { result ≡ is_kept here.now.never_null.now
        (meaning_at (given F.decls F.types here.now) at) }
{
    match meaning_at(here, at) {
        Meaning::Local(number) => match here.never_null.get(number as usize) {
            None => false,
            Some(flag) => *flag,
        },
        Meaning::Field(_) => false,
        Meaning::Class => false,
        Meaning::Nothing => false,
    }
}

/// Most paths have no more steps.
const FEW_STEPS: usize = 8;

/// The path to a part of the node to which a path leads.
pub fn below(alloc: Global, path: &Path, step: u32) -> Result<Path, AllocError>
    ensures { IfOk result (λ p. p.steps.items ≡ path.now.steps.items ++ step ∷ []) }
{
    let mut steps = Vec::with_capacity(alloc, FEW_STEPS)?;
    steps.extend_from_slice(path.steps.as_slice())?;
    steps.push(step)?;
    Ok(Path { steps })
}

/// Whether a cast from the one type to the other may fail.
fn may_fail(table: &Table, from: Option<&Ty>, to: Option<&Ty>) -> bool
    ensures { result ≡ is_checked table.now (option_map (λ t. ty_of t.now) from.entry)
        (option_map (λ t. ty_of t.now) to.entry) }
{
    match from {
        None => true,
        Some(from) => match to {
            None => true,
            Some(to) => !table.is_assignable_at(table.kind(from), table.kind(to)),
        },
    }
}

/// Whether the cast to which the path leads may fail.
pub(crate) fn is_checked_cast<F: Facts>(
    alloc: Global,
    here: &Here<'_, F>,
    path: &Path,
) -> Result<bool, AllocError>
    ensures { IfOk result (λ is. is ≡ is_checked here.now.table.now
        (F.types here.now.facts.now (path.now.steps.items ++ 1 ∷ []))
        (F.types here.now.facts.now path.now.steps.items)) }
{
    let operand = below(alloc, path, 1)?;
    Ok(may_fail(here.table, here.facts.ty(&operand), here.facts.ty(path)))
}
