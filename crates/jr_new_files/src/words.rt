//! Declared names, and whether a member is static.
ghost use Rattle.std.specs.Prelude.{◌≡◌, IfOk, map};
ghost use Rattle.jr_ast.specs.View.{word_of, modifier_of};
ghost use Rattle.jr_table.specs.Decls.{local_decl};
ghost use Rattle.jr_table.specs.Entries as entries;
ghost use Rattle.jr_table.specs.HeadRules.{is_static_member};
ghost use Rattle.jr_rewrite.specs.Rewrites.{declared_by};
ghost use Rattle.jr_new_bodies.specs.OutputView.{gathered};
ghost use Rattle.jr_new_files.specs.Walking.{key_of, rows_of, mapping_of};
ghost use Rattle.jr_new_files.specs.PartEffects.{WordGathers};

use crate::beginnings::Walked;
use jr_ast::{Ident, ModWord, Modifier};
use jr_new_bodies::{Output, put_alone};
use jr_new_words::{local_choice, member_choice};
use jr_text::{Mark, Span};
use std::alloc::{AllocError, Global};

fn is_static_word(word: ModWord) -> bool
    ensures { result ≡ entries.is_static_word word }
{
    match word {
        ModWord::Static => true,
        _ => false,
    }
}

/// Whether a member is static (JLS 8.3.1.1, 8.4.3.2).
pub fn is_static<A: Mark>(modifiers: &[Modifier<A>]) -> bool
    ensures { result ≡ is_static_member (λ m b. (A.span_from m b).from)
        (map modifier_of modifiers.now) }
{
    for modifier in modifiers {
        if is_static_word(modifier.word) {
            return true;
        }
    }
    false
}

/// The word that is the member's own name: a head's and a constructor's declare the class (JLS 8.1,
/// 8.8).
pub(crate) fn member_word(
    alloc: Global,
    of: &Walked<'_>,
    name: &Ident<Span>,
    out: &mut Output,
) -> Result<(), AllocError>
    ensures { IfOk result (λ _. WordGathers (rows_of of.now) (mapping_of of.now)
        (declared_by (key_of of.now)) (word_of name.now) (gathered out.old) (gathered out.new)) }
{
    let choice = member_choice(alloc, &of.programs.keys, of.key, &name.name)?;
    put_alone(alloc, name.mark, choice, out)
}

/// The word that declares the parameter of a number.
pub(crate) fn param_word(
    alloc: Global,
    of: &Walked<'_>,
    number: u32,
    name: &Ident<Span>,
    out: &mut Output,
) -> Result<(), AllocError>
    ensures { IfOk result (λ _. WordGathers (rows_of of.now) (mapping_of of.now)
        (local_decl (record { member = key_of of.now; number = number })) (word_of name.now)
        (gathered out.old) (gathered out.new)) }
{
    let choice = local_choice(alloc, &of.programs.keys, of.key, number, &name.name)?;
    put_alone(alloc, name.mark, choice, out)
}
