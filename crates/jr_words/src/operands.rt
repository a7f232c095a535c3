//! The operands of a run, with the numbers of their words.
ghost use Rattle.std.specs.Prelude.{◌≡◌, ◌<◌, ◌≤◌, ◌↔◌, ◌^◌, length, map, IfOk, IsTrue};
ghost use Rattle.jr_words.specs.Asked.{operand_of, option_place as place_in, placed};
ghost use Rattle.jr_words.specs.Words.{Differ, texts_of};

use crate::words::{OUT, Operand};
use std::alloc::{AllocError, Global};
use std::collections::HashSet;

/// The number of the word that the option is, or how many words there are where there is none.
pub(crate) fn option_place(words: &[String]) -> usize
    ensures { result ≡ place_in (texts_of words.now) }
{
    for (place, word) in words.iter().enumerate() {
        if word.as_str() == OUT {
            return place;
        }
    }
    words.len()
}

/// The operands with the numbers of their words, of which the first is 1: the option and its folder
/// stand at `option`.
pub(crate) fn with_numbers<'a>(
    alloc: Global,
    texts: &[&'a str],
    option: usize,
) -> Result<Vec<Operand<'a>>, AllocError>
    requires { length texts.now ≤ 65536 }
    ensures { IfOk result (λ operands. map operand_of operands.items
        ≡ placed option 1 (map (λ text. text.now) texts.now)) }
{
    let mut operands = Vec::with_capacity(alloc, texts.len())?;
    let mut number = 1;
    for text in texts {
        let word = if (number as usize) < option {
            number
        } else {
            number + 2
        };
        operands.push(Operand { word, text })?;
        number += 1;
    }
    Ok(operands)
}

/// Whether no two operands have one text.
pub(crate) fn differ(alloc: Global, operands: &[Operand]) -> Result<bool, AllocError>
    ensures { IfOk result (λ differ. IsTrue differ ↔ Differ (map operand_of operands.now)) }
{
    let mut seen = HashSet::new(alloc);
    for operand in operands {
        if !seen.insert(operand.text)? {
            return Ok(false);
        }
    }
    Ok(true)
}
