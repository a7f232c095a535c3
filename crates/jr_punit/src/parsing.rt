//! Compilation units are read (JLS 7.3).
ghost use Rattle.std.specs.Prelude.{◌≡◌, Some, IfOk, IfErr, OnOk, IsErr, length};
ghost use Rattle.jr_lex.specs.Depth.{AreWithin};
ghost use Rattle.jr_lex.specs.Lexes.{Lexes};
ghost use Rattle.jr_ast.specs.View.{unit_of};
ghost use Rattle.jr_grammar.specs.Tokens.{placed_of, tokens_of};
ghost use Rattle.jr_grammar.specs.Units.{IsNoUnit};
ghost use Rattle.jr_grammar.specs.Reads.{Reads};
ghost use Rattle.jr_pexpr.specs.Parsing.{IsFault};
ghost use Rattle.jr_punit_laws.specs.Parsing.{AreUnit, IsUnitOf, IsNoUnitAt};
ghost use Rattle.jr_punit_laws.specs.Marked.{span_unit_read};
ghost use Rattle.jr_punit_laws.specs.Unread.{IsUnread};

use crate::unit_state::UnitState;
use jr_ast::Unit;
use jr_lex::{Item, items_are_placed};
use jr_pexpr::{ParseFault, token_at};
use jr_punit_laws::laws::{
    marked_reads_alike, marks_are_spans, stops_have_places, unit_is_read, unit_stop_is_exact,
};
use jr_text::{Span, Text};
use std::alloc::Global;

/// The unit that the machine reads, or the byte where it can't go on.
fn read_unit(alloc: Global, text: &Text, items: &[Item]) -> Result<Unit<Span>, ParseFault>
    requires lexed { Lexes text.now items.now }
    ensures read { IfOk result (λ unit. span_unit_read (length text.now)
        (placed_of text.now items.now) ≡ Some (unit_of unit)) }
    ensures fault { IfErr result (IsFault (IsUnread text.now items.now)) }
{
    items_are_placed();
    let mut state = UnitState::new();
    for i in 0..items.len() {
        let item = &items[i];
        if let Some(token) = token_at(text, item) {
            match state.step(alloc, item.span, token) {
                Ok(goes_on) => {
                    if !goes_on {
                        drop(state);
                        return Err(ParseFault::Syntax { at: item.span.from });
                    }
                }
                Err(_) => {
                    drop(state);
                    return Err(ParseFault::Memory);
                }
            }
        }
    }
    let end = text.len();
    match state.finish(alloc, Span { from: 0, to: end }) {
        Some(unit) => Ok(unit),
        None => Err(ParseFault::Syntax { at: end }),
    }
}

/// The unit that a text is, by its items. Each node's mark is the span from its first token to its
/// last, and the unit's is the whole text (JLS 7.3).
///
/// `Syntax` exactly where the tokens are no unit: `at` is the first byte of the first token such
/// that no unit begins with the tokens up to it and with it, or the text's end. Memory may run out.
pub fn parse_unit(alloc: Global, text: &Text, items: &[Item]) -> Result<Unit<Span>, ParseFault>
    requires lexed { Lexes text.now items.now }
    requires within { AreWithin items.now }
    ensures read { IfOk result (λ unit. IsUnitOf text.now items.now (unit_of unit)) }
    ensures reads { IfOk result (λ unit. Reads text.now (unit_of unit)) }
    ensures unit { OnOk result (AreUnit (tokens_of text.now items.now)) }
    ensures fault { IfErr result (IsFault (IsNoUnitAt text.now items.now)) }

    // Where the tokens are a unit one is read, and where they are none it is a fault, unless memory
    // ran out.
    ensures only_read { AreUnit (tokens_of text.now items.now)
        → IfErr result (λ fault. fault ≡ ParseFault.Memory) }
    ensures only_fault { IsNoUnit (tokens_of text.now items.now) → IsErr result }
{
    unit_is_read();
    unit_stop_is_exact();
    stops_have_places();
    marked_reads_alike();
    marks_are_spans();
    read_unit(alloc, text, items)
}
