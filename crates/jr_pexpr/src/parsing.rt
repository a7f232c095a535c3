//! The longest expression, or statement expression, that begins at an item of a text.
ghost use Rattle.std.specs.Prelude.{◌≡◌, ◌≤◌, [], Some, IfOk, IfErr, IsErr, IfSome, length};
ghost use Rattle.std.specs.Prelude.{slice_get, slice_range, option_map, option_and_then, unwrap_or};
ghost use Rattle.jr_lex.specs.declared.items.Item.{Item};
ghost use Rattle.jr_lex.specs.Lexes.{Lexes};
ghost use Rattle.jr_ast.specs.View.{expr_of};
ghost use Rattle.jr_grammar.specs.Tokens.{placed_of, kinds};
ghost use Rattle.jr_pexpr.specs.Machine.{want};
ghost use Rattle.jr_pexpr.specs.Marked.{span_whole};
ghost use Rattle.jr_pexpr.specs.Walks.{rule_run};
ghost use Rattle.jr_pexpr.specs.StateView.{state_view};
ghost use Rattle.jr_pexpr.specs.ExpView.{filled};
ghost use Rattle.jr_lex.specs.Depth.{AreWithin};
ghost use Rattle.jr_grammar.specs.Expressions.{HasNoExpression, HasNoStatementExpression};
ghost use Rattle.jr_pexpr.specs.Parsing.{IsFault, tokens_from, HasExpression};
ghost use Rattle.jr_pexpr.specs.Parsing.{HasStatementExpression, IsExpressionFrom};
ghost use Rattle.jr_pexpr.specs.Parsing.{IsNoExpressionFrom, IsStatementExpressionFrom};
ghost use Rattle.jr_pexpr.specs.Parsing.{IsNoStatementExpressionFrom};
ghost use Rattle.jr_pexpr.specs.Rules.{IsFrom, IsNoneFor};
ghost use Rattle.jr_pexpr.specs.Answers.{IsFilled};

use crate::faults::ParseFault;
use crate::laws::marks_are_spans;
use crate::made::Made;
use crate::rules::Rule;
use crate::state::State;
use crate::tokens::token_at;
use crate::walks::walk;
use jr_ast::Expr;
use jr_lex::{Item, items_are_placed};
use jr_text::{Span, Text};
use std::alloc::Global;

/// What has been read of the items from number `from` up to number `to`.
fn run(
    alloc: Global,
    text: &Text,
    items: &[Item],
    from: usize,
    to: usize,
    rule: Rule,
) -> Made<Option<State>>
    requires lexed { Lexes text.now items.now }
    requires within { to ≤ length items.now }
    ensures { IfOk result (λ state. option_map state_view state
        ≡ rule_run rule (want []) (placed_of text.now (slice_range items.now from to))) }
{
    items_are_placed();
    let mut state = State::new(alloc);
    for i in from..to {
        let item = &items[i];
        if let Some(token) = token_at(text, item) {
            match rule.step(alloc, state, item.span, token)? {
                Some(next) => state = next,
                None => return Ok(None),
            }
        }
    }
    Ok(Some(state))
}

/// The tree that the items from number `from` up to number `to` spell; `whole` is what has been
/// read of them, if it is still at hand.
fn tree(
    alloc: Global,
    text: &Text,
    items: &[Item],
    from: usize,
    to: usize,
    rule: Rule,
    whole: Option<State>,
) -> Made<Option<Box<Expr<Span>>>>
    requires lexed { Lexes text.now items.now }
    requires within { to ≤ length items.now }
    requires whole { IfSome whole (λ state.
        rule_run rule (want []) (placed_of text.now (slice_range items.now from to))
        ≡ Some (state_view state)) }
    ensures { IsFilled result (option_and_then span_whole (rule_run rule (want [])
        (placed_of text.now (slice_range items.now from to)))) }
{
    match whole {
        Some(state) => state.finish(alloc),
        None => match run(alloc, text, items, from, to, rule)? {
            Some(state) => state.finish(alloc),
            None => Ok(None),
        },
    }
}

/// The first byte of the item of this number, or the file's end.
fn byte_at(items: &[Item], number: usize, end: u32) -> u32
    ensures { result
        ≡ unwrap_or (option_map (λ (i : Item). i.span.from) (slice_get items.now number)) end }
{
    match items.get(number) {
        Some(item) => item.span.from,
        None => end,
    }
}

/// The longest tree from item number `from` on, the number of the item behind it, and that of the
/// item where reading stops.
fn read_from(
    alloc: Global,
    text: &Text,
    items: &[Item],
    from: u32,
    rule: Rule,
) -> Result<(Expr<Span>, u32, u32), ParseFault>
    requires lexed { Lexes text.now items.now }
    requires from { from ≤ length items.now }
    ensures read { IfOk result (λ read.
        IsFrom rule text.now items.now from (expr_of read.0) read.1 read.2) }
    ensures fault { IfErr result (IsFault (IsNoneFor rule text.now items.now from)) }
{
    items_are_placed();
    marks_are_spans();
    let end = text.len();
    let first = from as usize;
    let reach = walk(alloc, text, items, first, rule)?;
    match reach.end {
        Some(behind) => match tree(alloc, text, items, first, behind, rule, reach.whole)? {
            Some(made) => Ok((Box::into_inner(made), behind as u32, reach.stop as u32)),
            None => unreachable!(),
        },
        None => {
            drop(reach.whole);
            Err(ParseFault::Syntax {
                at: byte_at(items, reach.stop, end),
            })
        }
    }
}

/// The longest expression (JLS 15) that begins at item number `from` of the text, the number of the
/// item behind its last token, and the number of the item where reading stops: that of the first
/// token from there on such that no expression begins with the tokens up to it and with it, or else
/// the number of items.
///
/// `from` is the number of any item, blanks and comments too, or the number of items. Each node's
/// mark is the span from its first token to its last. `Syntax` exactly where no tokens from there
/// on are an expression: `at` is the first byte of the item where reading stops, or the file's end.
pub fn parse_expr(
    alloc: Global,
    text: &Text,
    items: &[Item],
    from: u32,
) -> Result<(Expr<Span>, u32, u32), ParseFault>
    requires lexed { Lexes text.now items.now }
    requires within { AreWithin items.now }
    requires from { from ≤ length items.now }
    ensures read { IfOk result (λ read.
        IsExpressionFrom text.now items.now from (expr_of read.0) read.1 read.2) }
    ensures fault { IfErr result (IsFault (IsNoExpressionFrom text.now items.now from)) }

    // Where the tokens begin with an expression one is read, and where they begin with none it is a
    // fault, unless memory ran out.
    ensures only_read { HasExpression (kinds (tokens_from text.now items.now from))
        → IfErr result (λ fault. fault ≡ ParseFault.Memory) }
    ensures only_fault { HasNoExpression (kinds (tokens_from text.now items.now from))
        → IsErr result }
{
    read_from(alloc, text, items, from, Rule::Expression)
}

/// The same for statement expressions (JLS 14.8): assignments, `++` and `--`, calls, and `new`.
pub fn parse_sexpr(
    alloc: Global,
    text: &Text,
    items: &[Item],
    from: u32,
) -> Result<(Expr<Span>, u32, u32), ParseFault>
    requires lexed { Lexes text.now items.now }
    requires within { AreWithin items.now }
    requires from { from ≤ length items.now }
    ensures read { IfOk result (λ read.
        IsStatementExpressionFrom text.now items.now from (expr_of read.0) read.1 read.2) }
    ensures fault { IfErr result (IsFault (IsNoStatementExpressionFrom text.now items.now from)) }

    // Where the tokens begin with a statement expression one is read, and where they begin with
    // none it is a fault, unless memory ran out.
    ensures only_read { HasStatementExpression (kinds (tokens_from text.now items.now from))
        → IfErr result (λ fault. fault ≡ ParseFault.Memory) }
    ensures only_fault { HasNoStatementExpression (kinds (tokens_from text.now items.now from))
        → IsErr result }
{
    read_from(alloc, text, items, from, Rule::StatementExpression)
}
