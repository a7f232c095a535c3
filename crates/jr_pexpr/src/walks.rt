//! The items of a text are walked as far as a tree can be read.
ghost use Rattle.std.specs.Prelude.{◌≡◌, ◌≤◌, [], None, IfOk, IfSome, IsSome, length, drop};
ghost use Rattle.jr_lex.specs.Lexes.{Lexes};
ghost use Rattle.jr_pexpr.specs.TokenView.{token_view};
ghost use Rattle.jr_pexpr.specs.Pieces.{piece_of};
ghost use Rattle.jr_pexpr.specs.Machine.{want};
ghost use Rattle.jr_pexpr.specs.Walks.{rule_whole, walk_end, walk_stop, walk_last, is_end};
ghost use Rattle.jr_pexpr.specs.StateView.{state_view};

use crate::made::Made;
use crate::pieces::{Piece, piece_of};
use crate::rules::Rule;
use crate::state::State;
use crate::tokens::{Token, token_at};
use jr_lex::{Item, items_are_placed};
use jr_text::Text;
use std::alloc::Global;

/// How far was read.
#[derive(Drop)]
pub(crate) struct Reach {
    /// The number of the item behind the longest tree, if there is one.
    pub(crate) end: Option<usize>,
    /// The number of the item where reading stops.
    pub(crate) stop: usize,
    /// What has been read, where it is whole there and still at hand.
    pub(crate) whole: Option<State>,
}

/// Whether nothing whole goes on with the token.
fn is_end(token: Token<'_>) -> bool
    ensures { result ≡ is_end (piece_of (token_view token.entry)) }
{
    match piece_of(token) {
        Piece::Close => true,
        Piece::Comma => true,
        Piece::Class => true,
        Piece::OtherKeyword(_) => true,
        Piece::OtherSymbol(_) => true,
        _ => false,
    }
}

/// Walks the items from number `from` on.
pub(crate) fn walk(
    alloc: Global,
    text: &Text,
    items: &[Item],
    from: usize,
    rule: Rule,
) -> Made<Reach>
    requires lexed { Lexes text.now items.now }
    requires from { from ≤ length items.now }
    ensures end { IfOk result (λ reach. reach.end
        ≡ walk_end rule text.now (want []) from None (drop from items.now)) }
    ensures stop { IfOk result (λ reach.
        reach.stop ≡ walk_stop rule text.now (want []) from (drop from items.now)) }
    ensures whole { IfOk result (λ reach. IfSome reach.whole (λ state.
        (state_view state ≡ walk_last rule text.now (want []) (drop from items.now))
        × IsSome (rule_whole rule (state_view state)))) }
{
    items_are_placed();
    let mut state = State::new(alloc);
    let mut end = None;
    for i in from..items.len() {
        let item = &items[i];
        if let Some(token) = token_at(text, item) {
            if is_end(token) && rule.is_whole(&state) {
                let whole = Some(state);
                return Ok(Reach {
                    end,
                    stop: i,
                    whole,
                });
            }
            match rule.step(alloc, state, item.span, token)? {
                Some(next) => state = next,
                None => {
                    return Ok(Reach {
                        end,
                        stop: i,
                        whole: None,
                    });
                }
            }
            if rule.is_whole(&state) {
                end = Some(i + 1);
            }
        }
    }
    let whole = if rule.is_whole(&state) {
        Some(state)
    } else {
        drop(state);
        None
    };
    Ok(Reach {
        end,
        stop: items.len(),
        whole,
    })
}
