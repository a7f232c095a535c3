//! The search within an expression.
ghost use Rattle.std.specs.Prelude.{◌≡◌, IfOk, option_map};
ghost use Rattle.jr_ast.specs.View.{expr_of};
ghost use Rattle.jr_piece_search.specs.Sought.{IsFoundIn, barred};
ghost use Rattle.jr_piece_search.specs.StepView.{in_expr_of, bars_of, use_of};

use crate::steps::{Bars, Usage, inward, is_span};
use jr_ast::Expr;
use jr_text::Span;
use std::alloc::AllocError;

/// What is found within an expression.
#[derive(Drop)]
pub struct InExpr<'a> {
    pub value: &'a Expr<Span>,
    pub usage: Usage,
    pub bars: Bars,
}

/// Behind a step into a part of a node that begins at the byte.
pub(crate) fn step_bars(bars: Bars, lazy: bool, at: u32) -> Bars
    ensures { bars_of result ≡ barred (bars_of bars) lazy at }
{
    if lazy {
        return Bars {
            outer: Some(at),
            own: Some(at),
        };
    }
    bars
}

/// The expression of exactly this span within one that is used so and has these bars, if there is
/// one (of nested spans one alone has it). Behind what stood in the path come the numbers of the
/// children through which the way goes. The only fault is want of memory.
pub fn in_expr<'a>(
    span: &Span,
    usage: Usage,
    bars: Bars,
    of: &'a Expr<Span>,
    path: &mut Vec<u32>,
) -> Result<Option<InExpr<'a>>, AllocError>
    ensures { IfOk result (λ o. IsFoundIn span.now (use_of usage) (bars_of bars) (expr_of of.now)
        path.old.items path.new.items (option_map in_expr_of o)) }
{
    let mut usage = usage;
    let mut bars = bars;
    let mut of = of;
    loop {
        if is_span(&of.mark, span) {
            return Ok(Some(InExpr {
                value: of,
                usage,
                bars,
            }));
        }
        let step = inward(span, of)?;
        match step {
            None => return Ok(None),
            Some(into) => {
                path.push(into.number)?;
                usage = into.usage;
                bars = step_bars(bars, into.lazy, of.mark.from);
                of = into.part;
            }
        }
    }
}
