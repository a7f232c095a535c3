//! How tightly expressions have to bind (JLS 15), by the levels of `jr_grammar: Shape`.
ghost use Rattle.std.specs.Prelude.{◌≡◌, ◌<◌};
ghost use Rattle.jr_grammar.specs.Shape as shape;
ghost use Rattle.jr_rewrite.specs.Respellings.{front_of};
ghost use Rattle.jr_rewrite.specs.Spots.{level, operand_asks};
ghost use Rattle.jr_new_words.specs.ChoiceView.{choice_of};
ghost use Rattle.jr_new_words.specs.ChoiceView as view;

use jr_ast::BinOp;
use jr_new_words::{Choice, ChosenFront};

/// Behind a sign.
pub(crate) const SIGN_LEVEL: u32 = 8;
/// Behind a cast.
pub(crate) const UNSIGNED_LEVEL: u32 = 9;
/// In front of a dot.
const PRIMARY_LEVEL: u32 = 10;

/// How tightly a binary operator binds.
pub(crate) fn rank(op: BinOp) -> u32
    ensures is { result ≡ shape.rank_of op }
    ensures small { result < 8 }
{
    match op {
        BinOp::Or => 2,
        BinOp::And => 3,
        BinOp::Eq => 4,
        BinOp::Ne => 4,
        BinOp::Lt => 5,
        BinOp::Gt => 5,
        BinOp::Le => 5,
        BinOp::Ge => 5,
        BinOp::Add => 6,
        BinOp::Sub => 6,
        BinOp::Mul => 7,
        BinOp::Div => 7,
        BinOp::Rem => 7,
    }
}

fn asked_by_front(front: &ChosenFront) -> u32
    ensures { level result ≡ operand_asks (view.front_of front.now) }
{
    match front {
        ChosenFront::Same => PRIMARY_LEVEL,
        ChosenFront::Alone => PRIMARY_LEVEL,
        ChosenFront::ByThis => PRIMARY_LEVEL,
        ChosenFront::BySuper => PRIMARY_LEVEL,
        ChosenFront::ByCastThis(_) => PRIMARY_LEVEL,
        ChosenFront::ByClass(_) => PRIMARY_LEVEL,
        ChosenFront::ByOuterClass(_, _) => PRIMARY_LEVEL,
        ChosenFront::ByCast(_) => UNSIGNED_LEVEL,
    }
}

/// How tightly an operand has to bind, where this is chosen for the word behind its dot.
pub(crate) fn asked_by(choice: &Choice) -> u32
    ensures { level result ≡ operand_asks (front_of (choice_of choice.now)) }
{
    match choice {
        Choice::Stays => PRIMARY_LEVEL,
        Choice::Becomes(to) => asked_by_front(&to.front),
        Choice::Loses(_) => PRIMARY_LEVEL,
    }
}
