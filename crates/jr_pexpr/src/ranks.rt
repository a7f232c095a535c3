//! Levels: how tightly a form binds, the loosest first (JLS 15.7.3, 15.14 to 15.26).
ghost use Rattle.std.specs.Prelude.{◌≡◌};
ghost use Rattle.jr_grammar.specs.Shape.{rank_of, unary_level};

use jr_ast::{BinOp, UnOp};

pub(crate) const ASSIGNMENT_LEVEL: u32 = 1;

const OR_LEVEL: u32 = 2;

const AND_LEVEL: u32 = 3;

const EQUALITY_LEVEL: u32 = 4;

const RELATION_LEVEL: u32 = 5;

const SUM_LEVEL: u32 = 6;

const PRODUCT_LEVEL: u32 = 7;

/// What begins with a sign, or with `++` or `--`.
pub(crate) const SIGN_LEVEL: u32 = 8;

/// A unary expression that may stand behind a cast.
pub(crate) const UNSIGNED_LEVEL: u32 = 9;

pub(crate) const PRIMARY_LEVEL: u32 = 10;

/// How tightly an operator binds.
pub(crate) fn rank(op: BinOp) -> u32
    ensures { result ≡ rank_of op }
{
    match op {
        BinOp::Or => OR_LEVEL,
        BinOp::And => AND_LEVEL,
        BinOp::Eq | BinOp::Ne => EQUALITY_LEVEL,
        BinOp::Lt | BinOp::Gt | BinOp::Le | BinOp::Ge => RELATION_LEVEL,
        BinOp::Add | BinOp::Sub => SUM_LEVEL,
        BinOp::Mul | BinOp::Div | BinOp::Rem => PRODUCT_LEVEL,
    }
}

/// How tightly a sign or `!` binds.
pub(crate) fn unary_rank(op: UnOp) -> u32
    ensures { result ≡ unary_level op }
{
    match op {
        UnOp::Plus | UnOp::Minus => SIGN_LEVEL,
        UnOp::Not => UNSIGNED_LEVEL,
    }
}
