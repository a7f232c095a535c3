//! Expressions in brackets, one pair for each node that has operands.
use jr_ast::{BinOp, BumpOp, Expr, ExprKind, Ident, TypeKind, TypeRef, UnOp};
use jr_text::Span;
use std::alloc::Global;
use std::process::Abort;

/// A piece of what is shown: a text, a number, the place of a mark; or what has pieces of its own.
#[derive(Clone, Copy)]
enum Piece<'a> {
    Text(&'a str),
    Number(u32),
    Place(Span),
    Word(&'a Ident<Span>),
    Type(&'a TypeRef<Span>),
    Node(&'a Expr<Span>),
    /// Arguments, in front of the first of which no comma stands, and those behind others.
    First(&'a [Expr<Span>]),
    Others(&'a [Expr<Span>]),
}

fn unary_sign(op: UnOp) -> &'static str {
    match op {
        UnOp::Plus => "[+ ",
        UnOp::Minus => "[- ",
        UnOp::Not => "[! ",
    }
}

fn binary_sign(op: BinOp) -> &'static str {
    match op {
        BinOp::Or => "||",
        BinOp::And => "&&",
        BinOp::Eq => "==",
        BinOp::Ne => "!=",
        BinOp::Lt => "<",
        BinOp::Gt => ">",
        BinOp::Le => "<=",
        BinOp::Ge => ">=",
        BinOp::Add => "+",
        BinOp::Sub => "-",
        BinOp::Mul => "*",
        BinOp::Div => "/",
        BinOp::Rem => "%",
    }
}

fn bump_signs(op: BumpOp) -> (&'static str, &'static str) {
    match op {
        BumpOp::PreInc => ("[++ ", "]"),
        BumpOp::PreDec => ("[-- ", "]"),
        BumpOp::PostInc => ("[", " ++]"),
        BumpOp::PostDec => ("[", " --]"),
    }
}

/// What is left to show, the next piece last.
type Left<'a> = Vec<Piece<'a>>;

fn push<'a>(rt: &impl Abort, left: &mut Left<'a>, piece: Piece<'a>) {
    left.push(piece).expect(rt, "memory");
}

fn push_three<'a>(
    rt: &impl Abort,
    left: &mut Left<'a>,
    first: Piece<'a>,
    second: Piece<'a>,
    third: Piece<'a>,
) {
    push(rt, left, third);
    push(rt, left, second);
    push(rt, left, first);
}

/// A call of a name, or the creation of a type, with its arguments.
fn push_call<'a>(
    rt: &impl Abort,
    left: &mut Left<'a>,
    dot: &'a str,
    name: Piece<'a>,
    args: &'a [Expr<Span>],
) {
    push(rt, left, Piece::Text(")"));
    push_three(rt, left, name, Piece::Text("("), Piece::First(args));
    push(rt, left, Piece::Text(dot));
}

/// Two operands and what stands between them.
fn push_two<'a>(
    rt: &impl Abort,
    left: &mut Left<'a>,
    first: &'a Expr<Span>,
    sign: &'a str,
    behind: &'a str,
    second: &'a Expr<Span>,
) {
    push_three(
        rt,
        left,
        Piece::Text(behind),
        Piece::Node(second),
        Piece::Text("]"),
    );
    push_three(
        rt,
        left,
        Piece::Node(first),
        Piece::Text(" "),
        Piece::Text(sign),
    );
    push(rt, left, Piece::Text("["));
}

/// An operand between two texts.
fn push_one<'a>(
    rt: &impl Abort,
    left: &mut Left<'a>,
    before: &'a str,
    of: &'a Expr<Span>,
    behind: &'a str,
) {
    push_three(
        rt,
        left,
        Piece::Text(before),
        Piece::Node(of),
        Piece::Text(behind),
    );
}

fn push_kind<'a>(rt: &impl Abort, left: &mut Left<'a>, kind: &'a ExprKind<Span>) {
    match kind {
        ExprKind::Int(value) => push(rt, left, Piece::Number(*value)),
        ExprKind::Bool(true) => push(rt, left, Piece::Text("true")),
        ExprKind::Bool(false) => push(rt, left, Piece::Text("false")),
        ExprKind::Null => push(rt, left, Piece::Text("null")),
        ExprKind::This => push(rt, left, Piece::Text("this")),
        ExprKind::Text(text) => {
            let text = Piece::Text(text.as_str());
            push_three(rt, left, Piece::Text("\""), text, Piece::Text("\""))
        }
        ExprKind::Simple(name) => push(rt, left, Piece::Word(name)),
        ExprKind::Field(of, name) => {
            push(rt, left, Piece::Word(name));
            push_one(rt, left, "", of, ".")
        }
        ExprKind::SuperField(name) => {
            push(rt, left, Piece::Word(name));
            push(rt, left, Piece::Text("super."))
        }
        ExprKind::ClassLit(ty) => {
            push(rt, left, Piece::Text(".class"));
            push(rt, left, Piece::Type(ty))
        }
        ExprKind::Call(None, name, args) => push_call(rt, left, "", Piece::Word(name), args),
        ExprKind::Call(Some(of), name, args) => {
            push_call(rt, left, ".", Piece::Word(name), args);
            push(rt, left, Piece::Node(of))
        }
        ExprKind::SuperCall(name, args) => push_call(rt, left, "super.", Piece::Word(name), args),
        ExprKind::New(ty, args) => push_call(rt, left, "new ", Piece::Type(ty), args),
        ExprKind::Paren(of) => push_one(rt, left, "(", of, ")"),
        ExprKind::Cast(ty, of) => {
            push_one(rt, left, " ", of, "]");
            push(rt, left, Piece::Type(ty));
            push(rt, left, Piece::Text("[cast "))
        }
        ExprKind::Unary(op, of) => push_one(rt, left, unary_sign(*op), of, "]"),
        ExprKind::Bump(op, of) => {
            let (before, behind) = bump_signs(*op);
            push_one(rt, left, before, of, behind)
        }
        ExprKind::Binary(op, first, second) => {
            push_two(rt, left, first, binary_sign(*op), " ", second)
        }
        ExprKind::Assign(to, value) => push_two(rt, left, to, "= ", "", value),
        ExprKind::Compound(op, to, value) => {
            push_two(rt, left, to, binary_sign(*op), "= ", value)
        }
    }
}

fn push_type<'a>(rt: &impl Abort, left: &mut Left<'a>, kind: &'a TypeKind<Span>) {
    match kind {
        TypeKind::Int => push(rt, left, Piece::Text("int")),
        TypeKind::Boolean => push(rt, left, Piece::Text("boolean")),
        TypeKind::Named(None, name) => push(rt, left, Piece::Word(name)),
        TypeKind::Named(Some(outer), name) => {
            push_three(
                rt,
                left,
                Piece::Word(outer),
                Piece::Text("."),
                Piece::Word(name),
            )
        }
    }
}

fn push_args<'a>(rt: &impl Abort, left: &mut Left<'a>, args: &'a [Expr<Span>], comma: &'a str) {
    match args.split_first() {
        None => {}
        Some((first, others)) => {
            push_three(
                rt,
                left,
                Piece::Text(comma),
                Piece::Node(first),
                Piece::Others(others),
            )
        }
    }
}

fn put_place(rt: &impl Abort, text: &mut String, at: Span) {
    let (from, to) = (at.from, at.to);
    write!(text, "@{from}-{to}").expect(rt, "memory");
}

/// Shows a piece, or puts its own pieces in its place.
fn open<'a>(
    rt: &impl Abort,
    left: &mut Left<'a>,
    text: &mut String,
    piece: Piece<'a>,
    places: bool,
) {
    match piece {
        Piece::Text(piece) => text.push_str(piece).expect(rt, "memory"),
        Piece::Number(value) => write!(text, "{value}").expect(rt, "memory"),
        Piece::Place(at) => {
            if places {
                put_place(rt, text, at)
            }
        }
        Piece::Word(word) => {
            push(rt, left, Piece::Place(word.mark));
            push(rt, left, Piece::Text(word.name.as_str()))
        }
        Piece::Type(ty) => {
            push(rt, left, Piece::Place(ty.mark));
            push_type(rt, left, &ty.kind)
        }
        Piece::Node(of) => {
            push(rt, left, Piece::Place(of.mark));
            push_kind(rt, left, &of.kind)
        }
        Piece::First(args) => push_args(rt, left, args, ""),
        Piece::Others(args) => push_args(rt, left, args, ", "),
    }
}

/// The tree in brackets, with its marks or without. No row's tree has more than 10,000 pieces.
pub(crate) fn show_expr(rt: &impl Abort, alloc: Global, tree: &Expr<Span>, places: bool) -> String {
    let mut text = String::new(alloc);
    let mut left = Vec::new(alloc);
    push(rt, &mut left, Piece::Node(tree));
    for _ in 0..10_000 {
        match left.pop() {
            None => return text,
            Some(piece) => open(rt, &mut left, &mut text, piece, places),
        }
    }
    text
}
