//! Spellings.
use jr_ast::Name;

/// How a reference can be spelled. K is its declaration's class, of a class that class itself, and
/// Outer the class that K is a member of.
#[derive(Clone, Copy, PartialEq, Eq, Debug, Drop)]
pub enum Form {
    /// As it is asked.
    Asked,
    /// `this.x`
    OnThis,
    /// `super.x`
    OnSuper,
    /// `((K) this).x`
    OnCastThis,
    /// `((K) e).x`
    OnCastOperand,
    /// `K.x`
    OnClass,
    /// `Outer.K.x`
    OnOuterClass,
    /// `K`
    Class,
    /// `Outer.K`
    OuterClass,
    /// `K` in front of a dot
    ClassInFront,
    /// `Outer.K` in front of a dot
    OuterClassInFront,
}

/// A spelling, without a call's arguments, and whether it is the asked one.
#[derive(Drop)]
pub struct Spelling {
    pub text: Name,
    pub is_asked: bool,
}
