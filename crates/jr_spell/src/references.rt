//! References that a refactoring keeps.
use jr_ast::Name;
use jr_table::{ClassKey, Ty, Tys};

/// What a reference is, before it is spelled anew: a row of the table of spellings.
#[derive(Clone, Copy, PartialEq, Eq, Debug, Drop)]
pub enum RefForm {
    /// A field by its simple name.
    FieldSimple,
    /// A field on an expression.
    FieldOn,
    /// A field by `super`.
    FieldSuper,
    /// A field or a method through a class.
    ThroughClass,
    /// A method by its simple name.
    MethodSimple,
    /// A method on an expression.
    MethodOn,
    /// A class as the name of a type.
    ClassName,
    /// A class in front of a dot, in an expression.
    ClassInFront,
    /// A local, a method by `super`, or a constructor.
    AsAsked,
}

/// What stands in front of the dot: its static type, and its text as it is to be written.
///
/// Through a class it is that class; of the constructor of a creation, the class that is created.
#[derive(Drop)]
pub struct Operand {
    pub ty: Ty,
    pub text: Name,
}

/// A reference that is kept, with what it is asked to be spelled as.
#[derive(Drop)]
pub struct Reference {
    pub form: RefForm,
    /// The asked spelling, the whole of it but for a call's arguments: `x`, `e.x`, `super.x`,
    /// `B.x`, `m`, `K`, `Outer.K`.
    pub asked: Name,
    pub operand: Option<Operand>,
    /// The class that the asked words in front of the last dot find where the reference is
    /// spelled, if they find one; of a class in front of a dot, all of its words.
    pub front: Option<ClassKey>,
    /// The static types of a call's arguments.
    pub args: Tys,
}
