//! What a refactoring needs at its place.
ghost use Rattle.std.specs.Prelude.{◌≡◌};
ghost use Rattle.jr_names.specs.Needs.{need_name};

/// What there has to be at the place of a refactoring.
#[derive(Clone, Copy, PartialEq, Eq, Debug)]
pub enum Need {
    /// A declaration, or a name that is bound to one.
    Declaration,
    /// An expression with a value that a local can take.
    Value,
    /// A local that a statement declares.
    Local,
    /// One read of a local, where its initializer does more than read locals.
    OneUse,
    /// A whole expression, or whole statements of one list.
    Statements,
    /// A call in a place where statements can stand for it.
    Call,
    /// A method that gives nothing, where nothing takes what it gives.
    VoidCall,
    /// No receiver, `this`, `super`, a class or the name of a local.
    LocalReceiver,
    /// A method of the kind that moves.
    Method,
    /// A class of the session that is another one.
    OtherClass,
    /// A superclass in the session.
    Parent,
    /// A field without an initializer.
    NoInitializer,
}

impl Need {
    /// Its name, as refusals have it.
    pub fn name(self) -> &'static str
        ensures { result.now ≡ need_name self }
    {
        match self {
            Need::Declaration => "Declaration",
            Need::Value => "Value",
            Need::Local => "Local",
            Need::OneUse => "OneUse",
            Need::Statements => "Statements",
            Need::Call => "Call",
            Need::VoidCall => "VoidCall",
            Need::LocalReceiver => "LocalReceiver",
            Need::Method => "Method",
            Need::OtherClass => "OtherClass",
            Need::Parent => "Parent",
            Need::NoInitializer => "NoInitializer",
        }
    }
}
