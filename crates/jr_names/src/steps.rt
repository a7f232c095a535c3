//! What a script asks for.

use jr_ast::Name;

/// What a `show` shows of a file.
#[derive(Clone, Copy, PartialEq, Eq, Debug)]
pub enum What {
    /// What each reference is bound to.
    Bindings,
    /// The dependences between the sites of each member.
    Dependences,
}

/// One step. A file is named as in the session, and offsets are bytes from its start.
#[derive(Drop)]
pub enum Step {
    /// The bytes of the file at `from` up to and without `to` become the text.
    Edit {
        file: Name,
        from: u32,
        to: u32,
        text: Name,
    },
    /// What the identifier at `at` declares or is bound to gets the name.
    Rename {
        file: Name,
        at: u32,
        name: Name,
    },
    /// The expression becomes the initializer of a local of the name.
    ExtractLocal {
        file: Name,
        from: u32,
        to: u32,
        name: Name,
    },
    /// The expression or statements become the body of a method of the name.
    ExtractMethod {
        file: Name,
        from: u32,
        to: u32,
        name: Name,
    },
    /// Each read of the local becomes its initializer.
    InlineLocal {
        file: Name,
        at: u32,
    },
    /// The call becomes the body of its method.
    InlineMethod {
        file: Name,
        at: u32,
    },
    /// The field or method goes to the superclass.
    PullUp {
        file: Name,
        at: u32,
    },
    /// The static method goes to the class.
    MoveStatic {
        file: Name,
        at: u32,
        class: Name,
    },
    /// The method's body goes to the class as a static method, with a parameter of the name for
    /// `this`.
    MoveInstance {
        file: Name,
        at: u32,
        class: Name,
        name: Name,
    },
    /// What the file has of it is shown.
    Show {
        file: Name,
        what: What,
    },
    /// The last edit or refactoring is taken back.
    Undo,
    /// What was taken back last is done again.
    Redo,
}
