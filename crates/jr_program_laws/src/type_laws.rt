//! Laws that no call's clause can carry.
ghost use Rattle.jr_program_laws.specs.FoundTypes.{DeclaredTypesAreFound};

/// Each name in the type of a field, the result and the parameters of a method, the parameters of a
/// constructor and the superclass of a class finds its class in the rows of the program, accessible
/// or not (JLS 6.5.5, 8.1.4, 8.3, 8.4, 8.8). The program has no fault of declarations.
pub fn declared_types_are_found<A>()
    ensures { DeclaredTypesAreFound A }
{}
