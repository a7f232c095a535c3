//! Laws of the rows and members of a rewritten program, that no call's clause can carry.
ghost use Rattle.jr_rename_laws.specs.ImageLaws.{
  ClassesStayFair,
  LocalsGiveImages,
  FieldsGiveImages,
  MethodsGiveImages,
  PlansBecome,
  RenamingsStayFair,
};

/// Where a local or parameter is renamed, the rows of the new program are the images of the old
/// rows, its declarations have no fault, and each member stands where the one stood whose image it
/// is (JLS 6.4, 14.4).
pub fn locals_give_images<A, B>()
    ensures { LocalsGiveImages A B }
{}

/// The same where a field is renamed (JLS 8.3).
pub fn fields_give_images<A, B>()
    ensures { FieldsGiveImages A B }
{}

/// The same where methods are renamed that are connected by overriding (JLS 8.4, 8.4.8.1).
pub fn methods_give_images<A, B>()
    ensures { MethodsGiveImages A B }
{}

/// What is planned is a rename of which these laws speak, of whatever declaration.
pub fn plans_become<B>()
    ensures { PlansBecome B }
{}

/// Where a class is renamed, the images of the rows are rows as a program's: so that references
/// are kept (JLS 8.1, 8.5).
pub fn classes_stay_fair<A>()
    ensures { ClassesStayFair A }
{}

/// Whatever is renamed, where it collides with nothing and no method of the prelude is renamed with
/// it, the images of the rows are rows as a program's.
pub fn renamings_stay_fair<A>()
    ensures { RenamingsStayFair A }
{}
