//! The law that the walk over a program's files stands on.
ghost use Rattle.jr_new_files.specs.FileLaws.{FilesAreRewritten};

/// A file is rewritten by rewriting its written members, in the order of the list of a program's
/// written members, each by itself: the changes of the file are theirs one behind the other, so
/// many references are respelled as in all of them, and their losses are the file's. A walk need
/// not go down the classes of a file.
pub fn files_are_rewritten<A>()
    ensures { FilesAreRewritten A }
{}
