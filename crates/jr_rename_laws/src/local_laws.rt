//! A law of the rename of one local.
ghost use Rattle.jr_images.specs.OneLocal.{LocalsKeepDecls, LocalsKeepRows, LocalsAreFair};

/// Where one local or parameter is renamed, every key is its own image: the new program has the
/// old rows, and the law on references asks nothing but that the rows are those of a program, with
/// identifiers for names.
pub fn locals_keep_keys()
    ensures decls { LocalsKeepDecls }
    ensures rows { LocalsKeepRows }
    ensures fair { LocalsAreFair }
{}
