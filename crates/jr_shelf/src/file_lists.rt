// Files as lists of names and bytes.
ghost use Rattle.std.specs.Prelude.{◌≡◌};
ghost use Rattle.std.specs.Option.{option_copied};
ghost use Rattle.std.specs.Ordering.{nat_cmp};
ghost use Rattle.std.specs.Cmp.Lexicographic.{slice_cmp};
ghost use Rattle.std.specs.FinMap.{find};
ghost use Rattle.jr_shelf.specs.Files.{entries_of, names_differ};

/// The bytes of the first file of this name.
pub fn find_file<'a>(files: &'a [(String, Vec<u8>)], name: &str) -> Option<&'a [u8]>
    ensures { option_copied result ≡ find (slice_cmp nat_cmp) name.now (entries_of files.now) }
{
    for (file, bytes) in files {
        if name == file.as_str() {
            return Some(bytes.as_slice());
        }
    }
    None
}

/// Whether no two files have one name.
pub fn names_differ(files: &[(String, Vec<u8>)]) -> bool
    ensures { result ≡ names_differ (entries_of files.now) }
{
    let mut rest = files;
    while let Some((file, others)) = rest.split_first() {
        if find_file(others, file.0.as_str()).is_some() {
            return false;
        }
        rest = others;
    }
    true
}
