//! Some of the files, by their names.
ghost use Rattle.std.specs.Prelude.{◌≡◌, ℕ, List, true};
ghost use Rattle.continued_files.specs.Names.{has};

/// Files in whose names a text stands after so many bytes.
#[derive(Clone, Copy, Drop)]
pub struct FileNames<'a> {
    /// After how many bytes; after all if a name has fewer.
    pub after: usize,
    /// The text; each file has an empty one.
    pub text: &'a [u8],
}

impl<'a> FileNames<'a> {
    /// Each file.
    pub fn each() -> FileNames<'a>
        ensures { (name : List ℕ) → has result name ≡ true }
    {
        FileNames {
            after: 0,
            text: b"",
        }
    }

    /// Whether the file of that name is one of them.
    pub fn has(&self, name: &[u8]) -> bool
        ensures { result ≡ has self.now name.now }
    {
        let after = self.after.min(name.len());
        name[after..].starts_with(self.text)
    }
}
